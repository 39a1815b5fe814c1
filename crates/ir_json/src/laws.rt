//! Laws of the definitions, each the contract of a function with an empty body.
ghost use Rattle.std.specs.Prelude.{◌≡◌, ℕ, List, ◌∷◌, ◌++◌, Some, true, nat_lt};
ghost use Rattle.std.specs.List.{list_all};
ghost use Rattle.ir_model.specs.Graph.{Name, is_name};
ghost use Rattle.ir_json.specs.{Strings.read_string, Words.{goal, json_escaped, json_string}};

/// A word as a string is read again as the word, byte for byte, and what follows its quote is left.
pub fn string_is_read_again()
    ensures { (word rest : List ℕ) → list_all (λ b. nat_lt b 256) word ≡ true
        → read_string (json_escaped word ++ 34 ∷ rest) ≡ Some (word, rest) }
{}

/// A neighbour's name is a string, also where it is `-`: null is where there is no neighbour, and there alone.
pub fn neighbour_is_a_string()
    ensures { (name : Name) → is_name name ≡ true → goal name ≡ json_string name }
{}
