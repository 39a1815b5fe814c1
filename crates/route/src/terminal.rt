//! What is said on standard error, and when sentences are.
ghost use Rattle.std.specs.Prelude.{◌≡◌, codes};
ghost use Rattle.route.specs.Sentences.{are_wanted, is_given};

/// Writes a text to standard error. Where that takes none of it, nobody can be told.
pub fn tell(rt: &HostRuntime, text: &str) {
    let _told = rt.eprint(text);
}

/// Whether `--no-explain` is among the words after the program's name: before a word `--`, after which all are
/// files.
fn are_sentences_forbidden(words: &[String]) -> bool
    ensures { result ≡ is_given (codes "--no-explain") words.now }
{
    words
        .iter()
        .take_while(|word| word.as_str() != "--")
        .any(|word| word.as_str() == "--no-explain")
}

/// Whether sentences follow the lines of faults: where they are asked for, and where standard error is a terminal
/// unless the words after the program's name forbid them.
pub fn are_sentences_wanted(are_asked: bool, is_terminal: bool, words: &[String]) -> bool
    ensures { result ≡ are_wanted are_asked is_terminal words.now }
{
    are_asked || (is_terminal && !are_sentences_forbidden(words))
}
