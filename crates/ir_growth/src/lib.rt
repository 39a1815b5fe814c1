//! Growths of texts. Each is refused with an error that no other crate can make, so where a call answers that error a
//! growth was refused: a body that answers it without one does not compile.
#![tactic(auto)]

ghost use Rattle.std.specs.Prelude.{◌≡◌, ◌+◌, ◌++◌, ◌≤◌, if◌then◌else◌, is_ok, length, string_bytes, string_len};
ghost use Rattle.std.specs.Char.{encode_utf8};

use std::alloc::AllocError;

/// A text did not get the room that it wanted.
#[derive(Debug, Drop)]
pub struct Refusal {
    /// How many bytes were to be added.
    wanted: usize,
}

impl Refusal {
    /// The error of the standard library in its place, for calls that answer that one.
    pub fn error(self) -> AllocError {
        AllocError
    }
}

/// Adds a text at the end. Refused where the growth was; then the text is as it was.
pub fn push_str(text: &mut String, more: &str) -> Result<(), Refusal>
    ensures bytes { string_bytes text.new
        ≡ (if is_ok result then string_bytes text.old ++ more.now else string_bytes text.old) }
    ensures len { string_len text.new
        ≡ (if is_ok result then string_len text.old + length more.now else string_len text.old) }
{
    match text.push_str(more) {
        Ok(()) => Ok(()),
        Err(_) => Err(Refusal { wanted: more.len() }),
    }
}

/// Adds a character at the end. Refused where the growth was; then the text is as it was.
pub fn push_char(text: &mut String, character: char) -> Result<(), Refusal>
    ensures bytes { string_bytes text.new
        ≡ (if is_ok result then string_bytes text.old ++ encode_utf8 character else string_bytes text.old) }
    ensures len { string_len text.new
        ≡ (if is_ok result then string_len text.old + length (encode_utf8 character) else string_len text.old) }
    ensures few { length (encode_utf8 character) ≤ 4 }
{
    match text.push(character) {
        Ok(()) => Ok(()),
        Err(_) => Err(Refusal { wanted: 4 }),
    }
}
