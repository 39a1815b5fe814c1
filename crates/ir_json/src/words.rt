//! Words as values of JSON.
ghost use Rattle.std.specs.Prelude.{◌≡◌, ◌<◌, ◌≤◌, ◌++◌, not, OnOk, length, position, string_bytes, bytes_eq};
ghost use Rattle.std.specs.List.{prefix_len};
ghost use Rattle.ir_json.specs.Words.{hex_digit, json_byte, json_escaped, json_string, is_digit_byte, is_whole_number, json_number, goal, before_mark, behind_mark};

use ir_adjlist::digits::all_digits;
use ir_growth::{Refusal, push_char, push_str};

/// A digit of base 16.
fn hex_digit(n: u8) -> char
    requires { n < 16 }
    ensures digit { result ≡ hex_digit n }
    ensures ascii { result < 128 }
{
    if n < 10 {
        (b'0' + n) as char
    } else {
        (b'a' - 10 + n) as char
    }
}

/// Writes a byte of a string.
fn push_escaped_byte(text: &mut String, byte: u8) -> Result<(), Refusal>
    ensures { OnOk result (string_bytes text.new ≡ string_bytes text.old ++ json_byte byte) }
{
    if byte == b'"' || byte == b'\\' {
        push_char(text, '\\')?;
        push_char(text, byte as char)?;
    } else if byte >= b' ' && byte <= b'~' {
        push_char(text, byte as char)?;
    } else {
        push_str(text, "\\u00")?;
        push_char(text, hex_digit(byte / 16))?;
        push_char(text, hex_digit(byte % 16))?;
    }
    Ok(())
}

/// Writes a word as a string.
pub fn push_quoted(text: &mut String, word: &[u8]) -> Result<(), Refusal>
    ensures { OnOk result (string_bytes text.new ≡ string_bytes text.old ++ json_string word.now) }
{
    push_str(text, "\"")?;
    for byte in word {
        push_escaped_byte(text, *byte)?;
    }
    push_str(text, "\"")
}

fn is_digit_byte(byte: u8) -> bool
    ensures { result ≡ is_digit_byte byte }
{
    byte >= b'0' && byte <= b'9'
}

/// Writes a word as a number; what is none as null.
pub fn push_number(text: &mut String, word: &[u8]) -> Result<(), Refusal>
    ensures { OnOk result (string_bytes text.new ≡ string_bytes text.old ++ json_number word.now) }
{
    if word.is_empty() || !all_digits(word) {
        return push_str(text, "null");
    }
    for byte in word {
        push_char(text, *byte as char)?;
    }
    Ok(())
}

/// Writes a word as a string; `#`, which no name holds, as null.
pub fn push_goal(text: &mut String, word: &[u8]) -> Result<(), Refusal>
    ensures { OnOk result (string_bytes text.new ≡ string_bytes text.old ++ goal word.now) }
{
    if is(word, "#") {
        return push_str(text, "null");
    }
    push_quoted(text, word)
}

/// Whether a word is this one.
pub fn is(word: &[u8], wanted: &str) -> bool
    ensures { result ≡ bytes_eq word.now wanted.now }
{
    word == wanted.as_bytes()
}

fn find_mark(word: &[u8]) -> Option<usize>
    ensures { result ≡ position (λ b. not (is_digit_byte b)) word.now }
{
    word.iter().position(|byte| !is_digit_byte(*byte))
}

/// How many digits are at the front.
fn digits(word: &[u8]) -> usize
    ensures len { result ≡ prefix_len is_digit_byte word.now }
    ensures within { result ≤ length word.now }
{
    find_mark(word).unwrap_or(word.len())
}

/// The digits at the front.
pub fn before_mark(word: &[u8]) -> &[u8]
    ensures { result.now ≡ before_mark word.now }
{
    &word[..digits(word)]
}

/// What follows the byte that follows the digits at the front.
pub fn behind_mark(word: &[u8]) -> &[u8]
    ensures { result.now ≡ behind_mark word.now }
{
    let end = digits(word);
    if end < word.len() {
        &word[end + 1..]
    } else {
        &[]
    }
}
