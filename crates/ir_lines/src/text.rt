//! The lines of a table as text and as bytes.

ghost use Rattle.std.specs.Prelude.{◌≡◌, ◌<◌, ◌++◌, IfOk, OnOk, string_bytes};
ghost use Rattle.ir_lines.specs.Texts.{table_bytes, word_end, half_text, hex_code, table_text, word_text};

use std::alloc::{AllocError, Global};

// A digit of base 16.
fn hex_code(digit: u32) -> char
    requires { digit < 16 }
    ensures ascii { result < 128 }
    ensures digit { result ≡ hex_code digit }
{
    (if digit < 10 {
        b'0' + digit as u8
    } else {
        b'a' + (digit as u8 - 10)
    }) as char
}

// Writes half a word as four digits.
fn push_half(text: &mut String, half: u32) -> Result<(), AllocError>
    ensures { OnOk result (string_bytes text.new ≡ string_bytes text.old ++ half_text half) }
{
    text.push(hex_code(half / 4096 % 16))?;
    text.push(hex_code(half / 256 % 16))?;
    text.push(hex_code(half / 16 % 16))?;
    text.push(hex_code(half % 16))
}

// Writes a word as eight digits: those of its start, and those of its port.
fn push_word(text: &mut String, word: u32) -> Result<(), AllocError>
    ensures { OnOk result (string_bytes text.new ≡ string_bytes text.old ++ word_text word) }
{
    push_half(text, word / 65_536)?;
    push_half(text, word % 65_536)
}

// Writes what is after the word at a place: a line feed after the last one of a line, and else a space.
fn push_end(text: &mut String, place: usize) -> Result<(), AllocError>
    ensures { OnOk result (string_bytes text.new ≡ string_bytes text.old ++ word_end place) }
{
    if place % 32 == 31 {
        text.push_str("\n")
    } else {
        text.push_str(" ")
    }
}

/// The words of a table as text: a line for each of its lines, with 32 words of eight digits of base 16, and a space
/// between two. It is refused for memory alone.
pub fn table_text(alloc: Global, words: &[u32]) -> Result<String, AllocError>
    ensures { IfOk result (λ text. string_bytes text ≡ table_text words.now) }
{
    let mut text = String::new(alloc);
    for place in 0..words.len() {
        push_word(&mut text, words[place])?;
        push_end(&mut text, place)?;
    }
    Ok(text)
}

/// The words of a table as bytes, the lowest byte of each first: 128 bytes a line. It is refused for memory alone.
pub fn table_bytes(alloc: Global, words: &[u32]) -> Result<Vec<u8>, AllocError>
    ensures { IfOk result (λ bytes. bytes.items ≡ table_bytes words.now) }
{
    let mut bytes = Vec::new(alloc);
    for place in 0..words.len() {
        let word = words[place];
        bytes.extend_from_slice(&[
            (word % 256) as u8,
            (word / 256 % 256) as u8,
            (word / 256 / 256 % 256) as u8,
            (word / 256 / 256 / 256 % 256) as u8,
        ])?;
    }
    Ok(bytes)
}
