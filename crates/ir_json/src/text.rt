//! The JSON of a text.
ghost use Rattle.std.specs.Prelude.{◌≡◌, ◌++◌, true, OnOk, IfOk, string_bytes};
ghost use Rattle.ir_model.specs.Text.{lines, words_of};
ghost use Rattle.ir_json.specs.Forms.{form_held, IsForm};
ghost use Rattle.ir_json.specs.JsonText.{form_text, json_line, lines_text, json_text};

use crate::fill::push_filled;
use crate::form::{Form, form_of, lead};
use crate::items::push_items;
use crate::shape::Shape;
use ir_adjlist::scan::{next_line, next_word};
use ir_growth::{Refusal, push_str};
use std::alloc::Global;

fn push_form(text: &mut String, form: Form, line: &[u8]) -> Result<(), Refusal>
    requires { IsForm (form_held form) form }
    ensures { OnOk result (string_bytes text.new ≡ string_bytes text.old
        ++ form_text (form_held form) (words_of line.now)) }
{
    let rest = push_filled(text, form.front, line)?;
    push_items(text, form.items, rest)
}

fn push_line(text: &mut String, shape: Shape, place: usize, line: &[u8]) -> Result<(), Refusal>
    ensures { OnOk result (string_bytes text.new
        ≡ string_bytes text.old ++ json_line shape place (words_of line.now)) }
{
    push_str(text, lead(shape, place, line))?;
    push_form(text, form_of(shape, place, line), line)
}

/// Writes the lines of a text; one without a word is passed over.
fn push_lines(json: &mut String, shape: Shape, text: &[u8]) -> Result<(), Refusal>
    ensures { OnOk result (string_bytes json.new ≡ string_bytes json.old ++ lines_text shape 0 (lines text.now)) }
{
    let mut rest = text;
    let mut place = 0;
    while !rest.is_empty() {
        let (line, after) = next_line(rest);
        if next_word(line).is_some() {
            push_line(json, shape, place, line)?;
            place += 1;
        }
        rest = after;
    }
    Ok(())
}

/// The JSON of a text of this shape, a line for each line of the text that has a word. It has
/// printable bytes of ASCII and line feeds alone. Refused for memory alone. Takes O(b), for a text
/// of b bytes.
pub fn json_of(alloc: Global, shape: Shape, text: &[u8]) -> Result<String, Refusal>
    ensures { IfOk result (λ json. string_bytes json ≡ json_text shape (lines text.now)) }
{
    let mut json = String::new(alloc);
    push_str(&mut json, shape.opening())?;
    push_lines(&mut json, shape, text)?;
    push_str(&mut json, shape.closing())?;
    Ok(json)
}
