//! Answers in the form that the words ask for.
ghost use Rattle.std.specs.Prelude.{◌≡◌, IfOk, string_bytes};
ghost use Rattle.ir_model.specs.Text.{lines};
ghost use Rattle.ir_json.specs.JsonText.{json_text};
ghost use Rattle.ir_cli.specs.{Notices.notice_line, Told.Sends};
ghost use Rattle.ir_answer.specs.Formed.{shape_of, asked_shape, shaped, IsTextPut};

use ir_cli::{Notice, Sub, Words, notice_line};
use ir_json::{Shape, json_of};
use ir_plan::Crew;
use ir_show::plan_text::PlanText;
use ir_streams::{Writer, write_text};
use std::alloc::{AllocError, Global};

/// The shape of what a subcommand prints; a drawing has none, and neither have lines.
fn shape_of(sub: Sub, words: &Words) -> Option<Shape>
    ensures { result ≡ shape_of sub words.now }
{
    match sub {
        Sub::Plan if words.order_alone => Some(Shape::Order),
        Sub::Plan if words.nodes.is_some() => Some(Shape::Nodes),
        Sub::Plan => Some(Shape::Plan),
        Sub::Walk => Some(Shape::Walk),
        Sub::Stats if words.each && words.by_node => Some(Shape::Losses),
        Sub::Stats if words.each => Some(Shape::Failures),
        Sub::Stats => Some(Shape::Stats),
        Sub::Compare => Some(Shape::Compare),
        Sub::Diff => Some(Shape::Diff),
        Sub::Draw | Sub::Xdp => None,
        Sub::Prefixes => Some(Shape::Prefixes),
        Sub::Ranges => Some(Shape::Ranges),
        Sub::Sim if words.steps => Some(Shape::Steps),
        Sub::Sim | Sub::Live if words.restamps == 0 => Some(Shape::Trace),
        Sub::Sim | Sub::Live => Some(Shape::Restamps),
        Sub::Check => Some(Shape::Check),
    }
}

/// In what form an answer is written.
#[derive(Clone, Copy)]
pub struct AnswerForm {
    /// The shape as which it is printed as JSON; None where it is text.
    pub shape: Option<Shape>,
}

/// The form that the words ask for.
pub fn form_of(sub: Sub, words: &Words) -> AnswerForm
    ensures { result.shape ≡ asked_shape sub words.now }
{
    let shape = if words.json {
        shape_of(sub, words)
    } else {
        None
    };
    AnswerForm { shape }
}

/// A text as it is, or as its JSON where there is a shape.
fn shaped(alloc: Global, shape: Option<Shape>, text: String) -> Result<String, AllocError>
    ensures { IfOk result (λ formed. string_bytes formed ≡ shaped shape (string_bytes text)) }
{
    match shape {
        None => Ok(text),
        Some(shape) => as_json(alloc, shape, text.as_bytes()),
    }
}

/// The JSON of a text. It is refused where a growth of the JSON was.
fn as_json(alloc: Global, shape: Shape, text: &[u8]) -> Result<String, AllocError>
    ensures { IfOk result (λ json. string_bytes json ≡ json_text shape (lines text.now)) }
{
    match json_of(alloc, shape, text) {
        Ok(json) => Ok(json),
        Err(refusal) => Err(refusal.error()),
    }
}

/// The JSON of the text of a plan, which is built for that.
fn plan_json(alloc: Global, shape: Shape, text: PlanText) -> Result<String, AllocError>
    ensures { IfOk result (λ json. string_bytes json ≡ json_text shape (lines text)) }
{
    let mut whole = Vec::new(alloc);
    if !text.write(&mut whole) {
        return Err(AllocError);
    }
    as_json(alloc, shape, whole.as_slice())
}

/// Writes a text, or its JSON, and answers whether all of it was taken.
pub fn put_text<W: Writer>(
    alloc: Global,
    shape: Option<Shape>,
    text: String,
    output: &mut W,
) -> Result<bool, AllocError>
    ensures { IsTextPut (shaped shape (string_bytes text)) result
        (Sends W.contents W.wrote W.settled output.old output.new) (output.new ≡ output.old) }
{
    let formed = shaped(alloc, shape, text)?;
    Ok(write_text(output, formed.as_bytes()))
}

/// Writes bytes, or the JSON of their lines, and answers whether all of it was taken.
pub fn put_bytes<W: Writer>(
    alloc: Global,
    shape: Option<Shape>,
    bytes: &[u8],
    output: &mut W,
) -> Result<bool, AllocError>
    ensures { IsTextPut (shaped shape bytes.now) result
        (Sends W.contents W.wrote W.settled output.old output.new) (output.new ≡ output.old) }
{
    match shape {
        None => Ok(write_text(output, bytes)),
        Some(shape) => {
            let json = as_json(alloc, shape, bytes)?;
            Ok(write_text(output, json.as_bytes()))
        }
    }
}

/// Writes the line of a notice, or its JSON, and answers whether all of it was taken.
pub fn put_notice<W: Writer>(
    alloc: Global,
    shape: Option<Shape>,
    notice: Notice,
    output: &mut W,
) -> Result<bool, AllocError>
    ensures { IsTextPut (shaped shape (notice_line notice)) result
        (Sends W.contents W.wrote W.settled output.old output.new) (output.new ≡ output.old) }
{
    let line = notice_line(alloc, notice)?;
    put_text(alloc, shape, line, output)
}

/// Writes the text of a plan as a crew makes it, or its JSON, and answers whether all of it was taken.
pub fn put_plan<C: Crew, W: Writer>(
    crew: &C,
    alloc: Global,
    form: AnswerForm,
    text: PlanText,
    output: &mut W,
) -> Result<bool, AllocError>
    ensures { IsTextPut (shaped form.shape text) result
        (Sends W.contents W.wrote W.settled output.old output.new) (output.new ≡ output.old) }
{
    match form.shape {
        None => Ok(text.write_by(crew, alloc, output)),
        Some(shape) => {
            let json = plan_json(alloc, shape, text)?;
            Ok(write_text(output, json.as_bytes()))
        }
    }
}
