//! Writing what the inputs come to: values become texts here.
ghost use Rattle.std.specs.Prelude.{◌≡◌, None, Ok};
ghost use Rattle.ir_cli.specs.declared.ending.Ending.TheVariants as endings;
ghost use Rattle.ir_cli.specs.declared.outcome.Told.TheVariants.{Steps};
ghost use Rattle.ir_cli.specs.{Lines.out_of_memory_line, Notices.{told_text, ShowsFound}, Told.{Sends, Tells}};
ghost use Rattle.ir_answer.specs.{Formed.{in_shape, EndsPut}, Runs.{written_of, GivenAs}};

use crate::asking::AnswerStop;
use crate::forming::{AnswerForm, put_bytes, put_notice, put_plan, put_text};
use ir_cli::{
    Ending, Notice, RunOutcome, RunReply, Told, notice_line, steps_text, tell, tell_fault,
};
use ir_core::Refused;
use ir_plan::Crew;
use ir_streams::Writer;
use std::alloc::{AllocError, Global};

/// Reports that memory was refused.
fn out_of_memory<F: Writer>(faults: &mut F) -> RunOutcome
    ensures ending { result.ending ≡ endings.NoMemory }
    ensures line { Tells F.contents F.wrote F.settled faults.old faults.new out_of_memory_line }
    ensures told { Tells F.contents F.wrote F.settled faults.old faults.new (told_text result.told) }
    ensures found { result.found ≡ None }
{
    let line = "out of memory\n";
    tell_fault(faults, Ending::NoMemory, Notice::NoMemory, line)
}

/// What a run came to whose output is whole.
fn whole(ending: Ending, steps: Vec<(usize, Refused)>, found: Option<Notice>) -> RunOutcome
    ensures ending { result.ending ≡ ending }
    ensures told { result.told ≡ Steps steps }
    ensures found { result.found ≡ found }
{
    RunOutcome {
        ending,
        told: Told::Steps(steps),
        found,
    }
}

/// Ends a run after its output: as reported, with these lines of faults, where all of it was taken.
fn ended<F: Writer>(
    put: Result<bool, AllocError>,
    lines: &[u8],
    told: RunOutcome,
    faults: &mut F,
) -> RunOutcome
    ensures { EndsPut put told lines.now result (Tells F.contents F.wrote F.settled faults.old faults.new) }
{
    match put {
        Ok(true) => {
            tell(faults, lines);
            told
        }
        Ok(false) => {
            let line = "output unwritable\n";
            tell_fault(faults, Ending::Unwritable, Notice::Unwritable, line)
        }
        Err(_) => out_of_memory(faults),
    }
}

/// Writes what the inputs come to; a crew makes the lines of a plan's text.
fn write_reply<C: Crew, W: Writer, F: Writer>(
    crew: &C,
    alloc: Global,
    form: AnswerForm,
    reply: RunReply,
    output: &mut W,
    faults: &mut F,
) -> RunOutcome
    ensures ends { GivenAs (in_shape form.shape) (Ok reply) result.ending
        (written_of W.Writer F.Writer output.old output.new faults.old faults.new) }
    ensures told { Tells F.contents F.wrote F.settled faults.old faults.new (told_text result.told) }
    ensures found { ShowsFound (in_shape form.shape) result.found result.ending
        (Sends W.contents W.wrote W.settled output.old output.new) }
{
    match reply {
        RunReply::Ran(text, steps) => {
            let Ok(lines) = steps_text(alloc, steps.as_slice()) else {
                return out_of_memory(faults);
            };
            let put = put_text(alloc, form.shape, text, output);
            let told = whole(Ending::Done, steps, None);
            ended(put, lines.as_bytes(), told, faults)
        }
        RunReply::Bytes(bytes) => {
            let put = put_bytes(alloc, form.shape, bytes.as_slice(), output);
            let told = whole(Ending::Done, Vec::new(alloc), None);
            ended(put, b"", told, faults)
        }
        RunReply::Plan(text) => {
            let put = put_plan(crew, alloc, form, text, output);
            let told = whole(Ending::Done, Vec::new(alloc), None);
            ended(put, b"", told, faults)
        }
        RunReply::Sound(rows) => {
            let put = put_notice(alloc, form.shape, Notice::Sound(rows), output);
            let told = whole(Ending::Done, Vec::new(alloc), Some(Notice::Sound(rows)));
            ended(put, b"", told, faults)
        }
        RunReply::Found(notice) => {
            let put = put_notice(alloc, form.shape, notice, output);
            let told = whole(Ending::Found, Vec::new(alloc), Some(notice));
            ended(put, b"", told, faults)
        }
        RunReply::NoThread => {
            tell_fault(faults, Ending::NoThread, Notice::NoThread, "no thread\n")
        }
    }
}

/// Writes what the inputs come to, in a form, or the line that says why that is nothing. A crew makes the lines of a
/// plan's text.
pub fn write_given<C: Crew, W: Writer, F: Writer>(
    crew: &C,
    alloc: Global,
    form: AnswerForm,
    given: Result<RunReply, AnswerStop>,
    output: &mut W,
    faults: &mut F,
) -> RunOutcome
    ensures ends { GivenAs (in_shape form.shape) given result.ending
        (written_of W.Writer F.Writer output.old output.new faults.old faults.new) }
    ensures told { Tells F.contents F.wrote F.settled faults.old faults.new (told_text result.told) }
    ensures found { ShowsFound (in_shape form.shape) result.found result.ending
        (Sends W.contents W.wrote W.settled output.old output.new) }
{
    match given {
        Ok(reply) => write_reply(crew, alloc, form, reply, output, faults),
        Err(AnswerStop::Refused(notice)) => match notice_line(alloc, notice) {
            Ok(line) => tell_fault(faults, Ending::Refused, notice, line.as_str()),
            Err(_) => out_of_memory(faults),
        },
        Err(AnswerStop::NoMemory) => out_of_memory(faults),
    }
}
