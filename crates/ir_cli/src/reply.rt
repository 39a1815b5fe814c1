//! What the inputs come to.
ghost use Rattle.std.specs.Prelude.{◌≡◌, ◌≢◌, None};
ghost use Rattle.ir_cli.specs.{Replied.UnreadAs, Notices.{notice_line, told_text}, Told.Tells};
ghost use Rattle.ir_cli.specs.declared.ending.Ending.TheVariants as endings;

use crate::ending::Ending;
use crate::lines::{too_large_line, unreadable_line};
use crate::notice::Notice;
use crate::outcome::{RunOutcome, Told};
use crate::read::Source;
use crate::write::tell;
use ir_core::Refused;
use ir_show::plan_text::PlanText;
use ir_streams::{NoInput, Writer};

/// What the inputs come to, as values: texts are made of them where they are written.
#[derive(Drop)]
pub enum RunReply {
    /// The text for the output, and the steps that were refused, by the numbers of their lines.
    Ran(String, Vec<(usize, Refused)>),
    /// The bytes for the output, which are no text.
    Bytes(Vec<u8>),
    /// The text of a plan for the output, which is written as it is made.
    Plan(PlanText),
    /// A trace of so many rows has no finding.
    Sound(usize),
    /// The first finding of a trace.
    Found(Notice),
    /// A thread was not started.
    NoThread,
}

/// Reports that a run ended with nothing but the line of a notice.
pub fn tell_fault<F: Writer>(
    faults: &mut F,
    ending: Ending,
    notice: Notice,
    line: &str,
) -> RunOutcome
    requires { line.now ≡ notice_line notice }
    ensures ending { result.ending ≡ ending }
    ensures line { Tells F.contents F.wrote F.settled faults.old faults.new (notice_line notice) }
    ensures told { Tells F.contents F.wrote F.settled faults.old faults.new (told_text result.told) }
    ensures found { result.found ≡ None }
{
    tell(faults, line.as_bytes());
    RunOutcome {
        ending,
        told: Told::Fault(notice),
        found: None,
    }
}

/// Reports why an input was not read.
pub fn tell_unread<F: Writer>(faults: &mut F, source: Source, why: NoInput) -> RunOutcome
    ensures ends { UnreadAs source result.ending why (Tells F.contents F.wrote F.settled faults.old faults.new) }
    ensures told { Tells F.contents F.wrote F.settled faults.old faults.new (told_text result.told) }
    ensures found { result.found ≡ None }
    ensures none { result.ending ≢ endings.Found }
{
    match why {
        NoInput::Unreadable => {
            let line = unreadable_line(source);
            tell_fault(faults, Ending::Unreadable, Notice::Unreadable(source), line)
        }
        NoInput::TooLarge => {
            let line = too_large_line(source);
            tell_fault(faults, Ending::TooLarge, Notice::TooLarge(source), line)
        }
        NoInput::NoMemory => {
            let line = "out of memory\n";
            tell_fault(faults, Ending::NoMemory, Notice::NoMemory, line)
        }
    }
}
