//! Reading all of the inputs.
ghost use Rattle.std.specs.Prelude.{◌≡◌, length, IfOk, IfErr};
ghost use Rattle.ir_cli.specs.Reading.{texts_of, AreRead, IsUnread};

use ir_streams::{NoInput, Reader, read_text};
use std::alloc::Global;

/// Which input is read: the one for several texts, or that of one text.
#[derive(Clone, Copy, Debug, PartialEq, Eq)]
pub enum Source {
    Input,
    Topology,
    /// The new topology.
    New,
    Script,
    Trace,
    Numbering,
}

/// The first input that was not read, and why.
#[derive(Clone, Copy, Debug, PartialEq, Eq)]
pub struct Unread {
    pub source: Source,
    pub why: NoInput,
}

/// All that the readers of these sources give, in order.
pub fn read_inputs<R: Reader>(
    alloc: Global,
    sources: &[Source],
    inputs: &mut [R],
) -> Result<Vec<Vec<u8>>, Unread>
    requires { length inputs.old ≡ length sources.now }
    ensures count { IfOk result (λ read. length read.items ≡ length sources.now) }
    ensures read { IfOk result (λ read. AreRead R.remaining R.gave inputs.old (texts_of read.items) inputs.new) }
    ensures unread { IfErr result (λ e. IsUnread R.remaining R.gave sources.now inputs.old inputs.new e.source e.why) }
{
    let mut read = Vec::new(alloc);
    for i in 0..inputs.len() {
        let source = sources[i];
        let text = match read_text(alloc, &mut inputs[i]) {
            Ok(text) => text,
            Err(why) => return Err(Unread { source, why }),
        };
        let Ok(()) = read.push(text) else {
            let why = NoInput::NoMemory;
            return Err(Unread { source, why });
        };
    }
    Ok(read)
}
