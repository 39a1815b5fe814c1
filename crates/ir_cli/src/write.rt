//! Telling of a fault.
ghost use Rattle.ir_cli.specs.Told.{Tells};

use ir_streams::{Writer, write_text};

/// Reports a fault. A writer that fails is passed over.
pub fn tell<W: Writer>(faults: &mut W, text: &[u8])
    ensures { Tells W.contents W.wrote W.settled faults.old faults.new text.now }
{
    let _told = write_text(faults, text);
}
