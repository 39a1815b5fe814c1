//! Installs of a script that its injector has not learnt.

use crate::lines::{first_word, lines_of};
use crate::sentence::{Pushed, begin_at};
use crate::texts::GivenText;
use std::alloc::Global;

static UNLEARNT: &str =
    "no 'learn' comes between this inject and the install above it: sim stamps a packet with the greatest epoch that was learnt (live learns each install by itself)\n";

/// Says so where a packet of a simulation that was played is injected after an install with no `learn` between: of the
/// first such line.
pub fn push_unlearnt(alloc: Global, text: &mut String, script: &GivenText<'_>) -> Pushed {
    let mut is_unlearnt = false;
    for (place, line) in lines_of(alloc, script.bytes, script.bytes.len())?
        .iter()
        .enumerate()
    {
        let word = first_word(line);
        if is_unlearnt && word == b"inject".as_slice() {
            begin_at(text, script, place + 1)?;
            return text.push_str(UNLEARNT);
        }
        is_unlearnt = word == b"install".as_slice()
            || word == b"renumber".as_slice()
            || (is_unlearnt && word != b"learn".as_slice());
    }
    Ok(())
}
