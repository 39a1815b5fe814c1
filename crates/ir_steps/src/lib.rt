//! The steps of a run as a text: a line for each event that a script's commands come to, with the reply of the world.
//!
//! The first line is `steps 1`. Each further line is `LINE EVENT REPLY`: the number of the script's line, the event
//! in the words of a script, and what it came to. `inject A B` has the number of the packet and the epoch that it is
//! stamped with, `take` the number of the packet, and `install KIND R` the epoch. `act N` has the number of the
//! packet, the epoch of its stamp after it, and then `sent M`, `delivered`, `retired`, `down X Y` or `full X Y`. A
//! refused event is `LINE refused NAME EVENT`. A drain is the lines of what the nodes do in it. There a node that
//! reads the version that it read last has no line.
#![tactic(auto)]

mod drain;
mod line;
mod names;
mod run;

pub use run::{ToldRun, tell_run, tell_run_by};
