//! Texts whose lines name nodes of a graph, and what is wrong with them. They are scripts, of which
//! each line is a step of a simulation or a command of a live run, and orders of the nodes.
//!
//! `specs/Command` says what a line of a script means, `specs/Script` what a whole script says, and
//! `specs/Order` what an order says.
#![tactic(auto)]

mod command;
mod fault;
mod library;
mod order;
mod order_fault;
mod script;
mod word;

pub use fault::{ScriptError, ScriptFault};
pub use ir_core::{Command, Step};
pub use library::parse_live;
pub use order::read_order;
pub use order_fault::{OrderFault, OrderFaultKind};
pub use script::{Script, ScriptItem, parse, parse_script};

/// The most digits of a number.
pub const MAX_DIGITS: usize = 5;

/// The greatest number: of an epoch, or of a version of the board.
pub const MAX_NUMBER: u32 = 65_535;
