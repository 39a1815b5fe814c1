//! The pure core of the network: events and their replies, commands of a live run, boards, the records of packets, and
//! runs of events.
//!
//! A history is a list of accepted events, each with what came of it. `specs/` defines what holds after a history
//! and what each event comes to; `World` keeps it, `apply` does one event, `drain` a whole drain, and `play` a list.
#![tactic(auto)]

mod board;
mod built;
mod command;
mod drain;
mod event;
mod laws;
mod marks;
mod opening;
mod packet;
mod planning;
mod queue;
mod run;
mod verdict;
mod world;

pub use board::{Board, KeptBoard};
pub use built::{Install, installs, installs_by, installs_with_plans_by};
pub use command::Command;
pub use event::{Action, Event, OpenError, Refused, Reply, Ruling, Step, Verdict, Way};
pub use ir_model::{Hop, Kind};
pub use laws::{
    drops_for_used_links, epochs_of_installs, made_plan_is_determined, ways_over_lacking_rows,
    without_restamps,
};
pub use opening::{Opening, open_refusal};
pub use packet::{Fate, Held, Record, Restamp, hop_room};
pub use planning::{Draft, kept_order, plan_over_by, plan_up_by};
pub use run::{Played, play, play_by};
pub use verdict::{decide, judge};
pub use world::World;

/// The most nodes of a network.
pub const MAX_NODES: usize = 1_024;

/// The most links of a network.
pub const MAX_LINKS: usize = 8_192;

/// The most restamps of a packet that a network may allow.
pub const MAX_RESTAMPS: usize = 3;

/// The most packets that a channel or an inbox holds.
pub const MAX_CAPACITY: usize = 1_024;

/// The most packets of a run.
pub const MAX_PACKETS: usize = 4_096;

/// The most epochs, with the first.
pub const MAX_EPOCHS: usize = 64;

/// The most changes of a board.
pub const MAX_CHANGES: u32 = 65_535;
