//! Nodes that turn on threads of their own, and the parcels that they pass on.
//!
//! A parcel carries a packet's record with the stamp of its epoch. A node takes parcels from its inbox and its ports,
//! reads the board, and does with each what the packet core's verdict says: it sends the parcel on, or settles it.
#![tactic(auto)]

mod bells;
mod entrances;
mod library;
mod node;
mod parcel;
mod passing;
mod serving;

pub use bells::Bells;
pub use library::serve;
pub use node::{Common, Ends, Node, Turn};
pub use parcel::{Outcome, Parcel, Place};
pub use serving::{ComesBack, Flag, Gate, NoMemory, serve_with_bells};
