//! The registry of plans by epoch, and the board that one thread changes and many read without a lock.
//!
//! The registry has a cell for each epoch, which is set at most once. A `Stamp` is an epoch with what shows its plan
//! for good: two stamps of one epoch know one plan. No call of the registry waits.
//!
//! The board is the one of the packet core, with one writer. Contracts see it as a list of entries, the opening and
//! then each change: `change` adds one entry, `read` gives the board of a beginning of the list, and what a reader has
//! read or learnt never gets shorter. Beside the board readers get the stamp of its current epoch. The steps on the
//! board are of these kinds:
//!
//! - publish and tell, by the writer, with the exchange of one word that adds the entry to the list;
//! - enter and learn, by a reader;
//! - the making of the seats.
//!
//! A look has a word that the runtime's call alone gives (`Looks`), as a refused push has one of `Moments`: so no
//! reader stays with what it knows and does not look.
//!
//! No clause says that a call returns, or that a `read` finds the writer's last change.
#![tactic(auto)]

mod chronicle;
mod entry;
mod error;
mod handles;
mod known;
mod looks;
mod one_list;
mod opening;
mod published;
mod registry;
mod seats;
mod tag;

pub use entry::{Change, Entry};
pub use error::{BoardError, RegisterError};
pub use handles::{BoardReader, BoardWriter, Receipt};
pub use looks::Looks;
pub use one_list::{Follows, know_one_list};
pub use opening::board;
pub use registry::{Registry, Stamp};
