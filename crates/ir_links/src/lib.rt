//! Channels between two threads: what was sent is what was taken and then what is left, in order.
//!
//! A channel is a bounded queue, first in first out, with one end that sends and one that takes. Contracts see the
//! list of all that was sent at the one end, and the list of all that was taken at the other. `join` brings the ends
//! together: the sent list is the taken list followed by what is left. That account, and that each item goes to the
//! channel's place, is a rule over the queue (`specs/Rule.antt`). The steps on it are of four kinds:
//!
//! - a push, by the sender (`send`), adds its item to the sent list;
//! - a pop, by the taker (`take`), or by what has both ends (`Remains::take`), adds the item to the taken list;
//! - a split of the first pass: once, where it is given the channel's terms, and once into the two ends (`ends`);
//! - a join of the two ends' passes (`join`).
//!
//! A push or a pop that is refused changes neither list, and `Moments` has a word for it that this
//! call of the queue alone can give. No clause says that a call returns.
#![tactic(auto)]

mod channel;
mod moments;
mod rule;

pub use channel::{Channel, Full, Remains, Sender, Taker, join, settle, settle_into};
pub use moments::Moments;
pub use rule::Bound;
