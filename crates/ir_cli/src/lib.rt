//! The words of the command line, the reading of the inputs, and the lines and endings of replies.
#![tactic(auto)]

mod choices;
mod command;
mod ending;
mod faults;
mod help;
mod kinds;
mod lines;
mod notice;
mod open;
mod options;
mod outcome;
mod parting;
mod read;
mod reply;
mod typed;
mod words;
mod write;

pub use choices::DetourChoice;
pub use ending::{Ending, is_whole, status_of};
pub use help::Called;
pub use kinds::{KindChoice, compared_detours, landmarks_for};
pub use lines::{notice_line, steps_text};
pub use notice::Notice;
pub use open::{kind_asked, label_order, no_root, opening_of, read_topology, root_of};
pub use outcome::{RunOutcome, Told};
pub use parting::cut;
pub use read::{Source, Unread, read_inputs};
pub use reply::{RunReply, tell_fault, tell_unread};
pub use words::{
    Format, NumberingChoice, Second, Span, Sub, Words, WordsError, read_words, read_words_as,
};
pub use write::tell;

/// The most threads that make the rows of a plan.
pub const MAX_THREADS: u16 = 256;

/// The most landmarks that words ask for.
pub const MAX_LANDMARKS: u16 = 65_535;

/// The greatest epoch of lines, which a kernel's packet path knows by 16 bits.
pub const MAX_EPOCH: u16 = 65_535;

/// The least stretch of landmark plans, in percent of the distance, and the greatest, which is that
/// where the words name none.
pub const MIN_STRETCH: u16 = 100;

pub const MAX_STRETCH: u16 = 300;

/// The capacity of each channel and inbox where the words name none.
pub const DEFAULT_CAPACITY: &str = "16";

/// The most packets of a run where the words name none.
pub const DEFAULT_PACKETS: &str = "4096";

/// The most restamps of a packet where the words name none.
pub const DEFAULT_RESTAMPS: &str = "0";
