//! Traces: a line for each packet of a run, written, read and checked against what each epoch was
//! installed with; and where a row leaves the walks of its epochs.
//!
//! The first line is `trace 1` or `trace 2`. In `trace 1` each further line is one packet, as `ID EPOCH SOURCE DEST
//! WEIGHT FATE HOPS`. In `trace 2` it is `ID SOURCE DEST WEIGHT FATE`, and then `#EPOCH HOPS` for each segment of the
//! packet's way. Words have single spaces between, numbers are in decimal without leading zeros. FATE is `delivered`,
//! `retired`, `down X Y`, `full X Y` or `left`. Each line ends with a line feed.
#![tactic(auto)]

mod checking;
mod departing;
mod finding;
pub mod judging;
mod laws;
mod library;
mod reading;
mod resolve;
mod row;
pub mod text;
mod words;
mod writing;

pub use checking::{check_trace_by, check_trace_over};
pub use departing::{Departure, departure_by, first_departure};
pub use finding::{Finding, FindingKind};
pub use laws::{check_is_determined, departure_is_determined, plans_of_installs_route_alike};
pub use library::{Outlet, TraceError, check_trace, write_trace, write_trace_2};
pub use reading::{Trace, read_trace};
pub use row::{RowFate, Segment, TraceRow, Version};
pub use writing::{trace_text, trace_text_2};

/// The greatest number that a row may hold.
pub const MAX_NUMBER: usize = 4_294_967_295;

/// The most segments of a row.
pub const MAX_SEGMENTS: usize = 4;
