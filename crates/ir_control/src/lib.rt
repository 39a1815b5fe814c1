//! A running net: its channels and parts, the injector, the controller, and the report at the end.
//! Also a live run of it, in which each node turns on a thread of its own while commands are
//! carried out.
#![tactic(auto)]

mod carrying;
mod channels;
mod controller;
mod injector;
mod laws;
mod leaving;
mod library;
mod live;
mod net;
mod outcomes;
mod placing;
mod report;
mod reporting;
mod running;
mod starter;
mod working;

pub use controller::Controller;
pub use injector::{Accepted, Injector};
pub use ir_core::Command;
pub use laws::{live_drops_for_used_links, report_is_determined};
pub use live::{Live, LiveError};
pub use net::{Net, Parts};
pub use report::{FinishError, Report};
pub use reporting::finish;
pub use running::run_live;
pub use starter::Starter;
