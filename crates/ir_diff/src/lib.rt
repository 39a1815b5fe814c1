//! What a node changes between two rows: the starts that go, and those that come or lead to another node.
#![tactic(auto)]

mod changes;

pub use changes::{Changes, Lead, changes_of, is_ascending};
