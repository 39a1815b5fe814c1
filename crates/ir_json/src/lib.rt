//! The texts of `route` as JSON. What a text means is said where the text is; here its lines are written again as JSON,
//! a line for each.
//!
//! A line has a form, by the shape of the text, by its place and by its words. `specs/Forms` has
//! the template of each form: the JSON of such a line, with signs in place of its words. `json_of`
//! makes the JSON of a text.
#![tactic(auto)]

mod fill;
mod form;
mod items;
mod laws;
mod shape;
mod text;
mod words;

pub use laws::string_is_read_again;
pub use shape::Shape;
pub use text::json_of;
