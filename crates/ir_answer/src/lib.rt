//! What `route` answers over texts, to all but `live`, and what it writes: nothing here starts a thread or waits for
//! one.
//!
//! `run_plan`, `run_sim` and `run_check` read their inputs, answer them and write the answer, over any readers and
//! writers. `follow_by` does so for every subcommand, with the rows of plans made by a crew. What is printed is text,
//! or its JSON (`ir_json`) where the words ask for that. `ir_shell`, which knows `live`, is built on what they are made
//! of.
#![tactic(auto)]

mod asking;
mod checking;
mod comparing;
mod diffing;
mod failing;
mod forming;
mod laws;
mod look;
mod play;
mod running;
mod writing;

pub use asking::{AnswerStop, Asked, opening_stop, read_asked, two_texts};
pub use forming::{AnswerForm, form_of};
pub use ir_cli::{
    Format, Notice, NumberingChoice, RunOutcome, Source, Sub, Words, WordsError, read_words,
};
pub use ir_plan::{Alone, Crew, Several};
pub use laws::{check_has_one_answer, installs_have_the_same_plans, text_is_as_it_was};
pub use play::run_text;
pub use running::{follow_by, run_check, run_plan, run_sim, sources_by, sources_of};
pub use writing::write_given;
