//! The program's shell: what `route` does over readers and writers. What it answers without threads of nodes is
//! `ir_answer`'s.
#![tactic(auto)]

mod live;
mod running;

pub use ir_answer::{
    Format, Notice, NumberingChoice, RunOutcome, Source, Sub, Words, WordsError, read_words,
    run_check, run_plan, run_sim, sources_of,
};
pub use ir_plan::{Alone, Crew, Several};
pub use ir_script::{Command, Script, ScriptError, ScriptFault, parse_live, parse_script};
pub use running::{Team, follow, run_live_text};
