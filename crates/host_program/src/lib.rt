//! The session host but for its `main`: its words, its modes and their statuses.
#![tactic(auto)]

mod answering;
mod ending;
mod entry;
mod guests;
mod host;
mod hosting;
mod links;
mod loading;
mod mode;
mod recording;
mod serving;
mod size;

pub use answer_run::{AnswerFault, run_answer};
pub use demo_run::run_demo;
pub use ending::Ending;
pub use entry::run_host;
pub use host::top;
pub use script_run::{ScriptFault, run_script};
