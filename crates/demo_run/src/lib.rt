//! The demonstration load in code (profile): a session of sixteen viewers whose steps are drawn from a seed, run as a script's are, with a client for
//! each viewer that reads what it is sent, and the line of its counts.
#![tactic(auto)]

mod counts;
mod demo;
mod drawing;
mod line;
mod loads;
mod numbers;
mod rects;
mod run;
mod seats;
mod step_kind;
mod stepping;
mod watcher;

pub use line::demo_line;
pub use run::run_demo;
pub use script_run::ScriptFault;
pub use step_kind::StepKind;
pub use wire_num::OutOfMemory;
