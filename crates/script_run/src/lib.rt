//! Scripts, run line by line: the session, what is kept of each viewer, the answer of one step after the other, and what the lines write, which is
//! held back, and written before more of the script is read (profile).
#![tactic(auto)]

mod answer;
mod course;
mod fault;
mod found;
mod host;
mod hosting;
mod line;
mod lines;
mod opening;
mod page;
mod run;
mod running;
mod script;
mod seats;
mod text;

pub use answer::StepAnswer;
pub use course::Course;
pub use fault::ScriptFault;
pub use found::put;
pub use hosting::ScriptHost;
pub use run::run_course;
pub use script::run_script;
pub use wire_num::OutOfMemory;
