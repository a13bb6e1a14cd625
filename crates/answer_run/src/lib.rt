//! A host that serves one client: its stream is answered, and it is shown in frames what its own session comes to ([MS-RDPBCGR] 1.3.1.1;
//! the session is a profile).
#![tactic(auto)]

mod answer;
mod ending;
mod fault;
mod heard;
mod host;
mod put;
mod serving;
mod solo;
mod visitor;

pub use answer::run_answer;
pub use ending::Ending;
pub use fault::AnswerFault;
