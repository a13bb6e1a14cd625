//! The links of a gate, each served in a thread of its own over one session behind its lock (profile).
#![tactic(auto)]

mod accepting;
mod ended;
mod finishing;
mod jobs;
mod served;
mod serving;

pub use serve_rules::ConnReport;
pub use served::{GateEnd, Met, Served};
pub use serving::{close, serve_gate, serve_lock};
pub use wire_num::OutOfMemory;
