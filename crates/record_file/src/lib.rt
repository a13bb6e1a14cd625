//! A session's record (profile): written entry by entry, and replayed from its bytes in any pieces.
#![tactic(auto)]

mod course;
mod drawing;
mod gathered;
pub mod laws;
mod name;
mod play;
mod playing;
mod put;
mod read_entry;
mod read_fault;
mod read_field;
mod read_head;
mod read_shape;
mod reading;
mod replay;
mod replay_fault;
mod resumed;
mod told;
mod write;

pub use replay::Replay;
pub use replay_fault::ReplayFault;
pub use resumed::Resumed;
pub use session_core::{Entry, Invite};
pub use wire_num::OutOfMemory;
pub use write::{write_entry, write_head};
