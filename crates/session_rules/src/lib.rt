//! The rules of a session (profile): the board, the journal, who holds control, and what every step is answered.
//!
//! The types of input events are those of [MS-RDPBCGR] 2.2.8.1.1.3.1.1; everything else here is this project's own.
#![tactic(auto)]

pub mod board_laws;
mod entry;
pub mod laws;
pub mod session_laws;

pub use entry::{Entry, Role};
pub use input_pdu::Event;
