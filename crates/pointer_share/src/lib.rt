//! The pointer that a session's viewers share: who holds control and what was typed last, as each viewer with a pointer cache is told it,
//! and what such a viewer shows ([MS-RDPBCGR] 2.2.9.1.1.4).
#![tactic(auto)]

mod desk;
mod fault;
mod laws;
mod message;
mod outline;
mod packet;
mod shape;
mod view;
mod viewers;

pub use desk::PointerDesk;
pub use fault::{DeskFault, ViewFault};
pub use laws::each_take_shows_its_pointer;
pub use view::PointerView;
pub use viewers::{desk_for, note, told_bytes};
pub use wire_num::OutOfMemory;
