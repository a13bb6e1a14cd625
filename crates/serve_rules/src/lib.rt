//! What serving a viewer comes to, as definitions: its turns at the session's lock, the events and the frames of its two sides, how a
//! connection ends, and the laws by which these statements join (profile).
//!
//! docs/threads.md tells it in sentences. The definitions stand in specs/.
#![tactic(auto)]

mod ends;
pub mod laws;
mod noted;
mod places;

pub use ends::{ConnEnd, SideEnd};
pub use noted::{ConnReport, Noted};
pub use places::Places;
pub use wire_num::OutOfMemory;
