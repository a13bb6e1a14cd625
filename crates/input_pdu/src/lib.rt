//! The input events of a client, and its slow-path input PDU ([MS-RDPBCGR] 2.2.8.1.1.3).
#![tactic(auto)]

mod event;
mod events;
mod input_fault;
mod one_event;

pub use event::Event;
pub use events::read_events;
pub use input_fault::InputFault;
