//! A viewer in code: what a host's bytes show, by the meaning of updates and orders ([MS-RDPBCGR] 2.2.9.1.1 and [MS-RDPEGDI] 2.2.2.2.1).
#![tactic(auto)]

mod client;
mod client_fault;
mod draw;
mod meant;
mod obey;
mod parts;
mod reading;
mod saved;
mod tiles;
mod update;
mod viewer;
mod wide;

pub use client::Client;
pub use client_fault::ClientFault;
pub use wire_num::OutOfMemory;
