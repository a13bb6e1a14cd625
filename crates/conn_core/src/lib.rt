//! The host's side of a connection: a client's stream, from its first byte on and in any pieces, is answered and told step by step
//! ([MS-RDPBCGR] 1.3.1.1).
//!
//! What it is answered and told stands in the definitions of `conn_rules`.
#![tactic(auto)]

mod conn;
mod conn_fault;
mod connecting;
mod deeds;
mod domain;
mod fault;
mod found;
mod hear;
mod news;
mod packets;
mod refusals;
mod replies;
mod shares;
mod talk;

pub use conn::Conn;
pub use conn_fault::ConnFault;
pub use conn_rules::ConnStep;
pub use wire_num::OutOfMemory;
