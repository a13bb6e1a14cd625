//! The user data of connecting: reading the client's GCC Conference Create Request, and writing the server's Response, by the
//! packed encoding rules, with their data blocks (T.124, 8.7; X.691; MS-RDPBCGR, 2.2.1.3 and 2.2.1.4).
#![tactic(auto)]

mod client_blocks;
mod client_core;
mod client_data;
mod client_network;
mod gcc_fault;
mod server_core;
mod server_data;
mod server_network;
mod server_security;

pub use client_data::{ClientData, read_client, requests_are_read_exactly};
pub use gcc_fault::GccFault;
pub use server_data::write_server;
