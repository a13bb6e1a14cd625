//! The name that a client logs on with, by the user name of its Client Info PDU, and the answer that no license is asked for
//! ([MS-RDPBCGR] 2.2.1.11 and 2.2.1.12).
#![tactic(auto)]

mod client_info;
mod info_fault;
mod licence;
mod name;

pub use client_info::{infos_are_read_exactly, read_info};
pub use info_fault::InfoFault;
pub use licence::{LICENCE, the_licence_is_valid};
pub use name::Name;
