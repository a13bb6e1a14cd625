//! The share PDUs ([MS-RDPBCGR] 2.2.8.1.1.1): a client's, read; the host's data, written; and the packet of an update (2.2.9.1.1), as
//! it is written and read.
#![tactic(auto)]

mod bodies;
mod client_pdu;
mod data;
mod finals;
mod headers;
mod kinds;
mod laws;
mod packet_headers;
mod refresh;
mod share_fault;
mod share_laws;

pub use client_pdu::{ClientPdu, read_share};
pub use data::write_data;
pub use finals::{Final, write_final};
pub use headers::data_headers;
pub use laws::share_is_read_from_its_bytes;
pub use packet_headers::put_packet_headers;
pub use refresh::{find_areas, read_area, read_areas};
pub use share_fault::ShareFault;
pub use share_laws::{areas_are_read_exactly, share_pdus_are_read_exactly};
pub use wire_num::OutOfMemory;
