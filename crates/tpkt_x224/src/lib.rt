//! TPKT packets and the X.224 headers in them (RFC 1006, section 6; X.224, 13.3, 13.4 and 13.7).
#![tactic(auto)]

mod bad_tpdu;
mod confirm;
mod data;
mod laws;
mod pieces;
mod request;
mod tpkt;

pub use bad_tpdu::BadTpdu;
pub use confirm::write_confirm;
pub use data::data_header;
pub use laws::packets_are_read_exactly;
pub use pieces::{heads_of_streams, packets_in_any_pieces};
pub use request::{Request, read_request};
pub use tpkt::{Packet, lacking, next_packet};
