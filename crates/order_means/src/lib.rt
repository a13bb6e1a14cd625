//! What a host's bytes mean: updates, secondary orders, the client that obeys them, and the pictures at the marks ([MS-RDPBCGR] 2.2.9.1.1 and 2.2.9.1.2, and
//! [MS-RDPEGDI] 2.2.2.2.1).
//!
//! The definitions stand in specs/. They know nothing of how a host chooses what it sends. Laws say how a stream is cut into packets, which of
//! them are those of Pointer PDUs, and that a viewer reads what is left without these ([RFC 1006] 6, [MS-RDPBCGR] 2.2.8.1.1.1).
#![tactic(auto)]

mod laws;
mod packet_laws;
mod piece_laws;

pub use laws::{
    order_is_read_before_others, pieces_are_read_as_joined, update_is_read_from_its_packet,
    updates_of_pieces_are_those_joined,
};
pub use packet_laws::{indications_are_read_by_their_fields, updates_are_cut_as_packets};
pub use piece_laws::{
    packets_are_pieces, pieces_of_parts_are_those_joined, pointer_packets_are_taken_out,
    pointer_packets_are_told_by_their_headers, what_is_read_has_no_pointers,
};
