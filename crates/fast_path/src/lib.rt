//! Packets of the fast path ([MS-RDPBCGR] 2.2.8.1.2 and 2.2.9.1.2): what stands at the head of a stream, a client's events, read, and an
//! update of the host, written.
#![tactic(auto)]

mod events;
mod head;
mod one_event;
mod stream_laws;
mod update;

pub use events::read_fast;
pub use head::{is_fast, lacking_in_stream, next_fast, next_in_stream};
pub use stream_laws::{
    fast_packets_are_whole, heads_of_mixed_streams, mixed_streams_in_any_pieces,
};
pub use update::{put_fast_headers, write_fast};
