//! The whole packet, of either kind, with which bytes begin, by its length alone.
//!
//! | offset | size | field | value |
//! |---|---|---|---|
//! | 0 | 1 | version | `03`; `00` begins a packet of the fast path |
//! | 2 | 2 | length, the highest byte first | of the packet, at least 7 |
//! | 1 | 1 or 2 | length of the fast path | of the packet: in one byte below 128, or in two, the highest first, with the top bit set; at least its own bytes and the one before |

ghost use Rattle.std.specs.Prelude.{◌≡◌, ◌≤◌, ◌<◌, take, length, IfSome};
ghost use Rattle.update_read.specs.Wholes.{whole_size, fast_size, size_if_there, IsWholePacket};

use crate::fast::fast_length;
use crate::judge::FAST;
use tpkt_x224::{Packet, next_packet};

/// How many bytes the packet has with which these begin, where it is whole; else 0.
#[tactic(auto, using(crate::proofs::WholePieces::size_most))]
pub(crate) fn whole_size(bytes: &[u8]) -> usize
    ensures value { result ≡ whole_size bytes.now }
    ensures most { result ≤ length bytes.now }
    ensures whole { 0 < result → IsWholePacket (take result bytes.now) }
{
    match next_packet(bytes) {
        Packet::Whole(size) => size,
        Packet::NotTpkt => fast_size(bytes),
        Packet::Part | Packet::BadLength => 0,
    }
}

/// The same of a packet of the fast path.
fn fast_size(bytes: &[u8]) -> usize
    ensures { result ≡ fast_size bytes.now }
{
    if bytes.is_empty() || bytes[0] != FAST {
        return 0;
    }
    match fast_length(bytes) {
        Some((head, size)) => size_if_there(head, size, bytes.len()),
        None => 0,
    }
}

/// A packet's size by its header, where it is no smaller than that and all there; else 0.
fn size_if_there(head: usize, size: usize, count: usize) -> usize
    ensures { result ≡ size_if_there head size count }
{
    if head <= size && size <= count {
        size
    } else {
        0
    }
}
