//! TPKT packets (RFC 1006, section 6).
//!
//! | offset | size | field | value |
//! |---|---|---|---|
//! | 0 | 1 | version | `03` |
//! | 1 | 1 | reserved | written `00`, not read |
//! | 2 | 2 | packet length | big-endian, of the whole packet, at least 7 |
//! | 4 | | TPDU | |

ghost use Rattle.std.specs.Prelude.{◌≡◌, ◌<◌, ◌+◌, ◌^◌, length};
ghost use Rattle.tpkt_x224.specs.Tpkt.{packet_at, packet_of_length, wanted_length};
ghost use Rattle.tpkt_x224.specs.declared.tpkt.Packet.TheVariants.{Part};

/// The first byte of a packet.
const VERSION: u8 = 3;
/// The bytes of a TPKT header.
const HEADER_SIZE: usize = 4;
/// The bytes of the least packet: the header and an X.224 header.
const LEAST_PACKET: usize = 7;

/// What stands at the head of a stream.
#[derive(Clone, Copy, Debug, PartialEq, Eq)]
pub enum Packet {
    /// A whole packet of so many bytes.
    Whole(usize),
    /// A part of a packet, which may be empty, that breaks no rule so far.
    Part,
    /// The first byte isn't 3.
    NotTpkt,
    /// The packet's length is below 7.
    BadLength,
}

/// What stands at the head of a stream (RFC 1006, section 6).
pub fn next_packet(bytes: &[u8]) -> Packet
    ensures { result ≡ packet_at bytes.now }
{
    match bytes {
        [] => Packet::Part,
        [VERSION, _, high, low, carried @ ..] => {
            packet_of_length(usize::from(*high) * 256 + usize::from(*low), carried.len())
        }
        [VERSION, ..] => Packet::Part,
        _ => Packet::NotTpkt,
    }
}

/// A packet of `length` bytes, of which `carried` are there behind its header.
fn packet_of_length(length: usize, carried: usize) -> Packet
    requires { carried < 2 ^ 63 }
    ensures { result ≡ packet_of_length length carried }
{
    if length < LEAST_PACKET {
        Packet::BadLength
    } else if HEADER_SIZE + carried < length {
        Packet::Part
    } else {
        Packet::Whole(length)
    }
}

/// How many bytes the header of a packet lacks, or, behind it, the packet: with no more bytes than these no second packet begins.
#[tactic(auto, using(crate::proofs::Wanted::lacks))]
pub fn lacking(part: &[u8]) -> usize
    requires { packet_at part.now ≡ Part }
    ensures wanted { result + length part.now ≡ wanted_length part.now }
    ensures some { 0 < result }
{
    wanted_length(part) - part.len()
}

/// How many bytes there must be before more can be said: the header, and behind it the packet.
fn wanted_length(part: &[u8]) -> usize
    ensures { result ≡ wanted_length part.now }
{
    match part {
        [_, _, high, low, ..] => usize::from(*high) * 256 + usize::from(*low),
        _ => HEADER_SIZE,
    }
}
