//! The head of a fast-path packet, and of a stream in which packets of both kinds come ([MS-RDPBCGR] 2.2.8.1.2 and 2.2.9.1.2).
//!
//! | offset | size | field | value |
//! |---|---|---|---|
//! | 0 | 1 | action and flags | action 0 in the low two bits |
//! | 1 | 1 or 2 | length | of the whole packet: one byte below 128, or two, the highest first, with the top bit set |
//! | | | events or updates | to the packet's end |

ghost use Rattle.std.specs.Prelude.{◌≡◌, ◌<◌, ◌^◌, ◌+◌, length};
ghost use Rattle.tpkt_x224.specs.declared.tpkt.Packet.TheVariants.{NotTpkt, Part};
ghost use Rattle.fast_path.specs.Heads.{fast_packet_at, packet_of_size, BeginsFast, is_fast, stream_packet_at, wanted_long, wanted_fast, wanted_in_stream};

use tpkt_x224::{Packet, lacking, next_packet};

/// The first byte of a TPKT packet.
const TPKT_VERSION: u8 = 3;

/// The bits of the first byte that say its action, and that of the fast path.
const ACTION_BITS: u8 = 4;

const FAST: u8 = 0;

/// The greatest length of one byte, and the top bit that marks one of two.
const MOST_SHORT: u8 = 0x7F;

const LONG: u8 = 0x80;
/// The bytes of the header and a length of one byte, or of two.
const SHORT_SIZE: usize = 2;

const LONG_SIZE: usize = 3;

/// What stands at the head of a stream whose first byte is a fast-path packet's. A length below the bytes of the header and itself is
/// `BadLength` as soon as its bytes are there.
pub fn next_fast(bytes: &[u8]) -> Packet
    requires { BeginsFast bytes.now }
    ensures packet { result ≡ fast_packet_at bytes.now }
    ensures fast { result ≡ NotTpkt → ⊥ }
{
    match bytes {
        [_, short @ 0..=MOST_SHORT, carried @ ..] => {
            packet_of_size(SHORT_SIZE, usize::from(*short), SHORT_SIZE + carried.len())
        }
        [_, high, low, carried @ ..] => packet_of_size(
            LONG_SIZE,
            usize::from(*high - LONG) * 256 + usize::from(*low),
            LONG_SIZE + carried.len(),
        ),
        _ => Packet::Part,
    }
}

/// A packet of `length` bytes, of which the header and the length have so many, and so many are there.
fn packet_of_size(least: usize, length: usize, there: usize) -> Packet
    ensures { result ≡ packet_of_size least length there }
{
    if length < least {
        Packet::BadLength
    } else if there < length {
        Packet::Part
    } else {
        Packet::Whole(length)
    }
}

/// Whether there is a first byte that is a fast-path packet's.
pub fn is_fast(bytes: &[u8]) -> bool
    ensures { result ≡ is_fast bytes.now }
{
    match bytes {
        [] => false,
        [first, ..] => *first % ACTION_BITS == FAST,
    }
}

/// What stands at the head of a stream in which packets of both kinds come: `NotTpkt` where the first byte is of neither.
pub fn next_in_stream(bytes: &[u8]) -> Packet
    ensures { result ≡ stream_packet_at bytes.now }
{
    match bytes {
        [] => Packet::Part,
        [TPKT_VERSION, ..] => next_packet(bytes),
        [first, ..] => {
            if *first % ACTION_BITS == FAST {
                next_fast(bytes)
            } else {
                Packet::NotTpkt
            }
        }
    }
}

/// How many bytes of such a stream must come before more can be said of its head: with no more bytes than these no second packet begins.
#[tactic(auto, using(crate::proofs::Lacking::lacks, crate::proofs::Lacking::wanted_by_fast))]
pub fn lacking_in_stream(part: &[u8]) -> usize
    requires { stream_packet_at part.now ≡ Part }
    ensures wanted { result + length part.now ≡ wanted_in_stream part.now }
    ensures some { 0 < result }
{
    match part {
        [] => SHORT_SIZE,
        [TPKT_VERSION, ..] => lacking(part),
        [_, behind @ ..] => wanted_fast(behind) - part.len(),
    }
}

/// How many bytes there must be before more can be said of a fast-path packet, behind its first byte.
fn wanted_fast(behind: &[u8]) -> usize
    ensures { result ≡ wanted_fast behind.now }
{
    match behind {
        [] => SHORT_SIZE,
        [short @ 0..=MOST_SHORT, ..] => usize::from(*short),
        [high, low, ..] => usize::from(*high - LONG) * 256 + usize::from(*low),
        [_] => LONG_SIZE,
    }
}
