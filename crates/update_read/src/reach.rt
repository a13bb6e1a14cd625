//! How far a packet has come, of either kind: packets are cut by their lengths alone.
//!
//! | offset | size | field | value |
//! |---|---|---|---|
//! | 0 | 1 | version | `03`; `00` begins a packet of the fast path |
//! | 2 | 2 | length, the highest byte first | of the packet, at least 7 |
//! | 1 | 1 or 2 | length of the fast path | of the packet: in one byte below 128, or in two, the highest first, with the top bit set; at least its own bytes and the one before |

ghost use Rattle.std.specs.Prelude.{◌≡◌, ◌≤◌, ◌<◌, ◌-◌, ◌∷◌, ◌++◌, [], ℕ, List, nat_le, length};
ghost use Rattle.order_means.specs.Updates.{turned};
ghost use Rattle.order_means.specs.Packets.{first_piece, piece_begun_if, pieces_by};
ghost use Rattle.update_read.specs.declared.reach.Reach.TheVariants.{Head, Fast, Inside};
ghost use Rattle.update_read.specs.Sieves.{packet_stage, IsHeld, Comes};

use crate::fast::fast_length;
use crate::judge::{FAST, HEADER_SIZE, LEAST_LENGTH, VERSION, length_of};

/// How far a packet has come.
#[derive(Clone, Copy)]
pub enum Reach {
    /// None has begun.
    Between,
    /// One has, with a header of four bytes that isn't all there.
    Head,
    /// One of the fast path has, whose header isn't all there.
    Fast,
    /// So many of its bytes are missing after the next one.
    Inside { missing: usize },
    /// No packet can be cut any more: each byte stands by itself.
    Passing,
}

/// How far a packet has come with one more byte, the last of these that are held; where none has begun behind it, they are a piece.
pub(crate) fn next_reach(reach: Reach, held: &[u8]) -> Reach
    requires { 0 < length held.now }
    ensures { (front : List ℕ) (b : ℕ) → held.now ≡ front ++ b ∷ [] → IsHeld reach front → Comes (pieces_by (packet_stage reach front) b) result held.now }
{
    match reach {
        Reach::Between => first_reach(held[0]),
        Reach::Head => head_reach(held),
        Reach::Fast => fast_reach(held),
        Reach::Inside { missing } => inside_reach(missing),
        Reach::Passing => Reach::Passing,
    }
}

/// The same of a first byte.
fn first_reach(first: u8) -> Reach
    ensures { Comes (first_piece first) result (first ∷ []) }
{
    match first {
        VERSION => Reach::Head,
        FAST => Reach::Fast,
        _ => Reach::Passing,
    }
}

/// The same of a header of four bytes.
fn head_reach(held: &[u8]) -> Reach
    ensures { (front : List ℕ) (b : ℕ) → held.now ≡ front ++ b ∷ [] → IsHeld Head front → Comes (pieces_by (packet_stage Head front) b) result held.now }
{
    if held.len() < HEADER_SIZE {
        return Reach::Head;
    }
    counted_reach(length_of(held[2], held[3]), LEAST_LENGTH, HEADER_SIZE)
}

/// The same of a header of the fast path.
fn fast_reach(held: &[u8]) -> Reach
    ensures { (front : List ℕ) (b : ℕ) → held.now ≡ front ++ b ∷ [] → IsHeld Fast front → Comes (pieces_by (packet_stage Fast front) b) result held.now }
{
    match fast_length(held) {
        Some((head, size)) => counted_reach(size, head, head),
        None => Reach::Fast,
    }
}

/// The same of a header that is all there, by the packet's size, the least one, and the header's own.
fn counted_reach(size: usize, least: usize, head: usize) -> Reach
    requires fits { head ≤ least }
    requires most { size ≤ 65535 }
    ensures { (held : List ℕ) → length held ≡ head → Comes (piece_begun_if (nat_le least size) (size - head) (turned held [])) result held }
{
    if size < least {
        Reach::Passing
    } else if size == head {
        Reach::Between
    } else {
        Reach::Inside {
            missing: size - head - 1,
        }
    }
}

/// The same of what is behind the header.
fn inside_reach(missing: usize) -> Reach
    ensures { (front : List ℕ) (b : ℕ) → IsHeld (Inside missing) front → Comes (pieces_by (packet_stage (Inside missing) front) b) result (front ++ b ∷ []) }
{
    if missing == 0 {
        Reach::Between
    } else {
        Reach::Inside {
            missing: missing - 1,
        }
    }
}
