//! What a packet is that got a further byte, and which further updates a whole one has.
//!
//! A packet with an indication ([RFC 1006] 6):
//!
//! | offset | size | field | value |
//! |---|---|---|---|
//! | 0 | 1 | version | `03`, looked at as soon as it is there |
//! | 1 | 1 | reserved | |
//! | 2 | 2 | length, the highest byte first | of the packet, at least 7, looked at as soon as it is there |
//! | 4 | | X.224 data | looked at where the packet is whole |

ghost use Rattle.std.specs.Prelude.{◌≡◌, ◌≤◌, ◌<◌, ◌+◌, ◌*◌, ◌∷◌, ◌++◌, [], ℕ, suc, Some, Bool, List, length, drop, slice_index};
ghost use Rattle.order_means.specs.Updates.{Updates, updates_by, fast_update_at, more_updates, then_updates, whole_fast};
ghost use Rattle.order_means.specs.Updates.Stage.{Between};
ghost use Rattle.update_read.specs.Cutters.{capped, fast_length, stage_of, length_in, begins_with, IsOpen, IsWhole, IsSoundBy, Tells, behind_first, pending_by};

use crate::BodyForm;
use crate::fast::{fast_length, read_fast_update};
use crate::packet::read_indication;
use crate::state::{Found, State};
use wire_num::Cursor;

/// The version of a packet, its first byte.
pub(crate) const VERSION: u8 = 3;

/// The first byte of a packet of the fast path.
pub(crate) const FAST: u8 = 0;

/// The bytes of a packet's header, and the least length that is read.
pub(crate) const HEADER_SIZE: usize = 4;

pub(crate) const LEAST_LENGTH: usize = 7;

/// The offset of the length, and of that of the fast path.
const LENGTH_OFFSET: u64 = 2;

const FAST_LENGTH_OFFSET: u64 = 1;

/// The number of two bytes, the highest first.
pub(crate) fn length_of(high: u8, low: u8) -> usize
    ensures value { result ≡ 256 * high + low }
    ensures most { result ≤ 65535 }
{
    256 * usize::from(high) + usize::from(low)
}

/// The length of a packet of either kind; 0 where it isn't all there.
#[tactic(auto, using(crate::proofs::Judged::none_in, crate::proofs::Judged::fast_in, crate::proofs::Judged::few_in, crate::proofs::Judged::slow_in))]
pub fn length_in(packet: &[u8]) -> usize
    ensures value { result ≡ length_in packet.now }
    ensures most { result ≤ 65535 }
    ensures fast { slice_index packet.now 0 ≡ 0 → result ≤ 32767 }
{
    if packet.is_empty() {
        return 0;
    }
    if packet[0] == FAST {
        return match fast_length(packet) {
            Some((_, length)) => length,
            None => 0,
        };
    }
    if packet.len() < HEADER_SIZE {
        return 0;
    }
    length_of(packet[2], packet[3])
}

/// What a packet is whose bytes are all there.
fn read_packet(start: u64, packet: &[u8]) -> State
    requires least { 5 ≤ length packet.now }
    requires whole { IsWhole packet.now }
    requires slow { slice_index packet.now 0 ≡ 0 → ⊥ }
    ensures { (fast : Bool) (s : ℕ) (front : List ℕ) (b : ℕ) → packet.now ≡ front ++ b ∷ [] → IsOpen front → start ≡ capped s
        → Tells result (updates_by fast (s + length front) (stage_of front) b) s packet.now }
{
    let mut cursor = Cursor::new(packet);
    cursor.go_to(HEADER_SIZE);
    match read_indication(&mut cursor) {
        Ok(body) => State::Update(Found {
            form: BodyForm::Slow,
            body,
            behind: packet.len(),
        }),
        Err(_) => State::Refused(start.saturating_add(cursor.at() as u64)),
    }
}

/// Whether this byte begins a packet.
pub(crate) fn begins_with(fast: bool, first: u8) -> bool
    ensures { result ≡ begins_with fast first }
{
    first == VERSION || fast && first == FAST
}

/// What a packet is with its first byte.
fn judge_first(fast: bool, start: u64, first: u8) -> State
    ensures { (s : ℕ) → start ≡ capped s → Tells result (updates_by fast s Between first) s (first ∷ []) }
{
    if begins_with(fast, first) {
        State::Open
    } else {
        State::Refused(start)
    }
}

/// What a packet with an indication is that begins at a place and got its last byte.
fn judge_slow(start: u64, packet: &[u8]) -> State
    requires some { 2 ≤ length packet.now }
    requires slow { slice_index packet.now 0 ≡ 0 → ⊥ }
    ensures told { (fast : Bool) (s : ℕ) (front : List ℕ) (b : ℕ) → packet.now ≡ front ++ b ∷ [] → IsOpen front → start ≡ capped s
        → Tells result (updates_by fast (s + length front) (stage_of front) b) s packet.now }
    ensures slow { 4 ≤ length packet.now → 256 * slice_index packet.now 2 + slice_index packet.now 3 ≤ 65535 }
{
    let count = packet.len();
    if count < HEADER_SIZE {
        return State::Open;
    }
    let length = length_of(packet[2], packet[3]);
    if count == HEADER_SIZE && length < LEAST_LENGTH {
        return State::Refused(start.saturating_add(LENGTH_OFFSET));
    }
    if count == length {
        return read_packet(start, packet);
    }
    State::Open
}

/// The next update of a packet of the fast path, which stands at an offset.
fn judge_update(start: u64, packet: &[u8], from: usize) -> State
    requires { from ≤ length packet.now }
    ensures told { (s most : ℕ) → start ≡ capped s → length (drop from packet.now) ≤ suc most
        → Tells result (then_updates (s + length packet.now) (fast_update_at (drop from packet.now)) (more_updates most (s + length packet.now))) s packet.now }
    ensures sound { IsSoundBy result packet.now }
    ensures fewer { pending_by result packet.now < suc (length (drop from packet.now)) }
{
    let mut cursor = Cursor::new(packet);
    cursor.go_to(from);
    match read_fast_update(&mut cursor) {
        Ok(found) => State::Update(found),
        Err(_) => State::Refused(start.saturating_add(cursor.at() as u64)),
    }
}

/// What a packet of the fast path is that begins at a place and got its last byte.
fn judge_fast(start: u64, packet: &[u8]) -> State
    requires some { 2 ≤ length packet.now }
    requires first { slice_index packet.now 0 ≡ 0 }
    ensures told { (fast : Bool) (s : ℕ) (front : List ℕ) (b : ℕ) → packet.now ≡ front ++ b ∷ [] → IsOpen front → start ≡ capped s
        → Tells result (updates_by fast (s + length front) (stage_of front) b) s packet.now }
    ensures fast { (m : ℕ × ℕ) → fast_length packet.now ≡ Some m → m.1 ≤ 32767 }
{
    match fast_length(packet) {
        Some((head, total)) => judge_counted(start, packet, head, total),
        None => State::Open,
    }
}

/// The same of one whose header has so many bytes, and whose length is said there.
fn judge_counted(start: u64, packet: &[u8], head: usize, total: usize) -> State
    requires first { slice_index packet.now 0 ≡ 0 }
    requires head { fast_length packet.now ≡ Some (head, total) }
    requires most { total ≤ 32767 }
    ensures { (fast : Bool) (s : ℕ) (front : List ℕ) (b : ℕ) → packet.now ≡ front ++ b ∷ [] → IsOpen front → start ≡ capped s
        → Tells result (updates_by fast (s + length front) (stage_of front) b) s packet.now }
{
    let count = packet.len();
    if count == head && total < head {
        return State::Refused(start.saturating_add(FAST_LENGTH_OFFSET));
    }
    if count < total {
        return State::Open;
    }
    judge_update(start, packet, head)
}

/// What a packet is that begins at a place and got its last byte, of a viewer that takes the fast path or not.
pub fn judge(fast: bool, start: u64, packet: &[u8]) -> State
    requires { 1 ≤ length packet.now }
    ensures told { (s : ℕ) (front : List ℕ) (b : ℕ) → packet.now ≡ front ++ b ∷ [] → IsOpen front → start ≡ capped s
        → Tells result (updates_by fast (s + length front) (stage_of front) b) s packet.now }
    ensures slow { (slice_index packet.now 0 ≡ 0 → ⊥) → 4 ≤ length packet.now → 256 * slice_index packet.now 2 + slice_index packet.now 3 ≤ 65535 }
    ensures fast { slice_index packet.now 0 ≡ 0 → (m : ℕ × ℕ) → fast_length packet.now ≡ Some m → m.1 ≤ 32767 }
{
    let count = packet.len();
    if count == 1 {
        return judge_first(fast, start, packet[0]);
    }
    if packet[0] == FAST {
        judge_fast(start, packet)
    } else {
        judge_slow(start, packet)
    }
}

/// What a whole packet has behind the update that was told.
pub fn judge_behind(state: State, start: u64, packet: &[u8]) -> State
    ensures told { (u : Updates) (s : ℕ) → start ≡ capped s → Tells state u s packet.now → Tells result (behind_first u) s packet.now }
    ensures sound { IsSoundBy state packet.now → IsSoundBy result packet.now }
    ensures fewer { 0 < pending_by state packet.now → pending_by result packet.now < pending_by state packet.now }
{
    if let State::Update(found) = state {
        return judge_rest(start, packet, found.behind);
    }
    state
}

/// What it has from an offset on.
fn judge_rest(start: u64, packet: &[u8], from: usize) -> State
    ensures told { (s most : ℕ) → start ≡ capped s → length (drop from packet.now) ≤ most
        → Tells result (more_updates most (s + length packet.now) (drop from packet.now)) s packet.now }
    ensures sound { IsSoundBy result packet.now }
    ensures fewer { pending_by result packet.now < suc (length (drop from packet.now)) }
{
    let count = packet.len();
    if from < count {
        return judge_update(start, packet, from);
    }
    State::Ended
}
