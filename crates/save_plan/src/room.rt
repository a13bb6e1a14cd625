//! The least free position among blocks.
//!
//! A block of w by h takes `w * (h rounded up to a multiple of 20)` positions in a row, of 57,600.

ghost use Rattle.std.specs.Prelude.{◌≡◌, ℕ, ◌+◌, ◌<◌, ◌≤◌, MatchOption, false};
ghost use Rattle.save_plan.specs.Blocks.{positions_of, end_of, is_taken, IsFree, IsLeastFree, AreApart};

use crate::Place;

/// The positions that there are.
const ALL_POSITIONS: u32 = 57_600;
/// A block's rows are counted in steps of so many.
const ROW_STEP: u64 = 20;

/// How many positions a block of these sides takes; none where more than there are.
fn positions(w: u32, h: u32) -> Option<u32>
    ensures { MatchOption result (57600 < positions_of w h) (λ count. (count ≡ positions_of w h) × (count ≤ 57600)) }
{
    let rows = ROW_STEP * u64::from(h).div_ceil(ROW_STEP);
    match u64::from(w).checked_mul(rows) {
        Some(count) if count <= u64::from(ALL_POSITIONS) => Some(count as u32),
        _ => None,
    }
}

/// The least position from which a block of these sides finds its positions free.
pub(crate) fn room_for(blocks: &[(u8, Place)], w: u32, h: u32) -> Option<u32>
    requires { AreApart blocks.now }
    ensures { MatchOption result
        ((from : ℕ) → IsFree (positions_of w h) blocks.now from → ⊥)
        (λ from. IsLeastFree (positions_of w h) blocks.now from) }
{
    match positions(w, h) {
        Some(count) => least_free(blocks, count),
        None => None,
    }
}

/// The least position from which so many are free.
fn least_free(blocks: &[(u8, Place)], count: u32) -> Option<u32>
    requires apart { AreApart blocks.now }
    requires small { count ≤ 57600 }
    ensures { MatchOption result ((from : ℕ) → IsFree count blocks.now from → ⊥) (λ from. IsLeastFree count blocks.now from) }
{
    let mut from = 0;
    while from + count <= ALL_POSITIONS {
        match end_in_the_way(blocks, from, count) {
            Some(end) => from = end,
            None => return Some(from),
        }
    }
    None
}

/// The end of a block that has one of these positions.
fn end_in_the_way(blocks: &[(u8, Place)], from: u32, count: u32) -> Option<u32>
    requires apart { AreApart blocks.now }
    requires there { from + count ≤ 57600 }
    ensures { MatchOption result
        ((q : ℕ) → from ≤ q → q < from + count → is_taken q blocks.now ≡ false)
        (λ end. (from < end) × (end ≤ 57600) × ((before : ℕ) → from ≤ before → before < end → IsFree count blocks.now before → ⊥)) }
{
    for (_, place) in blocks {
        let end = end_of(place);
        if place.position.max(from) < end.min(from + count) {
            return Some(end);
        }
    }
    None
}

/// The position after a block.
fn end_of(place: &Place) -> u32
    requires { end_of place.now ≤ 57600 }
    ensures { result ≡ end_of place.now }
{
    place.position + positions(place.w, place.h).unwrap()
}
