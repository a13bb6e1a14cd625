//! Bounds of an order: a byte of flags, then the edges that stand there ([MS-RDPEGDI] 2.2.2.2.1.1.1.1).
//!
//! | flag | edge | |
//! |---|---|---|
//! | 01, 02, 04, 08 | left, top, right, bottom | absolute, 2 bytes |
//! | 10, 20, 40, 80 | left, top, right, bottom | one signed byte that is added to the last one |

ghost use Rattle.std.specs.Prelude.{◌≡◌, ◌≤◌, ◌+◌, ◌*◌, ◌+ℤ◌, ◌-ℤ◌, pos, ◌++◌, ◌∷◌, length, true, Some, None};
ghost use Rattle.order_fields.specs.OrderTable.{fits_coordinate, FitEdges, FitBounds, bounds_after as edges_after};
ghost use Rattle.order_fields.specs.OrderDelta.{change, is_anew, is_moved, edge_bytes, edges_bytes, far_edges, flags_between as flags_from, same_edges, keeps_bounds as keeps_edges, bounds_bytes, has_bounds, edges_of as edges_at, edges_of_optional};
ghost use Rattle.order_fields.specs.Kept.{edges_in, optional_edges};

use crate::change::{Change, change_of};
use crate::number::{difference_byte, signed_two_bytes};
use crate::tail::Tail;
use px_core::Rect;

/// Bounds: inclusive edges, in pixels.
#[derive(Clone, Copy, Drop)]
pub struct Bounds {
    pub left: i64,
    pub top: i64,
    pub right: i64,
    pub bottom: i64,
}

/// The last pixel of a side.
fn far_edge(from: i32, side: u32) -> i64
    ensures { result ≡ (from +ℤ pos side) -ℤ pos 1 }
{
    i64::from(from) + i64::from(side) - 1
}

/// The bounds that have just the pixels of a rectangle.
pub fn bounds_of(r: Rect) -> Bounds
    ensures { edges_in result ≡ edges_at r }
{
    Bounds {
        left: i64::from(r.x),
        top: i64::from(r.y),
        right: far_edge(r.x, r.w),
        bottom: far_edge(r.y, r.h),
    }
}

/// The same of a rectangle that may be missing.
pub fn optional_bounds_of(r: Option<Rect>) -> Option<Bounds>
    ensures { optional_edges result ≡ edges_of_optional r }
{
    match r {
        None => None,
        Some(r) => Some(bounds_of(r)),
    }
}

/// Whether all four edges are equal.
fn are_same(old: Bounds, new: Bounds) -> bool
    ensures { result ≡ same_edges (edges_in old) (edges_in new) }
{
    (old.left == new.left)
        & (old.top == new.top)
        & (old.right == new.right)
        & (old.bottom == new.bottom)
}

/// Whether the bounds of an order needn't stand there.
pub fn keeps_bounds(confirmed: bool, old: &Bounds, new: Option<Bounds>) -> bool
    ensures { result ≡ keeps_edges confirmed (edges_in old.now) (optional_edges new) }
{
    match new {
        None => false,
        Some(new) => confirmed && are_same(*old, new),
    }
}

/// The flag of an edge, of which `absolute` is the one for two bytes.
fn edge_flag(last: i64, value: i64, absolute: u8) -> u8
    requires last { fits_coordinate last ≡ true }
    requires value { fits_coordinate value ≡ true }
    requires absolute { absolute ≤ 8 }
    ensures flag { result ≡ absolute * (is_anew (change last value) + 16 * is_moved (change last value)) }
    ensures bound { result ≤ 16 * absolute }
{
    match change_of(last, value) {
        Change::Same => 0,
        Change::Moved => 16 * absolute,
        Change::Anew => absolute,
    }
}

/// The flags of the edges that stand there.
fn flags_between(old: Bounds, new: Bounds) -> u8
    requires old { FitEdges (edges_in old) }
    requires new { FitEdges (edges_in new) }
    ensures { result ≡ flags_from (edges_in old) (edges_in new) }
{
    let left = edge_flag(old.left, new.left, 0x01);
    let top = edge_flag(old.top, new.top, 0x02);
    let right = edge_flag(old.right, new.right, 0x04);
    let bottom = edge_flag(old.bottom, new.bottom, 0x08);
    left + top + right + bottom
}

/// Puts an edge before a tail: nothing where it is equal, one byte where it differs by a signed byte, else two bytes.
fn put_edge(tail: &mut Tail, last: i64, value: i64)
    requires last { fits_coordinate last ≡ true }
    requires value { fits_coordinate value ≡ true }
    requires room { length tail.old ≤ 180 }
    ensures bytes { tail.new ≡ edge_bytes (change last value) last value ++ tail.old }
    ensures few { length tail.new ≤ 2 + length tail.old }
{
    match change_of(last, value) {
        Change::Same => {}
        Change::Moved => tail.put_low(1, difference_byte(last, value)),
        Change::Anew => tail.put_low(2, signed_two_bytes(value)),
    }
}

/// Puts the right and the bottom edge before a tail.
fn put_far_edges(tail: &mut Tail, old: Bounds, new: Bounds)
    requires old { FitEdges (edges_in old) }
    requires new { FitEdges (edges_in new) }
    requires room { length tail.old ≤ 178 }
    ensures bytes { tail.new ≡ far_edges (edges_in old) (edges_in new) ++ tail.old }
    ensures few { length tail.new ≤ 4 + length tail.old }
{
    put_edge(tail, old.bottom, new.bottom);
    put_edge(tail, old.right, new.right);
}

/// Puts the edges that differ before a tail.
fn put_edges(tail: &mut Tail, old: Bounds, new: Bounds)
    requires old { FitEdges (edges_in old) }
    requires new { FitEdges (edges_in new) }
    requires room { length tail.old ≤ 174 }
    ensures bytes { tail.new ≡ edges_bytes (edges_in old) (edges_in new) ++ tail.old }
    ensures few { length tail.new ≤ 8 + length tail.old }
{
    put_far_edges(tail, old, new);
    put_edge(tail, old.top, new.top);
    put_edge(tail, old.left, new.left);
}

/// Puts the flags of bounds and the edges that differ before a tail.
fn put_changed(tail: &mut Tail, old: Bounds, new: Bounds)
    requires old { FitEdges (edges_in old) }
    requires new { FitEdges (edges_in new) }
    requires room { length tail.old ≤ 173 }
    ensures bytes { tail.new ≡ (flags_from (edges_in old) (edges_in new) ∷ edges_bytes (edges_in old) (edges_in new)) ++ tail.old }
    ensures few { length tail.new ≤ 9 + length tail.old }
{
    put_edges(tail, old, new);
    tail.put(flags_between(old, new));
}

/// Puts the bounds of an order before a tail, where it has some and they must stand there.
pub fn put_bounds(tail: &mut Tail, keeps: bool, old: &Bounds, new: Option<Bounds>)
    requires old { FitEdges (edges_in old.now) }
    requires new { FitBounds (optional_edges new) }
    requires room { length tail.old ≤ 173 }
    ensures bytes { tail.new ≡ bounds_bytes keeps (edges_in old.now) (optional_edges new) ++ tail.old }
    ensures few { length tail.new ≤ 9 + length tail.old }
{
    match new {
        Some(new) if !keeps => put_changed(tail, *old, new),
        Some(_) | None => {}
    }
}

/// The last bounds after an order.
pub fn bounds_after(old: Bounds, new: Option<Bounds>) -> Bounds
    ensures { edges_in result ≡ edges_after (optional_edges new) (edges_in old) }
{
    match new {
        None => old,
        Some(new) => new,
    }
}

/// Keeps the bounds of an order, where it has some, as the last ones.
pub fn keep_bounds(bounds: &mut Bounds, new: Option<Bounds>)
    ensures { edges_in bounds.new ≡ edges_after (optional_edges new) (edges_in bounds.old) }
{
    if let Some(new) = new {
        *bounds = new;
    }
}
