//! Bounds of an order: the clip of its drawing, which goes exactly where the rectangle isn't inside it (profile).
ghost use Rattle.std.specs.Prelude.{◌≡◌, ◌+ℤ◌, pos, int_le};
ghost use Rattle.frame_rules.specs.FrameOrders.{is_within, bounds_of};

use px_core::Rect;

/// The bounds of a drawing's order: its clip, where its rectangle isn't inside.
pub(crate) fn bounds_of(r: Rect, clip: Option<Rect>) -> Option<Rect>
    ensures { result ≡ bounds_of r clip }
{
    match clip {
        None => None,
        Some(clip) => { if is_within(r, clip) { None } else { Some(clip) } }
    }
}

/// Whether a rectangle lies within another one.
fn is_within(r: Rect, clip: Rect) -> bool
    ensures { result ≡ is_within r clip }
{
    (begins_within(r.x, clip.x) && ends_within(r.x, r.w, clip.x, clip.w))
        && (begins_within(r.y, clip.y) && ends_within(r.y, r.h, clip.y, clip.h))
}

/// Whether a stretch begins in another one, or behind its first number.
fn begins_within(from: i32, clip_from: i32) -> bool
    ensures { result ≡ int_le clip_from from }
{
    clip_from <= from
}

/// Whether a stretch ends with another one, or before its end.
fn ends_within(from: i32, length: u32, clip_from: i32, clip_length: u32) -> bool
    ensures { result ≡ int_le (from +ℤ pos length) (clip_from +ℤ pos clip_length) }
{
    end_of(from, length) <= end_of(clip_from, clip_length)
}

/// The first number behind a stretch.
fn end_of(from: i32, length: u32) -> i64
    ensures { result ≡ from +ℤ pos length }
{
    i64::from(from) + i64::from(length)
}
