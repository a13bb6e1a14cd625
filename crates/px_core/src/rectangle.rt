//! Rectangles of pixels, what two of them have in common, and whether they lie on a picture.

ghost use Rattle.std.specs.Prelude.{◌≡◌, ℤ, pos, ◌+ℤ◌, ◌&&◌, int_le, IfSome, IsTrue};
ghost use Rattle.std.specs.Int.{int_max, int_min};
ghost use Rattle.px_core.specs.Rectangle.{in_rect, in_optional_rect, has_pixel, is_inside, whole, common, common_length, clipped, if_pixels};
ghost use Rattle.px_core.specs.Rectangle.{is_session_size, IsPlaced, IsPlacedClip};

use crate::surface::Size;

/// A rectangle of pixels, by its upper left pixel and its sides, in pixels.
///
/// A rectangle with a side of 0 has no pixel. The corner may lie outside a picture.
#[derive(Clone, Copy, Debug, PartialEq, Eq)]
pub struct Rect {
    pub x: i32,
    pub y: i32,
    pub w: u32,
    pub h: u32,
}

/// The rectangle of a whole picture.
pub fn whole(size: Size) -> Rect
    ensures whole { result ≡ whole size }
    ensures placed { IsTrue (is_session_size size.w size.h) → IsPlaced result }
{
    Rect {
        x: 0,
        y: 0,
        w: size.w,
        h: size.h,
    }
}

/// The common pixels of two rectangles; `None` exactly where there are none.
pub fn meet(a: Rect, b: Rect) -> Option<Rect>
    requires first { IsPlaced a }
    requires second { IsPlaced b }
    ensures pixels { (x y : ℤ) → in_optional_rect result x y ≡ (in_rect a x y && in_rect b x y) }
    ensures none_without_pixels { IfSome result (λ r. IsTrue (has_pixel r)) }
    ensures rectangle { result ≡ if_pixels (common a b) }
{
    let both = common(a, b);
    if has_pixel(both) { Some(both) } else { None }
}

/// The part of a rectangle that a clip leaves; a side is 0 where it leaves none.
pub fn clipped(rect: Rect, clip: Option<Rect>) -> Rect
    ensures clipped { result ≡ clipped rect clip }
    ensures placed { IsPlaced rect → IsPlacedClip clip → IsPlaced result }
{
    match clip {
        Some(clip) => common(rect, clip),
        None => rect,
    }
}

/// The common pixels of two rectangles; a side is 0 where there are none.
pub fn common(a: Rect, b: Rect) -> Rect
    ensures common { result ≡ common a b }
    ensures placed { IsPlaced a → IsPlaced b → IsPlaced result }
{
    Rect {
        x: later(a.x, b.x),
        y: later(a.y, b.y),
        w: common_length(a.x, a.w, b.x, b.w),
        h: common_length(a.y, a.h, b.y, b.h),
    }
}

/// Whether a rectangle has a pixel.
pub fn has_pixel(r: Rect) -> bool
    ensures { result ≡ has_pixel r }
{
    1 <= r.w && 1 <= r.h
}

/// Whether a rectangle lies inside a picture.
pub fn is_inside(s: Size, r: Rect) -> bool
    ensures { result ≡ is_inside s r }
{
    is_stretch_below(s.w, r.x, r.w) && is_stretch_below(s.h, r.y, r.h)
}

/// Whether the numbers of a stretch are not negative, and below a limit.
fn is_stretch_below(limit: u32, from: i32, length: u32) -> bool
    ensures { result ≡ (int_le (pos 0) from && int_le (from +ℤ pos length) (pos limit)) }
{
    0 <= from && i64::from(from) + i64::from(length) <= i64::from(limit)
}

/// How many numbers two stretches have in common.
fn common_length(a: i32, m: u32, b: i32, n: u32) -> u32
    ensures { result ≡ common_length a m b n }
{
    let from = i64::from(later(a, b));
    let end = earlier(end_of(a, m), end_of(b, n));
    if from < end {
        end.abs_diff(from) as u32
    } else {
        0
    }
}

/// The greater of two numbers.
fn later(a: i32, b: i32) -> i32
    ensures { result ≡ int_max a b }
{
    if a < b { b } else { a }
}

/// The lesser of two numbers.
pub(crate) fn earlier(a: i64, b: i64) -> i64
    ensures { result ≡ int_min a b }
{
    if a < b { a } else { b }
}

/// The first number behind a stretch.
pub(crate) fn end_of(from: i32, length: u32) -> i64
    ensures { result ≡ from +ℤ pos length }
{
    i64::from(from) + i64::from(length)
}
