//! Parts of a picture.
ghost use Rattle.std.specs.Prelude.{◌≡◌, ℕ, ◌<◌, ◌≤◌, ◌≤ℤ◌, nat_le, nat_lt, pos, negsuc, ◌&&◌, IfSome};
ghost use Rattle.px_core.specs.Rectangle.{boxed, in_rect, in_clip};
ghost use Rattle.client_picture.specs.Parts.{in_frame, in_optional_part, IsInside, IsWithin, IsWithinRect};

use crate::frame::{Frame, bounded, frame_at};
use px_core::{Rect, Size};

/// A rectangle of pixels that lies on a picture, by its upper left pixel and its sides, in pixels.
#[derive(Clone, Copy, Debug)]
pub(crate) struct Part {
    pub(crate) x: usize,
    pub(crate) y: usize,
    pub(crate) w: usize,
    pub(crate) h: usize,
}

/// The part of a rectangle that lies on the picture and within bounds, where it has a pixel.
pub(crate) fn part_of(size: Size, rect: Rect, bounds: Option<Rect>) -> Option<Part>
    ensures inside { IfSome result (λ part. IsInside size part) }
    ensures within { IfSome result (λ part. IsWithinRect rect part) }
    ensures pixels { (x y : ℕ) → x < size.w → y < size.h → in_optional_part result x y ≡ (in_clip bounds (pos x) (pos y) && in_rect rect (pos x) (pos y)) }
{
    part_at(
        size,
        i64::from(rect.x),
        i64::from(rect.y),
        rect.w,
        rect.h,
        bounds,
    )
}

/// The same for a rectangle by its upper left pixel and its sides.
pub(crate) fn part_at(
    size: Size,
    x: i64,
    y: i64,
    w: u32,
    h: u32,
    bounds: Option<Rect>,
) -> Option<Part>
    requires left { negsuc 8589934591 ≤ℤ x }
    requires right { x ≤ℤ pos 8589934592 }
    requires top { negsuc 8589934591 ≤ℤ y }
    requires bottom { y ≤ℤ pos 8589934592 }
    ensures inside { IfSome result (λ part. IsInside size part) }
    ensures within { IfSome result (λ part. IsWithinRect (boxed x y w h) part) }
    ensures pixels { (u v : ℕ) → u < size.w → v < size.h → in_optional_part result u v ≡ (in_clip bounds (pos u) (pos v) && in_rect (boxed x y w h) (pos u) (pos v)) }
{
    let seen = frame_at(size, x, y, w, h);
    match bounds {
        // Most drawings have none, and then a frame lies on the picture as it is.
        None => part_in(seen),
        Some(_) => common(bounded(size, bounds), seen),
    }
}

/// A frame as a part, where it has a pixel.
fn part_in(frame: Frame) -> Option<Part>
    ensures within { IfSome result (λ part. IsWithin frame part) }
    ensures pixels { (x y : ℕ) → in_optional_part result x y ≡ in_frame frame x y }
{
    if frame.left < frame.right && frame.top < frame.bottom {
        Some(Part {
            x: frame.left,
            y: frame.top,
            w: frame.right - frame.left,
            h: frame.bottom - frame.top,
        })
    } else {
        None
    }
}

/// The part that two frames have in common, where it has a pixel.
fn common(a: Frame, b: Frame) -> Option<Part>
    ensures first { IfSome result (λ part. IsWithin a part) }
    ensures second { IfSome result (λ part. IsWithin b part) }
    ensures pixels { (x y : ℕ) → in_optional_part result x y ≡ (in_frame a x y && in_frame b x y) }
{
    let left = later(a.left, b.left);
    let top = later(a.top, b.top);
    let right = earlier(a.right, b.right);
    let bottom = earlier(a.bottom, b.bottom);
    if left < right && top < bottom {
        Some(Part {
            x: left,
            y: top,
            w: right - left,
            h: bottom - top,
        })
    } else {
        None
    }
}

/// The greater of two numbers.
pub(crate) fn later(a: usize, b: usize) -> usize
    ensures first { a ≤ result }
    ensures second { b ≤ result }
    ensures numbers { (k : ℕ) → nat_le result k ≡ (nat_le a k && nat_le b k) }
    ensures least { (k : ℕ) → a ≤ k → b ≤ k → result ≤ k }
{
    if a < b { b } else { a }
}

/// The lesser of two numbers.
pub(crate) fn earlier(a: usize, b: usize) -> usize
    ensures first { result ≤ a }
    ensures second { result ≤ b }
    ensures numbers { (k : ℕ) → nat_lt k result ≡ (nat_lt k a && nat_lt k b) }
{
    if a < b { a } else { b }
}
