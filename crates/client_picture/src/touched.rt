//! The rows, and the frame, that were painted since the last mark.
ghost use Rattle.std.specs.Prelude.{◌≡◌, ℕ, ◌+◌, ◌-◌, ◌≤◌, ◌<◌, ◌≤ℤ◌, ◌&&◌, pos, negsuc, Some, None, false, length, IfSome};
ghost use Rattle.px_core.specs.Picture.{both, pixel_at};
ghost use Rattle.px_core.specs.Rectangle.{boxed, in_rect, in_clip};
ghost use Rattle.client_picture.specs.Touched.{AreTouched, AreSameBeside, AddsRows, AddsPart, Widens};
ghost use Rattle.client_picture.specs.Parts.{in_frame, in_part, in_optional_part, part_at, IsCanvas, IsInside, IsRepainted, LiesOn};

use crate::Pixel;
use crate::frame::Frame;
use crate::part::{Part, earlier, later, part_at, part_of};
use px_core::{Rect, Size};

/// Remembers that the pixels of a rectangle may have been painted, within bounds: their rows, and a frame that has them all.
pub(crate) fn touch_rect(
    touched: &mut [bool],
    frame: &mut Frame,
    size: Size,
    rect: Rect,
    bounds: Option<Rect>,
)
    requires { length touched.old ≡ size.h }
    ensures rows { AddsRows size (both (in_clip bounds) (in_rect rect)) touched.old touched.new }
    ensures frame { Widens size (both (in_clip bounds) (in_rect rect)) frame.old frame.new }
{
    let part = part_of(size, rect, bounds);
    touch_part(touched, part);
    *frame = widened(*frame, part);
}

/// The same where the part that lies on the picture and within the bounds is known.
pub(crate) fn touch_found(
    touched: &mut [bool],
    frame: &mut Frame,
    size: Size,
    rect: Rect,
    bounds: Option<Rect>,
    part: Option<Part>,
)
    requires flags { length touched.old ≡ size.h }
    requires inside { IfSome part (λ part. IsInside size part) }
    requires seen { (x y : ℕ) → x < size.w → y < size.h → in_optional_part part x y ≡ (in_clip bounds (pos x) (pos y) && in_rect rect (pos x) (pos y)) }
    ensures rows { AddsRows size (both (in_clip bounds) (in_rect rect)) touched.old touched.new }
    ensures frame { Widens size (both (in_clip bounds) (in_rect rect)) frame.old frame.new }
{
    touch_part(touched, part);
    *frame = widened(*frame, part);
}

/// The same for a rectangle by its upper left pixel and its sides.
pub(crate) fn touch_at(
    touched: &mut [bool],
    frame: &mut Frame,
    size: Size,
    x: i64,
    y: i64,
    w: u32,
    h: u32,
    bounds: Option<Rect>,
)
    requires flags { length touched.old ≡ size.h }
    requires left { negsuc 8589934591 ≤ℤ x }
    requires right { x ≤ℤ pos 8589934592 }
    requires top { negsuc 8589934591 ≤ℤ y }
    requires bottom { y ≤ℤ pos 8589934592 }
    ensures rows { AddsRows size (both (in_clip bounds) (in_rect (boxed x y w h))) touched.old touched.new }
    ensures frame { Widens size (both (in_clip bounds) (in_rect (boxed x y w h))) frame.old frame.new }
{
    let part = part_at(size, x, y, w, h, bounds);
    touch_part(touched, part);
    *frame = widened(*frame, part);
}

/// A frame that has the pixels of a frame and of a part, where there is one.
fn widened(frame: Frame, part: Option<Part>) -> Frame
    requires { IfSome part (λ part. (part.x + part.w ≤ 4294967295) × (part.y + part.h ≤ 4294967295)) }
    ensures within { (size : Size) → LiesOn size frame → IfSome part (IsInside size) → LiesOn size result }
    ensures pixels { (x y : ℕ) → in_frame result x y ≡ false → (in_frame frame x y ≡ false) × (in_optional_part part x y ≡ false) }
{
    match part {
        None => frame,
        Some(part) => joined(frame, part),
    }
}

/// A frame that has the pixels of a frame and of a part.
fn joined(frame: Frame, part: Part) -> Frame
    requires columns { part.x + part.w ≤ 4294967295 }
    requires rows { part.y + part.h ≤ 4294967295 }
    ensures within { (size : Size) → LiesOn size frame → IsInside size part → LiesOn size result }
    ensures pixels { (x y : ℕ) → in_frame result x y ≡ false → (in_frame frame x y ≡ false) × (in_part part x y ≡ false) }
{
    let right = part.x + part.w;
    let bottom = part.y + part.h;
    if frame.right <= frame.left || frame.bottom <= frame.top {
        return Frame {
            left: part.x,
            top: part.y,
            right,
            bottom,
        };
    }
    Frame {
        left: earlier(frame.left, part.x),
        top: earlier(frame.top, part.y),
        right: later(frame.right, right),
        bottom: later(frame.bottom, bottom),
    }
}

/// Remembers that the rows of a part may have been painted, where there is one.
fn touch_part(touched: &mut [bool], part: Option<Part>)
    requires { IfSome part (λ part. part.y + part.h ≤ length touched.old) }
    ensures { AddsPart part touched.old touched.new }
{
    match part {
        None => {}
        Some(part) => touch_rows(touched, part),
    }
}

/// Remembers that the rows of a part may have been painted. One row needs no loop.
fn touch_rows(touched: &mut [bool], part: Part)
    requires { part.y + part.h ≤ length touched.old }
    ensures { AddsPart (Some part) touched.old touched.new }
{
    if part.h == 1 {
        touched[part.y] = true;
    } else {
        touch_each(touched, part);
    }
}

/// Remembers that the rows of a part may have been painted, one by one.
fn touch_each(touched: &mut [bool], part: Part)
    requires { part.y + part.h ≤ length touched.old }
    ensures { AddsPart (Some part) touched.old touched.new }
{
    for y in part.y..part.y + part.h {
        touched[y] = true;
    }
}

/// Copies the pixels that may have been painted since the last mark: those in a frame, of the rows that were touched; and forgets the rows.
pub(crate) fn copy_touched(
    touched: &mut [bool],
    frame: Frame,
    size: Size,
    picture: &[Pixel],
    marked: &mut [Pixel],
)
    requires canvas { IsCanvas size picture.now }
    requires marked { IsCanvas size marked.old }
    requires touched { AreTouched size touched.old picture.now marked.old }
    requires within { LiesOn size frame }
    requires beside { AreSameBeside size frame picture.now marked.old }
    ensures copied { marked.new ≡ picture.now }
    ensures touched { AreTouched size touched.new picture.now marked.new }
{
    let from = earlier(frame.left, frame.right);
    for y in earlier(frame.top, frame.bottom)..frame.bottom {
        if touched[y] {
            copy_row(size, y, from, frame.right, picture, marked);
            touched[y] = false;
        }
    }
}

/// Copies some columns of row y.
fn copy_row(size: Size, y: usize, from: usize, end: usize, picture: &[Pixel], marked: &mut [Pixel])
    requires canvas { IsCanvas size picture.now }
    requires marked { IsCanvas size marked.old }
    requires row { y < size.h }
    requires ordered { from ≤ end }
    requires within { end ≤ size.w }
    ensures { IsRepainted size (in_part (part_at from y (end - from) 1)) (λ u v. pixel_at size picture.now None u v) marked.old marked.new }
{
    let at = size.w as usize * y + from;
    let count = end - from;
    marked[at..at + count].copy_from_slice(&picture[at..at + count]);
}
