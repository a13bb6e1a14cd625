//! What is seen of rectangles on a picture.
ghost use Rattle.std.specs.Prelude.{◌≡◌, ℕ, ◌<◌, ◌≤◌, ◌≤ℤ◌, pos, negsuc, ◌&&◌};
ghost use Rattle.px_core.specs.Rectangle.{boxed, in_rect, in_clip};
ghost use Rattle.client_picture.specs.Parts.{in_frame, IsEdge, IsSeen, LiesOn};

use px_core::{Rect, Size};

/// A rectangle on a picture by its left column, its top row, and the first column and row behind it. It has no pixel where an edge doesn't lie
/// before its opposite.
#[derive(Clone, Copy)]
pub(crate) struct Frame {
    pub(crate) left: usize,
    pub(crate) top: usize,
    pub(crate) right: usize,
    pub(crate) bottom: usize,
}

/// The edge on a picture's side of this length that stands for an edge anywhere.
fn edge(limit: u32, z: i64) -> usize
    ensures { IsEdge limit z result }
{
    if z < 0 {
        0
    } else if i64::from(limit) < z {
        limit as usize
    } else {
        z as usize
    }
}

/// What is seen of a rectangle of these sides with its upper left pixel at (x, y).
pub(crate) fn frame_at(size: Size, x: i64, y: i64, w: u32, h: u32) -> Frame
    requires left { negsuc 8589934591 ≤ℤ x }
    requires right { x ≤ℤ pos 8589934592 }
    requires top { negsuc 8589934591 ≤ℤ y }
    requires bottom { y ≤ℤ pos 8589934592 }
    ensures seen { IsSeen size x y w h result }
{
    Frame {
        left: edge(size.w, x),
        top: edge(size.h, y),
        right: edge(size.w, x + i64::from(w)),
        bottom: edge(size.h, y + i64::from(h)),
    }
}

/// What is seen within bounds: the whole picture where there are none.
pub(crate) fn bounded(size: Size, bounds: Option<Rect>) -> Frame
    ensures on { LiesOn size result }
    ensures pixels { (x y : ℕ) → x < size.w → y < size.h → in_frame result x y ≡ in_clip bounds (pos x) (pos y) }
{
    match bounds {
        None => Frame {
            left: 0,
            top: 0,
            right: size.w as usize,
            bottom: size.h as usize,
        },
        Some(bounds) => frame_at(
            size,
            i64::from(bounds.x),
            i64::from(bounds.y),
            bounds.w,
            bounds.h,
        ),
    }
}
