//! Parts of the surface.
ghost use Rattle.std.specs.Prelude.{◌≡◌, ℕ, ◌<◌, ◌≤◌, None, pos, ◌&&◌, IfSome, IsTrue};
ghost use Rattle.px_core.specs.Rectangle.{in_rect, in_clip, is_inside, IsPlaced};
ghost use Rattle.draw_ops.specs.Fits.{clip_rule};
ghost use Rattle.surface_parts.specs.Parts.{in_optional_part, IsInside, IsRectPart, IsSmall, IsWithinRect};

use crate::window::Window;
use px_core::{Rect, Size, meet};

/// A rectangle of pixels that lies on the surface, by its upper left pixel and its sides, in pixels.
#[derive(Clone, Copy, Debug)]
pub struct Part {
    pub x: usize,
    pub y: usize,
    pub w: usize,
    pub h: usize,
}

/// The part of a rectangle that lies on the surface and in a clip.
pub fn visible(window: Window, rect: Rect) -> Option<Part>
    requires small { IsSmall window.size }
    requires rect { IsPlaced rect }
    requires clip { clip_rule window.size window.clip ≡ None }
    ensures inside { IfSome result (λ part. IsInside window.size part) }
    ensures within { IfSome result (λ part. IsWithinRect rect part) }
    ensures pixels { (x y : ℕ) → x < window.size.w → y < window.size.h → in_optional_part result x y ≡ (in_clip window.clip (pos x) (pos y) && in_rect rect (pos x) (pos y)) }
{
    match meet(frame(window), rect) {
        None => None,
        Some(common) => Some(part_of(window.size, common)),
    }
}

/// The rectangle of a clip, or of the whole surface.
fn frame(window: Window) -> Rect
    requires small { IsSmall window.size }
    requires clip { clip_rule window.size window.clip ≡ None }
    ensures inside { IsTrue (is_inside window.size result) }
    ensures placed { IsPlaced result }
    ensures pixels { (x y : ℕ) → x < window.size.w → y < window.size.h → in_rect result (pos x) (pos y) ≡ in_clip window.clip (pos x) (pos y) }
{
    match window.clip {
        None => Rect {
            x: 0,
            y: 0,
            w: window.size.w,
            h: window.size.h,
        },
        Some(clip) => clip,
    }
}

/// A rectangle that lies on the surface, as a part of it.
pub fn part_of(size: Size, rect: Rect) -> Part
    requires { IsTrue (is_inside size rect) }
    ensures inside { IsInside size result }
    ensures same { IsRectPart rect result }
{
    let _ = size;
    Part {
        x: rect.x as usize,
        y: rect.y as usize,
        w: rect.w as usize,
        h: rect.h as usize,
    }
}
