//! Pixels that are taken from an image or a block.
ghost use Rattle.std.specs.Prelude.{◌≡◌, ℕ, ◌*◌, ◌≤◌, ◌<◌, pos, ◌+ℤ◌, ◌-ℤ◌, ◌≤ℤ◌, negsuc, length, IsTrue};
ghost use Rattle.px_core.specs.Picture.{rows_of};
ghost use Rattle.px_core.specs.Rectangle.{boxed, is_inside, IsPlaced};
ghost use Rattle.draw_ops.specs.Formulas.{shifted};
ghost use Rattle.surface_parts.specs.Parts.{in_part, IsWithinRect};
ghost use Rattle.surface_parts.specs.Textures.{texture_color, CoversPart};

use crate::part::Part;
use px_core::{Rect, Size};

/// The pixels of an image or a block, row by row from the top, and which of them belongs to the upper left pixel of a part.
#[derive(Clone, Copy)]
pub struct Texture<'a> {
    pub pixels: &'a [u32],
    pub w: usize,
    pub x: usize,
    pub y: usize,
}

/// The texture of a part of a rectangle whose upper left pixel has the pixel at (sx, sy) of an image of this size.
pub fn texture_of(
    pixels: &[u32],
    size: Size,
    rect: Rect,
    sx: i32,
    sy: i32,
    part: Part,
) -> Texture<'_>
    requires whole { length pixels.now ≡ size.w * size.h }
    requires wide { size.w ≤ 2048 }
    requires high { size.h ≤ 2048 }
    requires inside { IsTrue (is_inside size (boxed sx sy rect.w rect.h)) }
    requires placed { IsPlaced rect }
    requires part { IsWithinRect rect part }
    ensures covers { CoversPart part result }
    ensures colors { (x y : ℕ) → IsTrue (in_part part x y) → texture_color part result x y ≡ shifted (rows_of size.w size.h pixels.now) 0 rect sx sy (pos x) (pos y) }
{
    Texture {
        pixels,
        w: size.w as usize,
        x: source_place(part.x, rect.x, sx),
        y: source_place(part.y, rect.y, sy),
    }
}

/// The place in a source that is as far from its start as a place of the surface is from a rectangle's corner.
pub fn source_place(at: usize, corner: i32, start: i32) -> usize
    requires low { negsuc 65535 ≤ℤ corner }
    requires after { corner ≤ℤ pos at }
    requires within { (pos at -ℤ corner) ≤ℤ pos 65536 }
    requires start { pos 0 ≤ℤ start }
    requires small { start ≤ℤ pos 65536 }
    ensures { pos result ≡ (pos at -ℤ corner) +ℤ start }
{
    (at as i64 - i64::from(corner) + i64::from(start)) as usize
}
