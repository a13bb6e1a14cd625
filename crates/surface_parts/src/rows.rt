//! Stretches of rows, filled and copied.
ghost use Rattle.std.specs.Prelude.{◌≡◌, ◌*◌, length, IfOk, IsTrue};
ghost use Rattle.px_core.specs.Rectangle.{is_inside, cut_out};
ghost use Rattle.surface_parts.specs.Parts.{in_part, IsCanvas, IsInside, IsRepainted};
ghost use Rattle.surface_parts.specs.Textures.{texture_color, CoversPart};

use crate::OutOfMemory;
use crate::part::{Part, part_of};
use crate::texture::Texture;
use lane_rop::copy_lanes;
use px_core::{Rect, Size};
use std::alloc::Global;

/// Gives every pixel of a part one colour. The colours of one row are made once, in `row`, and copied to each.
pub fn fill_part(pixels: &mut [u32], size: Size, part: Part, color: u32, row: &mut [u32])
    requires canvas { IsCanvas size pixels.old }
    requires inside { IsInside size part }
    requires row { length row.old ≡ part.w }
    ensures { IsRepainted size (in_part part) (λ x y. color) pixels.old pixels.new }
{
    row.fill(color);
    let width = size.w as usize;
    for y in part.y..part.y + part.h {
        let at = width * y + part.x;
        pixels[at..at + part.w].copy_from_slice(row);
    }
}

/// Gives every pixel of a part the colour that a texture has for it.
pub fn paste_part(pixels: &mut [u32], size: Size, part: Part, texture: Texture)
    requires canvas { IsCanvas size pixels.old }
    requires inside { IsInside size part }
    requires texture { CoversPart part texture }
    ensures { IsRepainted size (in_part part) (texture_color part texture.entry) pixels.old pixels.new }
{
    let width = size.w as usize;
    for y in part.y..part.y + part.h {
        let at = width * y + part.x;
        let from = texture.w * (texture.y + (y - part.y)) + texture.x;
        copy_lanes(
            &texture.pixels[from..from + part.w],
            &mut pixels[at..at + part.w],
        );
    }
}

/// Copies the pixels of a rectangle that lies on the surface, row by row from the top.
pub fn cut_rect(pixels: &[u32], size: Size, rect: Rect, out: &mut [u32])
    requires canvas { IsCanvas size pixels.now }
    requires inside { IsTrue (is_inside size rect) }
    requires room { length out.old ≡ rect.w * rect.h }
    ensures { out.new ≡ cut_out size pixels.now 0 rect }
{
    let part = part_of(size, rect);
    let block = Size {
        w: rect.w,
        h: rect.h,
    };
    let whole = Part {
        x: 0,
        y: 0,
        w: part.w,
        h: part.h,
    };
    let texture = Texture {
        pixels,
        w: size.w as usize,
        x: part.x,
        y: part.y,
    };
    paste_part(out, block, whole, texture)
}

/// The pixels of a rectangle that lies on the surface, row by row from the top, in a list of their own.
pub fn cut_pixels(
    alloc: Global,
    pixels: &[u32],
    size: Size,
    rect: Rect,
) -> Result<Vec<u32>, OutOfMemory>
    requires canvas { IsCanvas size pixels.now }
    requires inside { IsTrue (is_inside size rect) }
    ensures { IfOk result (λ cut. cut.items ≡ cut_out size pixels.now 0 rect) }
{
    let part = part_of(size, rect);
    let width = size.w as usize;
    let mut cut = Vec::with_capacity(alloc, part.w * part.h)?;
    for y in part.y..part.y + part.h {
        let at = width * y + part.x;
        cut.extend_from_slice(&pixels[at..at + part.w])?;
    }
    Ok(cut)
}
