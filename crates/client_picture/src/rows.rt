//! Stretches of rows, filled and copied.
ghost use Rattle.std.specs.Prelude.{◌≡◌, ◌+◌, ◌*◌, ◌<◌, ◌≤◌, ℕ, Some, None, length, get_or};
ghost use Rattle.client_picture.specs.Parts.{in_part, part_at, IsCanvas, IsInside, IsRepainted};
ghost use Rattle.client_picture.specs.Sources.{pixel_from, Covers};

use crate::corner::Corner;
use crate::part::Part;
use crate::{Color, Pixel};
use px_core::Size;

/// Gives every pixel of a part one colour. A part of one row, as a line or a point has, needs no loop.
pub(crate) fn fill_part(pixels: &mut [Pixel], size: Size, part: Part, color: Color)
    requires canvas { IsCanvas size pixels.old }
    requires inside { IsInside size part }
    ensures { IsRepainted size (in_part part) (λ x y. Some color) pixels.old pixels.new }
{
    if part.h == 1 {
        fill_line(pixels, size, part.x, part.y, part.w, color)
    } else {
        fill_rows(pixels, size, part, color)
    }
}

/// Gives so many pixels of a row one colour, from a column on.
fn fill_line(pixels: &mut [Pixel], size: Size, x: usize, y: usize, w: usize, color: Color)
    requires canvas { IsCanvas size pixels.old }
    requires row { y < size.h }
    requires columns { x + w ≤ size.w }
    ensures { IsRepainted size (in_part (part_at x y w 1)) (λ u v. Some color) pixels.old pixels.new }
{
    let at = size.w as usize * y + x;
    fill_row(&mut pixels[at..at + w], color);
}

/// Gives every pixel of a part one colour, row by row.
fn fill_rows(pixels: &mut [Pixel], size: Size, part: Part, color: Color)
    requires canvas { IsCanvas size pixels.old }
    requires inside { IsInside size part }
    ensures { IsRepainted size (in_part part) (λ x y. Some color) pixels.old pixels.new }
{
    let width = size.w as usize;
    for y in part.y..part.y + part.h {
        let at = width * y + part.x;
        fill_row(&mut pixels[at..at + part.w], color);
    }
}

/// Gives every pixel of a row one colour.
fn fill_row(row: &mut [Pixel], color: Color)
    ensures { (k : ℕ) → k < length row.old → get_or row.new k None ≡ Some color }
{
    row.fill(Pixel::known(color));
}

/// Gives every pixel of a part what a source of so many columns has for it, known or not.
pub(crate) fn paste_part(
    pixels: &mut [Pixel],
    size: Size,
    part: Part,
    source: &[Pixel],
    w: usize,
    from: Corner,
)
    requires canvas { IsCanvas size pixels.old }
    requires inside { IsInside size part }
    requires source { Covers part w (length source.now) from }
    ensures { IsRepainted size (in_part part) (pixel_from source.now w from part) pixels.old pixels.new }
{
    let width = size.w as usize;
    for y in part.y..part.y + part.h {
        let at = width * y + part.x;
        let start = w * (from.y + (y - part.y)) + from.x;
        pixels[at..at + part.w].copy_from_slice(&source[start..start + part.w]);
    }
}
