//! Copies within the picture, row by row.
ghost use Rattle.std.specs.Prelude.{◌≡◌, ℕ, ◌+◌, ◌<◌, ◌≤◌, Some, None, length, get_or};
ghost use Rattle.draw_ops.specs.Depths.{maybe_raster_at};
ghost use Rattle.client_picture.specs.Parts.{in_part, part_at, IsCanvas, IsInside, IsRepainted};
ghost use Rattle.client_picture.specs.Sources.{copied, copied_color, IsSourceInside};

use crate::Pixel;
use crate::corner::Corner;
use crate::part::Part;
use crate::pixel::{SOURCE_COPY, copied, mixed};
use px_core::{Depth, Size};

/// Makes each pixel of a part what the operation of a code makes of it, with the picture itself as its source, from a corner on. The row is for the
/// source of one row.
///
/// Where the source lies above the part, the lowest row goes first, so that no row is read after it was painted.
pub(crate) fn copy_part(
    pixels: &mut [Pixel],
    size: Size,
    part: Part,
    depth: Depth,
    rop: u8,
    from: Corner,
    source: &mut [Pixel],
)
    requires canvas { IsCanvas size pixels.old }
    requires inside { IsInside size part }
    requires from { IsSourceInside size part from }
    requires source { length source.old ≡ part.w }
    ensures { IsRepainted size (in_part part) (copied_color depth size pixels.old part rop from) pixels.old pixels.new }
{
    if from.y < part.y {
        copy_upwards(pixels, size, part, depth, rop, from, source)
    } else {
        copy_downwards(pixels, size, part, depth, rop, from, source)
    }
}

/// Copies the rows of a part from the highest one on.
fn copy_downwards(
    pixels: &mut [Pixel],
    size: Size,
    part: Part,
    depth: Depth,
    rop: u8,
    from: Corner,
    source: &mut [Pixel],
)
    requires canvas { IsCanvas size pixels.old }
    requires inside { IsInside size part }
    requires from { IsSourceInside size part from }
    requires not_above { part.y ≤ from.y }
    requires source { length source.old ≡ part.w }
    ensures { IsRepainted size (in_part part) (copied_color depth size pixels.old part rop from) pixels.old pixels.new }
{
    for k in 0..part.h {
        copy_row(pixels, size, part, depth, rop, from, part.y + k, source);
    }
}

/// Copies the rows of a part from the lowest one on.
fn copy_upwards(
    pixels: &mut [Pixel],
    size: Size,
    part: Part,
    depth: Depth,
    rop: u8,
    from: Corner,
    source: &mut [Pixel],
)
    requires canvas { IsCanvas size pixels.old }
    requires inside { IsInside size part }
    requires from { IsSourceInside size part from }
    requires above { from.y ≤ part.y }
    requires source { length source.old ≡ part.w }
    ensures { IsRepainted size (in_part part) (copied_color depth size pixels.old part rop from) pixels.old pixels.new }
{
    for k in 0..part.h {
        copy_row(
            pixels,
            size,
            part,
            depth,
            rop,
            from,
            part.y + (part.h - 1 - k),
            source,
        );
    }
}

/// Copies row y of a part.
fn copy_row(
    pixels: &mut [Pixel],
    size: Size,
    part: Part,
    depth: Depth,
    rop: u8,
    from: Corner,
    y: usize,
    source: &mut [Pixel],
)
    requires canvas { IsCanvas size pixels.old }
    requires inside { IsInside size part }
    requires from { IsSourceInside size part from }
    requires above { part.y ≤ y }
    requires below { y < part.y + part.h }
    requires source { length source.old ≡ part.w }
    ensures { IsRepainted size (in_part (part_at part.x y part.w 1)) (copied_color depth size pixels.old part rop from) pixels.old pixels.new }
{
    let width = size.w as usize;
    let start = width * (from.y + (y - part.y)) + from.x;
    source.copy_from_slice(&pixels[start..start + part.w]);
    let at = width * y + part.x;
    mix_source(&mut pixels[at..at + part.w], source, depth, rop);
}

/// Makes each pixel of a row what the operation of a code makes of it and of the source at its place.
fn mix_source(row: &mut [Pixel], source: &[Pixel], depth: Depth, rop: u8)
    requires { length source.now ≡ length row.old }
    ensures { (k : ℕ) → k < length row.old → get_or row.new k None ≡ maybe_raster_at depth rop (Some 0) (get_or source.now k None) (get_or row.old k None) }
{
    match depth {
        Depth::Bits24 if rop == SOURCE_COPY => copy_pixels(row, source),
        Depth::Bits24 => mix_pixels(row, source, Depth::Bits24, rop),
        Depth::Bits16 => mix_pixels(row, source, Depth::Bits16, rop),
    }
}

/// Copies the source of 24 bits over a row.
fn copy_pixels(row: &mut [Pixel], source: &[Pixel])
    requires { length source.now ≡ length row.old }
    ensures { (k : ℕ) → k < length row.old → get_or row.new k None ≡ copied (get_or source.now k None) }
{
    for k in 0..row.len() {
        row[k] = copied(source[k]);
    }
}

/// Mixes the source into a row at a depth, pixel by pixel.
#[inline(always)]
fn mix_pixels(row: &mut [Pixel], source: &[Pixel], depth: Depth, rop: u8)
    requires { length source.now ≡ length row.old }
    ensures { (k : ℕ) → k < length row.old → get_or row.new k None ≡ maybe_raster_at depth rop (Some 0) (get_or source.now k None) (get_or row.old k None) }
{
    for k in 0..row.len() {
        row[k] = mixed(depth, rop, 0, source[k], row[k]);
    }
}
