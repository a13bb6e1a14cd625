//! Raster operations by rows.
ghost use Rattle.std.specs.Prelude.{◌≡◌, ℕ, ◌+◌, ◌<◌, ◌≤◌, Some, None, pos, length, get_or, IfSome, option_copied};
ghost use Rattle.px_core.specs.declared.depth.Depth.TheVariants.{Bits24};
ghost use Rattle.draw_ops.specs.Depths.{maybe_raster_at};
ghost use Rattle.client_picture.specs.Parts.{in_part, IsCanvas, IsInside, IsRepainted};
ghost use Rattle.client_picture.specs.Pictures.{brush_operand};
ghost use Rattle.client_picture.specs.Sources.{copied, source_color, texture_color, mixed_color, CoversPart};

use crate::Pixel;
use crate::corner::Corner;
use crate::part::Part;
use crate::pixel::{SOURCE_COPY, copied_color, over_source};
use draw_ops::Brush;
use px_core::{Depth, Size};

/// The columns, and the rows, of a brush.
const BRUSH_SIDE: usize = 8;

/// The colours of an image, row by row from the top, and which of them belongs to the upper left pixel of a part.
#[derive(Clone, Copy)]
pub(crate) struct Texture<'a> {
    pub(crate) pixels: &'a [u32],
    pub(crate) w: usize,
    pub(crate) from: Corner,
}

/// A raster operation by its depth and its code, with a brush as its pattern and an image as its source; one that is missing counts as 0.
#[derive(Clone, Copy)]
pub(crate) struct Mix<'a> {
    pub(crate) depth: Depth,
    pub(crate) rop: u8,
    pub(crate) brush: Option<&'a Brush>,
    pub(crate) texture: Option<Texture<'a>>,
}

/// Makes each pixel of a part what a raster operation makes of it.
pub(crate) fn mix_part(pixels: &mut [Pixel], size: Size, part: Part, mix: Mix)
    requires canvas { IsCanvas size pixels.old }
    requires inside { IsInside size part }
    requires texture { IfSome mix.texture (CoversPart part) }
    ensures { IsRepainted size (in_part part) (mixed_color size pixels.old part mix.entry) pixels.old pixels.new }
{
    let width = size.w as usize;
    for y in part.y..part.y + part.h {
        let at = width * y + part.x;
        mix_row(&mut pixels[at..at + part.w], part, y, mix);
    }
}

/// Makes each pixel of row y of a part what a raster operation makes of it.
fn mix_row(row: &mut [Pixel], part: Part, y: usize, mix: Mix)
    requires wide { length row.old ≡ part.w }
    requires columns { part.x + part.w ≤ 65535 }
    requires above { part.y ≤ y }
    requires below { y < part.y + part.h }
    requires texture { IfSome mix.texture (CoversPart part) }
    ensures { (k : ℕ) → k < length row.old
        → get_or row.new k None ≡ maybe_raster_at mix.entry.depth mix.entry.rop (brush_operand (option_copied mix.entry.brush) (pos (part.x + k)) (pos y))
        (Some (source_color part mix.entry.texture (part.x + k) y)) (get_or row.old k None) }
{
    match mix.depth {
        Depth::Bits24 => mix_row_24(row, part, y, mix),
        Depth::Bits16 => mix_pixels(row, part, y, Depth::Bits16, mix),
    }
}

/// The same at 24 bits, where a copy needs no operation.
fn mix_row_24(row: &mut [Pixel], part: Part, y: usize, mix: Mix)
    requires wide { length row.old ≡ part.w }
    requires columns { part.x + part.w ≤ 65535 }
    requires above { part.y ≤ y }
    requires below { y < part.y + part.h }
    requires texture { IfSome mix.texture (CoversPart part) }
    ensures { (k : ℕ) → k < length row.old
        → get_or row.new k None ≡ maybe_raster_at Bits24 mix.entry.rop (brush_operand (option_copied mix.entry.brush) (pos (part.x + k)) (pos y))
        (Some (source_color part mix.entry.texture (part.x + k) y)) (get_or row.old k None) }
{
    match mix.texture {
        Some(texture) if mix.rop == SOURCE_COPY => copy_row(row, part, y, texture),
        _ => mix_pixels(row, part, y, Depth::Bits24, mix),
    }
}

/// Copies an image of 24 bits over row y of a part.
fn copy_row(row: &mut [Pixel], part: Part, y: usize, texture: Texture)
    requires wide { length row.old ≡ part.w }
    requires above { part.y ≤ y }
    requires below { y < part.y + part.h }
    requires texture { CoversPart part texture }
    ensures { (k : ℕ) → k < length row.old → get_or row.new k None ≡ copied (Some (texture_color part texture.entry (part.x + k) y)) }
{
    let from = texture.w * (texture.from.y + (y - part.y)) + texture.from.x;
    copy_colors(row, &texture.pixels[from..from + part.w]);
}

/// Copies colours of 24 bits over a row.
fn copy_colors(row: &mut [Pixel], colors: &[u32])
    requires { length colors.now ≡ length row.old }
    ensures { (k : ℕ) → k < length row.old → get_or row.new k None ≡ copied (Some (get_or colors.now k 0)) }
{
    for k in 0..row.len() {
        row[k] = copied_color(colors[k]);
    }
}

/// Mixes row y of a part at a depth, pixel by pixel.
#[inline(always)]
fn mix_pixels(row: &mut [Pixel], part: Part, y: usize, depth: Depth, mix: Mix)
    requires wide { length row.old ≡ part.w }
    requires columns { part.x + part.w ≤ 65535 }
    requires above { part.y ≤ y }
    requires below { y < part.y + part.h }
    requires texture { IfSome mix.texture (CoversPart part) }
    ensures { (k : ℕ) → k < length row.old
        → get_or row.new k None ≡ maybe_raster_at depth mix.entry.rop (brush_operand (option_copied mix.entry.brush) (pos (part.x + k)) (pos y))
        (Some (source_color part mix.entry.texture (part.x + k) y)) (get_or row.old k None) }
{
    for k in 0..row.len() {
        let x = part.x + k;
        let pattern = brush_color(mix.brush, x, y);
        let source = texture_color(mix.texture, part, x, y);
        row[k] = over_source(depth, mix.rop, pattern, source, row[k]);
    }
}

/// The colour of a brush at a pixel: 0 where it is missing.
fn brush_color(brush: Option<&Brush>, x: usize, y: usize) -> u32
    ensures { Some result ≡ brush_operand (option_copied brush.entry) (pos x) (pos y) }
{
    match brush {
        None => 0,
        Some(brush) => brush.pixels()[BRUSH_SIDE * (y % BRUSH_SIDE) + x % BRUSH_SIDE],
    }
}

/// The colour of an image for a pixel of a part: 0 where it is missing.
fn texture_color(texture: Option<Texture>, part: Part, x: usize, y: usize) -> u32
    requires texture { IfSome texture (CoversPart part) }
    requires left { part.x ≤ x }
    requires right { x < part.x + part.w }
    requires above { part.y ≤ y }
    requires below { y < part.y + part.h }
    ensures { result ≡ source_color part texture.entry x y }
{
    match texture {
        None => 0,
        Some(texture) => {
            let from = texture.from;
            texture.pixels[texture.w * (from.y + (y - part.y)) + (from.x + (x - part.x))]
        }
    }
}
