//! Raster operations by rows.
ghost use Rattle.std.specs.Prelude.{◌≡◌, ℕ, ◌+◌, ◌*◌, ◌%◌, ◌<◌, ◌≤◌, length, get_or, pos, IfSome, option_copied};
ghost use Rattle.draw_ops.specs.Drawing.{pattern_of};
ghost use Rattle.surface_parts.specs.Operands.{IsReady};
ghost use Rattle.surface_parts.specs.Parts.{in_part, IsCanvas, IsInside, IsRepainted};
ghost use Rattle.surface_parts.specs.Textures.{source_color, mixed_color, CoversPart};

use crate::part::Part;
use crate::texture::Texture;
use draw_ops::Brush;
use lane_rop::rop_lanes;
use px_core::Size;

/// The columns, and the rows, of a brush.
const BRUSH_SIDE: usize = 8;

/// A raster operation by its code, with a brush as its pattern and a texture as its source; one that is missing counts as 0.
#[derive(Clone, Copy)]
pub struct Mix<'a> {
    pub rop: u8,
    pub brush: Option<&'a Brush>,
    pub texture: Option<Texture<'a>>,
}

/// Makes each pixel of a part what a raster operation makes of it. Two rows of the part's width are for the operands of one row.
pub fn mix_part(
    pixels: &mut [u32],
    size: Size,
    part: Part,
    mix: Mix,
    pattern: &mut [u32],
    source: &mut [u32],
)
    requires canvas { IsCanvas size pixels.old }
    requires inside { IsInside size part }
    requires texture { IfSome mix.texture (CoversPart part) }
    requires pattern { length pattern.old ≡ part.w }
    requires source { length source.old ≡ part.w }
    ensures { IsRepainted size (in_part part) (mixed_color size pixels.old part mix.entry) pixels.old pixels.new }
{
    let width = size.w as usize;
    ready_pattern(pattern, mix.brush);
    ready_source(source, mix.texture);
    for y in part.y..part.y + part.h {
        set_pattern(pattern, mix.brush, part.x, y);
        set_source(source, mix.texture, part, y);
        let at = width * y + part.x;
        rop_lanes(mix.rop, pattern, source, &mut pixels[at..at + part.w]);
    }
}

/// Clears the row of a pattern that is missing.
pub fn ready_pattern(row: &mut [u32], brush: Option<&Brush>)
    ensures { IsReady (option_copied brush.entry) row.new }
{
    if brush.is_none() {
        row.fill(0);
    }
}

/// Clears the row of a source that is missing.
pub fn ready_source(row: &mut [u32], texture: Option<Texture>)
    ensures { IsReady texture.entry row.new }
{
    if texture.is_none() {
        row.fill(0);
    }
}

/// The pattern of row y from column x on: a brush's, or 0, which the row has already.
pub fn set_pattern(row: &mut [u32], brush: Option<&Brush>, x: usize, y: usize)
    requires short { x + length row.old ≤ 65536 }
    requires ready { IsReady (option_copied brush) row.old }
    ensures colors { (k : ℕ) → k < length row.old → get_or row.new k 0 ≡ pattern_of (option_copied brush.entry) (pos (x + k)) (pos y) }
    ensures ready { IsReady (option_copied brush.entry) row.new }
{
    match brush {
        None => {}
        Some(brush) => repeat_brush(row, brush.pixels(), x, y),
    }
}

/// Row y of a brush from column x on, as often as it fits.
fn repeat_brush(row: &mut [u32], brush: &[u32], x: usize, y: usize)
    requires short { x + length row.old ≤ 65536 }
    requires brush { length brush.now ≡ 64 }
    ensures { (k : ℕ) → k < length row.old → get_or row.new k 0 ≡ get_or brush.now (8 * (y % 8) + (x + k) % 8) 0 }
{
    begin_brush(row, brush, x, y);
    repeat_columns(row);
}

/// Row y of a brush from column x on, once.
fn begin_brush(row: &mut [u32], brush: &[u32], x: usize, y: usize)
    requires short { x + length row.old ≤ 65536 }
    requires brush { length brush.now ≡ 64 }
    ensures { (k : ℕ) → k < length row.old → k < 8 → get_or row.new k 0 ≡ get_or brush.now (8 * (y % 8) + (x + k) % 8) 0 }
{
    let from = BRUSH_SIDE * (y % BRUSH_SIDE);
    for k in 0..row.len().min(BRUSH_SIDE) {
        row[k] = brush[from + (x + k) % BRUSH_SIDE];
    }
}

/// Repeats the first columns of a row, as many as a brush has.
fn repeat_columns(row: &mut [u32])
    requires { length row.old ≤ 65536 }
    ensures { (k : ℕ) → k < length row.old → get_or row.new k 0 ≡ get_or row.old (k % 8) 0 }
{
    for k in BRUSH_SIDE..row.len() {
        row[k] = row[k - BRUSH_SIDE];
    }
}

/// The source of row y of a part: a texture's row, or 0, which the row has already.
pub fn set_source(row: &mut [u32], texture: Option<Texture>, part: Part, y: usize)
    requires wide { length row.old ≡ part.w }
    requires above { part.y ≤ y }
    requires below { y < part.y + part.h }
    requires texture { IfSome texture (CoversPart part) }
    requires ready { IsReady texture row.old }
    ensures colors { (k : ℕ) → k < part.w → get_or row.new k 0 ≡ source_color part texture.entry (part.x + k) y }
    ensures ready { IsReady texture.entry row.new }
{
    match texture {
        None => {}
        Some(texture) => {
            let from = texture.w * (texture.y + (y - part.y)) + texture.x;
            row.copy_from_slice(&texture.pixels[from..from + part.w]);
        }
    }
}
