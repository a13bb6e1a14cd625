//! Copies within the picture, row by row.
ghost use Rattle.std.specs.Prelude.{◌≡◌, ℕ, ◌+◌, ◌<◌, ◌≤◌, None, length, IsTrue};
ghost use Rattle.px_core.specs.Picture.{rows_of};
ghost use Rattle.px_core.specs.Rectangle.{in_clip, boxed, is_inside, IsPlaced};
ghost use Rattle.rop3_core.specs.Palette.{session_colors};
ghost use Rattle.draw_ops.specs.Fits.{clip_rule};
ghost use Rattle.draw_ops.specs.Formulas.{absent, picture_after, shifted};
ghost use Rattle.draw_ops.specs.Drawing.{mixing};
ghost use Rattle.surface_parts.specs.Operands.{IsBlank};
ghost use Rattle.surface_parts.specs.Parts.{in_part, part_at, IsCanvas, IsInside, IsRepainted};
ghost use Rattle.surface_parts.specs.Textures.{copied_color, IsSourceInside};

use lane_rop::rop_lanes;
use px_core::{Rect, Size};
use surface_parts::{Part, PictureCopy, Window, ready_pattern, source_place, visible};

/// The raster operation of a code on a rectangle, with the picture itself, from (sx, sy) on, as its source.
pub(crate) fn copy_rect(
    pixels: &mut [u32],
    window: Window,
    rect: Rect,
    rop: u8,
    sx: i32,
    sy: i32,
    pattern: &mut [u32],
    source: &mut [u32],
)
    requires canvas { IsCanvas window.size pixels.old }
    requires rect { IsPlaced rect }
    requires clip { clip_rule window.size window.clip ≡ None }
    requires inside { IsTrue (is_inside window.size (boxed sx sy rect.w rect.h)) }
    requires pattern { 2048 ≤ length pattern.old }
    requires source { 2048 ≤ length source.old }
    ensures { pixels.new ≡ picture_after window.size (in_clip window.clip)
        (mixing rect rop (absent session_colors) (shifted (rows_of window.size.w window.size.h pixels.old) 0 rect sx sy)) pixels.old }
{
    match visible(window, rect) {
        None => {}
        Some(part) => {
            let copy = PictureCopy {
                rop,
                x: source_place(part.x, rect.x, sx),
                y: source_place(part.y, rect.y, sy),
            };
            copy_part(
                pixels,
                window.size,
                part,
                copy,
                &mut pattern[..part.w],
                &mut source[..part.w],
            )
        }
    }
}

/// Makes each pixel of a part what a raster operation makes of it. Two rows of the part's width are for the operands of one row.
///
/// Where the source lies above the part, the lowest row goes first, so that no row is read after it was painted.
fn copy_part(
    pixels: &mut [u32],
    size: Size,
    part: Part,
    copy: PictureCopy,
    pattern: &mut [u32],
    source: &mut [u32],
)
    requires canvas { IsCanvas size pixels.old }
    requires inside { IsInside size part }
    requires from { IsSourceInside size part copy }
    requires pattern { length pattern.old ≡ part.w }
    requires source { length source.old ≡ part.w }
    ensures { IsRepainted size (in_part part) (copied_color size pixels.old part copy) pixels.old pixels.new }
{
    ready_pattern(pattern, None);
    if copy.y < part.y {
        copy_upwards(pixels, size, part, copy, pattern, source)
    } else {
        copy_downwards(pixels, size, part, copy, pattern, source)
    }
}

/// Copies the rows of a part from the highest one on.
fn copy_downwards(
    pixels: &mut [u32],
    size: Size,
    part: Part,
    copy: PictureCopy,
    pattern: &[u32],
    source: &mut [u32],
)
    requires canvas { IsCanvas size pixels.old }
    requires inside { IsInside size part }
    requires from { IsSourceInside size part copy }
    requires not_above { part.y ≤ copy.y }
    requires pattern { length pattern.now ≡ part.w }
    requires blank { IsBlank pattern.now }
    requires source { length source.old ≡ part.w }
    ensures { IsRepainted size (in_part part) (copied_color size pixels.old part copy) pixels.old pixels.new }
{
    for k in 0..part.h {
        copy_row(pixels, size, part, copy, part.y + k, pattern, source);
    }
}

/// Copies the rows of a part from the lowest one on.
fn copy_upwards(
    pixels: &mut [u32],
    size: Size,
    part: Part,
    copy: PictureCopy,
    pattern: &[u32],
    source: &mut [u32],
)
    requires canvas { IsCanvas size pixels.old }
    requires inside { IsInside size part }
    requires from { IsSourceInside size part copy }
    requires above { copy.y ≤ part.y }
    requires pattern { length pattern.now ≡ part.w }
    requires blank { IsBlank pattern.now }
    requires source { length source.old ≡ part.w }
    ensures { IsRepainted size (in_part part) (copied_color size pixels.old part copy) pixels.old pixels.new }
{
    for k in 0..part.h {
        copy_row(
            pixels,
            size,
            part,
            copy,
            part.y + (part.h - 1 - k),
            pattern,
            source,
        );
    }
}

/// Copies row y of a part.
fn copy_row(
    pixels: &mut [u32],
    size: Size,
    part: Part,
    copy: PictureCopy,
    y: usize,
    pattern: &[u32],
    source: &mut [u32],
)
    requires canvas { IsCanvas size pixels.old }
    requires inside { IsInside size part }
    requires from { IsSourceInside size part copy }
    requires above { part.y ≤ y }
    requires below { y < part.y + part.h }
    requires pattern { length pattern.now ≡ part.w }
    requires blank { IsBlank pattern.now }
    requires source { length source.old ≡ part.w }
    ensures { IsRepainted size (in_part (part_at part.x y part.w 1)) (copied_color size pixels.old part copy) pixels.old pixels.new }
{
    let width = size.w as usize;
    let from = width * (copy.y + (y - part.y)) + copy.x;
    source.copy_from_slice(&pixels[from..from + part.w]);
    let at = width * y + part.x;
    rop_lanes(copy.rop, pattern, source, &mut pixels[at..at + part.w]);
}
