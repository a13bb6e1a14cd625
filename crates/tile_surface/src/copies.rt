//! Copies within the picture, row by row, on tiles that are the surface's own.
ghost use Rattle.std.specs.Prelude.{◌≡◌, ℕ, ◌+◌, ◌*◌, ◌<◌, ◌≤◌, None, length, IsTrue};
ghost use Rattle.px_core.specs.Colors.{are_colors};
ghost use Rattle.px_core.specs.Picture.{both, rows_of};
ghost use Rattle.px_core.specs.Rectangle.{in_clip, in_rect, boxed, is_inside, IsPlaced};
ghost use Rattle.rop3_core.specs.Palette.{session_colors};
ghost use Rattle.draw_ops.specs.Fits.{clip_rule};
ghost use Rattle.draw_ops.specs.Formulas.{absent, picture_after, shifted};
ghost use Rattle.draw_ops.specs.Drawing.{mixing};
ghost use Rattle.surface_parts.specs.Operands.{IsBlank};
ghost use Rattle.surface_parts.specs.Parts.{in_part, part_at, IsInside, IsRepainted};
ghost use Rattle.surface_parts.specs.Textures.{copied_color, IsSourceInside};
ghost use Rattle.tile_surface.specs.Cells.{picture_of, IsTiled};
ghost use Rattle.tile_surface.specs.Rows.{HasColoredPixels};
ghost use Rattle.tile_surface.specs.Ownership.{KeepsRest, OwnsArea, OwnsPart};

use crate::cell::Cell;
use crate::cuts::cut_part;
use crate::mixes::blend_part;
use crate::pastes::paste_part;
use crate::rows::{SRCCOPY, mix_row, read_row};
use px_core::{Rect, Size};
use surface_parts::{Part, PictureCopy, Texture, Window, ready_pattern, source_place, visible};

/// The most pixels that are read at once, which one row for an operand has room for.
const FEW: usize = 2_048;

/// The raster operation of a code on a rectangle, with the picture itself, from (sx, sy) on, as its source. The two rows are for the
/// operands of one row.
pub(crate) fn copy_rect(
    cells: &mut [Cell],
    window: Window,
    rect: Rect,
    rop: u8,
    sx: i32,
    sy: i32,
    pattern: &mut [u32],
    source: &mut [u32],
)
    requires tiled { IsTiled window.size cells.old }
    requires colors { IsTrue (are_colors (picture_of window.size cells.old)) }
    requires rect { IsPlaced rect }
    requires clip { clip_rule window.size window.clip ≡ None }
    requires inside { IsTrue (is_inside window.size (boxed sx sy rect.w rect.h)) }
    requires own { OwnsArea window.size cells.old (both (in_clip window.clip) (in_rect rect)) }
    requires pattern { 2048 ≤ length pattern.old }
    requires source { 2048 ≤ length source.old }
    ensures painted { picture_of window.size cells.new ≡ picture_after window.size (in_clip window.clip) (mixing rect rop (absent session_colors)
        (shifted (rows_of window.size.w window.size.h (picture_of window.size cells.old)) 0 rect sx sy)) (picture_of window.size cells.old) }
    ensures kept { KeepsRest window.size cells.old cells.new }
{
    match visible(window, rect) {
        None => {}
        Some(part) => {
            let copy = PictureCopy {
                rop,
                x: source_place(part.x, rect.x, sx),
                y: source_place(part.y, rect.y, sy),
            };
            copy_part(cells, window.size, part, copy, pattern, source)
        }
    }
}

/// Makes each pixel of a part what a raster operation makes of it. The two rows are for its operands.
///
/// A few pixels are read at once, and then written tile by tile.
fn copy_part(
    cells: &mut [Cell],
    size: Size,
    part: Part,
    copy: PictureCopy,
    pattern: &mut [u32],
    source: &mut [u32],
)
    requires tiled { IsTiled size cells.old }
    requires colors { HasColoredPixels size (picture_of size cells.old) }
    requires inside { IsInside size part }
    requires from { IsSourceInside size part copy }
    requires own { OwnsPart cells.old part }
    requires pattern { 2048 ≤ length pattern.old }
    requires source { 2048 ≤ length source.old }
    ensures painted { IsRepainted size (in_part part) (copied_color size (picture_of size cells.old) part copy)
        (picture_of size cells.old) (picture_of size cells.new) }
    ensures kept { KeepsRest size cells.old cells.new }
{
    let count = part.w * part.h;
    if count > FEW {
        copy_rows(
            cells,
            size,
            part,
            copy,
            &mut pattern[..part.w],
            &mut source[..part.w],
        )
    } else if copy.rop == SRCCOPY {
        copy_few(cells, size, part, copy, &mut source[..count])
    } else {
        mix_few(cells, size, part, copy, &mut source[..count])
    }
}

/// Copies the pixels of a part, all of which are read, into a list of as many, before any is written.
fn copy_few(cells: &mut [Cell], size: Size, part: Part, copy: PictureCopy, read: &mut [u32])
    requires tiled { IsTiled size cells.old }
    requires colors { HasColoredPixels size (picture_of size cells.old) }
    requires inside { IsInside size part }
    requires from { IsSourceInside size part copy }
    requires code { copy.rop ≡ 0xCC }
    requires own { OwnsPart cells.old part }
    requires room { length read.old ≡ part.w * part.h }
    ensures painted { IsRepainted size (in_part part) (copied_color size (picture_of size cells.old) part copy)
        (picture_of size cells.old) (picture_of size cells.new) }
    ensures kept { KeepsRest size cells.old cells.new }
{
    let from = Part {
        x: copy.x,
        y: copy.y,
        ..part
    };
    cut_part(cells, size, from, read);
    let texture = Texture {
        pixels: read,
        w: part.w,
        x: 0,
        y: 0,
    };
    paste_part(cells, size, part, texture);
}

/// Makes each pixel of a part what a raster operation makes of it, where all pixels of its source are read, into a list of as many, before
/// any is written.
fn mix_few(cells: &mut [Cell], size: Size, part: Part, copy: PictureCopy, read: &mut [u32])
    requires tiled { IsTiled size cells.old }
    requires inside { IsInside size part }
    requires from { IsSourceInside size part copy }
    requires own { OwnsPart cells.old part }
    requires room { length read.old ≡ part.w * part.h }
    ensures painted { IsRepainted size (in_part part) (copied_color size (picture_of size cells.old) part copy)
        (picture_of size cells.old) (picture_of size cells.new) }
    ensures kept { KeepsRest size cells.old cells.new }
{
    let from = Part {
        x: copy.x,
        y: copy.y,
        ..part
    };
    cut_part(cells, size, from, read);
    let texture = Texture {
        pixels: read,
        w: part.w,
        x: 0,
        y: 0,
    };
    blend_part(cells, size, part, copy.rop, None, texture);
}

/// Makes each pixel of a part what a raster operation makes of it. Two rows of the part's width are for the operands of one row.
///
/// Where the source lies above the part, the lowest row goes first, so that no row is read after it was painted.
fn copy_rows(
    cells: &mut [Cell],
    size: Size,
    part: Part,
    copy: PictureCopy,
    pattern: &mut [u32],
    source: &mut [u32],
)
    requires tiled { IsTiled size cells.old }
    requires colors { HasColoredPixels size (picture_of size cells.old) }
    requires inside { IsInside size part }
    requires from { IsSourceInside size part copy }
    requires own { OwnsPart cells.old part }
    requires pattern { length pattern.old ≡ part.w }
    requires source { length source.old ≡ part.w }
    ensures painted { IsRepainted size (in_part part) (copied_color size (picture_of size cells.old) part copy)
        (picture_of size cells.old) (picture_of size cells.new) }
    ensures kept { KeepsRest size cells.old cells.new }
{
    ready_pattern(pattern, None);
    if copy.y < part.y {
        copy_upwards(cells, size, part, copy, pattern, source)
    } else {
        copy_downwards(cells, size, part, copy, pattern, source)
    }
}

/// Copies the rows of a part from the highest one on.
fn copy_downwards(
    cells: &mut [Cell],
    size: Size,
    part: Part,
    copy: PictureCopy,
    pattern: &[u32],
    source: &mut [u32],
)
    requires tiled { IsTiled size cells.old }
    requires colors { HasColoredPixels size (picture_of size cells.old) }
    requires inside { IsInside size part }
    requires from { IsSourceInside size part copy }
    requires not_above { part.y ≤ copy.y }
    requires own { OwnsPart cells.old part }
    requires pattern { length pattern.now ≡ part.w }
    requires blank { IsBlank pattern.now }
    requires source { length source.old ≡ part.w }
    ensures painted { IsRepainted size (in_part part) (copied_color size (picture_of size cells.old) part copy)
        (picture_of size cells.old) (picture_of size cells.new) }
    ensures kept { KeepsRest size cells.old cells.new }
{
    for k in 0..part.h {
        copy_row(cells, size, part, copy, part.y + k, pattern, source);
    }
}

/// Copies the rows of a part from the lowest one on.
fn copy_upwards(
    cells: &mut [Cell],
    size: Size,
    part: Part,
    copy: PictureCopy,
    pattern: &[u32],
    source: &mut [u32],
)
    requires tiled { IsTiled size cells.old }
    requires colors { HasColoredPixels size (picture_of size cells.old) }
    requires inside { IsInside size part }
    requires from { IsSourceInside size part copy }
    requires above { copy.y ≤ part.y }
    requires own { OwnsPart cells.old part }
    requires pattern { length pattern.now ≡ part.w }
    requires blank { IsBlank pattern.now }
    requires source { length source.old ≡ part.w }
    ensures painted { IsRepainted size (in_part part) (copied_color size (picture_of size cells.old) part copy)
        (picture_of size cells.old) (picture_of size cells.new) }
    ensures kept { KeepsRest size cells.old cells.new }
{
    for k in 0..part.h {
        copy_row(
            cells,
            size,
            part,
            copy,
            part.y + (part.h - 1 - k),
            pattern,
            source,
        );
    }
}

/// Copies row y of a part: its source is read whole before any of it is written.
#[inline(always)]
fn copy_row(
    cells: &mut [Cell],
    size: Size,
    part: Part,
    copy: PictureCopy,
    y: usize,
    pattern: &[u32],
    source: &mut [u32],
)
    requires tiled { IsTiled size cells.old }
    requires colors { HasColoredPixels size (picture_of size cells.old) }
    requires inside { IsInside size part }
    requires from { IsSourceInside size part copy }
    requires above { part.y ≤ y }
    requires below { y < part.y + part.h }
    requires own { OwnsPart cells.old part }
    requires pattern { length pattern.now ≡ part.w }
    requires blank { IsBlank pattern.now }
    requires source { length source.old ≡ part.w }
    ensures painted { IsRepainted size (in_part (part_at part.x y part.w 1)) (copied_color size (picture_of size cells.old) part copy)
        (picture_of size cells.old) (picture_of size cells.new) }
    ensures kept { KeepsRest size cells.old cells.new }
{
    read_row(cells, size, copy.x, copy.y + (y - part.y), source);
    mix_row(cells, size, part.x, y, copy.rop, pattern, source);
}
