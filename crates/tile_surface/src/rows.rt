//! Stretches of the picture's rows, read out of its tiles and written into them.
ghost use Rattle.std.specs.Prelude.{◌≡◌, ℕ, ◌+◌, ◌*◌, ◌-◌, ◌≤◌, ◌<◌, length, get_or, IsTrue};
ghost use Rattle.px_core.specs.Picture.{pixel_at};
ghost use Rattle.px_core.specs.Rectangle.{cut_out, is_inside};
ghost use Rattle.px_core.specs.Tiles.{tile_number};
ghost use Rattle.surface_parts.specs.Parts.{in_part, part_at, IsRepainted};
ghost use Rattle.tile_surface.specs.Cells.{picture_of, IsTiled};
ghost use Rattle.tile_surface.specs.Rows.{row_mixed, IsColored};
ghost use Rattle.tile_surface.specs.Ownership.{IsOwnAt, KeepsRest, OwnsPart};

use crate::cell::Cell;
use crate::cuts::cut_part;
use crate::tile::TILE_SIDE;
use px_core::{Rect, Size};
use surface_parts::part_of;

/// The number of tiles in a row of tiles.
pub(crate) const TILES_IN_ROW: usize = px_core::TILES_IN_ROW as usize;

/// `SRCCOPY`: the source.
pub(crate) const SRCCOPY: u8 = 0xCC;

/// `PATCOPY`: the pattern.
const PATCOPY: u8 = 0xF0;

/// The number of the tile of pixel (x, y).
#[inline(always)]
pub(crate) fn tile_number(x: usize, y: usize) -> usize
    requires column { x < 2048 }
    requires row { y < 2048 }
    ensures number { result ≡ tile_number x y }
    ensures bound { result < 1024 }
{
    TILES_IN_ROW * (y / TILE_SIDE) + x / TILE_SIDE
}

/// Copies the pixels of row y of the picture from column x on, as many as `out` has room for.
#[inline(always)]
pub(crate) fn read_row(cells: &[Cell], size: Size, x: usize, y: usize, out: &mut [u32])
    requires tiled { IsTiled size cells.now }
    requires columns { x + length out.old ≤ size.w }
    requires row { y < size.h }
    ensures { (k : ℕ) → k < length out.old → get_or out.new k 0 ≡ pixel_at size (picture_of size cells.now) 0 (x + k) y }
{
    let mut done = 0;
    while done < out.len() {
        let column = (x + done) % TILE_SIDE;
        let n = (TILE_SIDE - column).min(out.len() - done);
        let tile = tile_number(x + done, y);
        cells[tile].read(column, y % TILE_SIDE, &mut out[done..done + n]);
        done += n;
    }
}

/// Gives the pixels of row y of the picture from column x on the colours of `row`.
#[inline(always)]
pub(crate) fn write_row(cells: &mut [Cell], size: Size, x: usize, y: usize, row: &[u32])
    requires tiled { IsTiled size cells.old }
    requires columns { x + length row.now ≤ size.w }
    requires row { y < size.h }
    requires own { OwnsPart cells.old (part_at x y (length row.now) 1) }
    ensures painted { IsRepainted size (in_part (part_at x y (length row.now) 1)) (λ u v. get_or row.now (u - x) 0)
        (picture_of size cells.old) (picture_of size cells.new) }
    ensures kept { KeepsRest size cells.old cells.new }
{
    let mut done = 0;
    while done < row.len() {
        let column = (x + done) % TILE_SIDE;
        let n = (TILE_SIDE - column).min(row.len() - done);
        let tile = tile_number(x + done, y);
        cells[tile].write(column, y % TILE_SIDE, &row[done..done + n]);
        done += n;
    }
}

/// The raster operation of a code on the pixels of row y of the picture from column x on, as many as the rows of its operands have.
///
/// The codes that copy one operand read no other. All words of the operands are colours, so that their rows are copied as they are.
#[inline(always)]
pub(crate) fn mix_row(
    cells: &mut [Cell],
    size: Size,
    x: usize,
    y: usize,
    rop: u8,
    pattern: &[u32],
    source: &[u32],
)
    requires tiled { IsTiled size cells.old }
    requires columns { x + length pattern.now ≤ size.w }
    requires row { y < size.h }
    requires source { length source.now ≡ length pattern.now }
    requires pattern_colors { IsColored pattern.now }
    requires source_colors { IsColored source.now }
    requires own { OwnsPart cells.old (part_at x y (length pattern.now) 1) }
    ensures painted { IsRepainted size (in_part (part_at x y (length pattern.now) 1)) (row_mixed size (picture_of size cells.old) rop pattern.now source.now x)
        (picture_of size cells.old) (picture_of size cells.new) }
    ensures kept { KeepsRest size cells.old cells.new }
{
    match rop {
        SRCCOPY => write_row(cells, size, x, y, source),
        PATCOPY => write_row(cells, size, x, y, pattern),
        _ => mix_tiles(cells, size, x, y, rop, pattern, source),
    }
}

/// The raster operation of any code on the same pixels, one tile after another.
fn mix_tiles(
    cells: &mut [Cell],
    size: Size,
    x: usize,
    y: usize,
    rop: u8,
    pattern: &[u32],
    source: &[u32],
)
    requires tiled { IsTiled size cells.old }
    requires columns { x + length pattern.now ≤ size.w }
    requires row { y < size.h }
    requires source { length source.now ≡ length pattern.now }
    requires own { OwnsPart cells.old (part_at x y (length pattern.now) 1) }
    ensures painted { IsRepainted size (in_part (part_at x y (length pattern.now) 1)) (row_mixed size (picture_of size cells.old) rop pattern.now source.now x)
        (picture_of size cells.old) (picture_of size cells.new) }
    ensures kept { KeepsRest size cells.old cells.new }
{
    let mut done = 0;
    while done < pattern.len() {
        let column = (x + done) % TILE_SIDE;
        let n = (TILE_SIDE - column).min(pattern.len() - done);
        let tile = tile_number(x + done, y);
        let (p, s) = (&pattern[done..done + n], &source[done..done + n]);
        cells[tile].mix(column, y % TILE_SIDE, rop, p, s);
        done += n;
    }
}

/// Gives pixel (x, y) of the picture a colour.
pub(crate) fn write_dot(cells: &mut [Cell], size: Size, x: usize, y: usize, color: u32)
    requires tiled { IsTiled size cells.old }
    requires column { x < size.w }
    requires row { y < size.h }
    requires own { IsOwnAt cells.old x y }
    ensures painted { IsRepainted size (in_part (part_at x y 1 1)) (λ u v. color) (picture_of size cells.old) (picture_of size cells.new) }
    ensures kept { KeepsRest size cells.old cells.new }
{
    let tile = tile_number(x, y);
    cells[tile].write(x % TILE_SIDE, y % TILE_SIDE, &[color]);
}

/// Copies the pixels of a rectangle that lies on the surface, row by row from the top.
pub(crate) fn cut_rect(cells: &[Cell], size: Size, rect: Rect, out: &mut [u32])
    requires tiled { IsTiled size cells.now }
    requires inside { IsTrue (is_inside size rect) }
    requires room { length out.old ≡ rect.w * rect.h }
    ensures { out.new ≡ cut_out size (picture_of size cells.now) 0 rect }
{
    cut_part(cells, size, part_of(size, rect), out);
}
