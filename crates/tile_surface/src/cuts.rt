//! Parts that are copied out of the tiles, tile by tile.
ghost use Rattle.std.specs.Prelude.{◌≡◌, ◌+◌, ◌*◌, ◌-◌, ◌≤◌, ◌<◌, ◌%◌, length};
ghost use Rattle.px_core.specs.Picture.{pixel_at};
ghost use Rattle.surface_parts.specs.Parts.{in_part, part_at, IsCanvas, IsInside, IsRepainted};
ghost use Rattle.tile_surface.specs.Cells.{picture_of, IsTiled};
ghost use Rattle.tile_surface.specs.Rows.{cut_color, sides_of};

use crate::cell::Cell;
use crate::rows::tile_number;
use crate::tile::TILE_SIDE;
use lane_rop::fill_lanes;
use px_core::Size;
use surface_parts::Part;

/// Copies the pixels of a part, row by row from the top, one row of tiles after another.
pub(crate) fn cut_part(cells: &[Cell], size: Size, part: Part, out: &mut [u32])
    requires tiled { IsTiled size cells.now }
    requires inside { IsInside size part }
    requires room { length out.old ≡ part.w * part.h }
    ensures { IsRepainted (sides_of part) (in_part (part_at 0 0 part.w part.h)) (cut_color size (picture_of size cells.now) part) out.old out.new }
{
    let sides = Size {
        w: part.w as u32,
        h: part.h as u32,
    };
    let mut done = 0;
    while done < part.h {
        let y = part.y + done;
        let h = (TILE_SIDE - y % TILE_SIDE).min(part.h - done);
        let band = Part { y, h, ..part };
        cut_band(cells, size, band, sides, done, out);
        done += h;
    }
}

/// Copies the pixels of a part that lies in one row of tiles into a picture of its width, from one of its rows on, one tile after another.
fn cut_band(cells: &[Cell], size: Size, band: Part, sides: Size, row: usize, out: &mut [u32])
    requires tiled { IsTiled size cells.now }
    requires inside { IsInside size band }
    requires some { 0 < band.h }
    requires one { band.y % 64 + band.h ≤ 64 }
    requires canvas { IsCanvas sides out.old }
    requires wide { sides.w ≡ band.w }
    requires low { row + band.h ≤ sides.h }
    ensures { IsRepainted sides (in_part (part_at 0 row band.w band.h))
        (λ u v. pixel_at size (picture_of size cells.now) 0 (band.x + u) (band.y + (v - row))) out.old out.new }
{
    let top = band.y % TILE_SIDE;
    let mut done = 0;
    while done < band.w {
        let x = band.x + done;
        let column = x % TILE_SIDE;
        let w = (TILE_SIDE - column).min(band.w - done);
        let spot = Part {
            x: done,
            y: row,
            w,
            h: band.h,
        };
        let tile = tile_number(x, band.y);
        cells[tile].cut(column, top, spot, sides, out);
        done += w;
    }
}

/// Makes every pixel of a part black.
pub(crate) fn clear_part(pixels: &mut [u32], size: Size, part: Part)
    requires canvas { IsCanvas size pixels.old }
    requires inside { IsInside size part }
    ensures { IsRepainted size (in_part part) (λ x y. 0) pixels.old pixels.new }
{
    let width = size.w as usize;
    for y in part.y..part.y + part.h {
        let at = width * y + part.x;
        fill_lanes(&mut pixels[at..at + part.w], 0);
    }
}
