//! One walk over the pieces of a part, one in each tile, for all that gives its pixels new colours.
ghost use Rattle.std.specs.Prelude.{◌≡◌, ℕ, ◌+◌, ◌≤◌, ◌<◌, ◌%◌, length};
ghost use Rattle.surface_parts.specs.declared.part.Part.{Part};
ghost use Rattle.surface_parts.specs.Parts.{in_part, IsInside, IsRepainted};
ghost use Rattle.tile_surface.specs.Cells.{cell_pixels, picture_of, tile_sides, IsTiled};
ghost use Rattle.tile_surface.specs.Dyes.{dyed, dyed_there, IsBandOf, IsPieceOf};
ghost use Rattle.tile_surface.specs.Ownership.{IsOwn, KeepsRest, OwnsPart};

use crate::cell::Cell;
use crate::rows::tile_number;
use crate::tile::TILE_SIDE;
use px_core::Size;
use surface_parts::Part;

/// A piece of a part that lies in one tile: its spot there, and the picture's pixel that is its upper left one.
#[derive(Clone, Copy)]
pub(crate) struct Piece {
    pub(crate) spot: Part,
    pub(crate) x: usize,
    pub(crate) y: usize,
}

/// Gives each pixel of a part a colour by its column, its row and what it was.
pub(crate) trait Dye {
    ghost fits: { Self → Part → Type 0 };

    ghost color: { Self → Part → ℕ → ℕ → ℕ → ℕ };

    /// Does so to the pixels of a piece of a part, whose tile is the surface's own.
    fn dye(&self, cell: &mut Cell, part: Part, piece: Piece)
        requires fits { fits self.now part }
        requires own { IsOwn cell.old }
        requires piece { IsPieceOf part piece }
        ensures own { IsOwn cell.new }
        ensures painted { IsRepainted tile_sides (in_part piece.spot) (dyed_there (color self.now part) piece (cell_pixels cell.old))
            (cell_pixels cell.old) (cell_pixels cell.new) };
}

/// Gives every pixel of a part the colour that a dye has for it, one row of tiles after another.
pub(crate) fn dye_part<D: Dye>(cells: &mut [Cell], size: Size, part: Part, dye: &D)
    requires tiled { IsTiled size cells.old }
    requires inside { IsInside size part }
    requires own { OwnsPart cells.old part }
    requires fits { D.fits dye.now part }
    ensures painted { IsRepainted size (in_part part) (dyed (D.color dye.now part) size (picture_of size cells.old)) (picture_of size cells.old)
        (picture_of size cells.new) }
    ensures kept { KeepsRest size cells.old cells.new }
{
    let mut done = 0;
    while done < part.h {
        let y = part.y + done;
        let h = (TILE_SIDE - y % TILE_SIDE).min(part.h - done);
        let band = Part { y, h, ..part };
        dye_band(cells, size, part, band, dye);
        done += h;
    }
}

/// The same of a part's rows that lie in one row of tiles, one tile after another.
fn dye_band<D: Dye>(cells: &mut [Cell], size: Size, part: Part, band: Part, dye: &D)
    requires tiled { IsTiled size cells.old }
    requires inside { IsInside size band }
    requires some { 0 < band.h }
    requires one { band.y % 64 + band.h ≤ 64 }
    requires own { OwnsPart cells.old band }
    requires band { IsBandOf part band }
    requires fits { D.fits dye.now part }
    ensures painted { IsRepainted size (in_part band) (dyed (D.color dye.now part) size (picture_of size cells.old)) (picture_of size cells.old)
        (picture_of size cells.new) }
    ensures kept { KeepsRest size cells.old cells.new }
{
    let top = band.y % TILE_SIDE;
    let mut done = 0;
    while done < band.w {
        let x = band.x + done;
        let column = x % TILE_SIDE;
        let w = (TILE_SIDE - column).min(band.w - done);
        let spot = Part {
            x: column,
            y: top,
            w,
            h: band.h,
        };
        let piece = Piece { spot, x, y: band.y };
        let tile = tile_number(x, band.y);
        dye.dye(&mut cells[tile], part, piece);
        done += w;
    }
}
