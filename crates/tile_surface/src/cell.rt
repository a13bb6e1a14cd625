//! Where a tile is.
ghost use Rattle.std.specs.Prelude.{◌≡◌, ℕ, ◌+◌, ◌*◌, ◌-◌, ◌≤◌, ◌<◌, IfOk, OnOk, length, get_or, option_copied};
ghost use Rattle.std.specs.Bool.{OnTrue};
ghost use Rattle.px_core.specs.Picture.{pixel_at};
ghost use Rattle.surface_parts.specs.Bits.{ink_color, HasBits};
ghost use Rattle.surface_parts.specs.Parts.{in_part, part_at, IsCanvas, IsInside, IsRepainted};
ghost use Rattle.surface_parts.specs.Textures.{texture_color, CoversPart};
ghost use Rattle.tile_surface.specs.Blended.{blended_color};
ghost use Rattle.tile_surface.specs.Cells.{cell_pixels, tile_sides};
ghost use Rattle.tile_surface.specs.Rows.{row_mixed};
ghost use Rattle.tile_surface.specs.Ownership.{IsOwn};

use crate::cuts::clear_part;
use crate::lent::LentTile;
use crate::tile::Tile;
use draw_ops::Brush;
use px_core::Size;
use std::alloc::Global;
use std::sync::Arc;
use surface_parts::{Bits, Part, Texture};
use wire_num::OutOfMemory;

/// A tile that only the surface has, or one behind an `Arc`, which takes may share. A blank one is black and takes no memory.
#[derive(Drop)]
pub(crate) enum Cell {
    Blank,
    Own(Tile),
    Shared(LentTile),
}

impl Cell {
    /// The cell with its tile in a box of the surface's own where memory was left, and whether it is.
    ///
    /// A tile whose other handles are gone is taken back without a copy.
    pub(crate) fn owned(self, alloc: Global) -> (Cell, Result<(), OutOfMemory>)
        ensures same { cell_pixels result.0 ≡ cell_pixels self }
        ensures own { OnOk result.1 (IsOwn result.0) }
        ensures stays { IsOwn self → IsOwn result.0 }
    {
        match self {
            Cell::Own(tile) => (Cell::Own(tile), Ok(())),
            Cell::Blank => match Tile::black(alloc) {
                Ok(tile) => (Cell::Own(tile), Ok(())),
                Err(fault) => (Cell::Blank, Err(fault)),
            },
            Cell::Shared(lent) => match lent.taken_back() {
                Ok(tile) => (Cell::Own(tile), Ok(())),
                Err(shared) => match shared.copy(alloc) {
                    Ok(tile) => (Cell::Own(tile), Ok(())),
                    Err(fault) => (Cell::Shared(LentTile::bare(shared)), Err(fault)),
                },
            },
        }
    }

    /// The cell with its tile behind an `Arc` where memory was left, and a further handle.
    pub(crate) fn lent(self, alloc: Global) -> (Cell, Result<LentTile, OutOfMemory>)
        ensures same { cell_pixels result.0 ≡ cell_pixels self }
        ensures lent { IfOk result.1 (λ tile. tile ≡ cell_pixels self) }
        ensures sized { IfOk result.1 (λ tile. length tile ≡ 4096) }
    {
        match self {
            Cell::Shared(shared) => lend_shared(shared),
            Cell::Own(tile) => lend_own(tile, alloc),
            Cell::Blank => match Tile::black(alloc) {
                Ok(tile) => lend_own(tile, alloc),
                Err(fault) => (Cell::Blank, Err(fault)),
            },
        }
    }

    /// Whether the tile is the surface's own.
    #[inline(always)]
    pub(crate) fn is_own(&self) -> bool
        ensures { OnTrue result (IsOwn self.now) }
    {
        match self {
            Cell::Own(_) => true,
            _ => false,
        }
    }

    /// Copies the pixels of row y of the tile from column x on, as many as `out` has room for.
    #[inline(always)]
    pub(crate) fn read(&self, x: usize, y: usize, out: &mut [u32])
        requires columns { x + length out.old ≤ 64 }
        requires row { y < 64 }
        ensures { (k : ℕ) → k < length out.old → get_or out.new k 0 ≡ pixel_at tile_sides (cell_pixels self.now) 0 (x + k) y }
    {
        match self {
            Cell::Blank => out.fill(0),
            Cell::Own(tile) => tile.read(x, y, out),
            Cell::Shared(lent) => lent.tile().read(x, y, out),
        }
    }

    /// Copies the pixels from column x and row y of the tile on to a spot of a picture of these sides.
    #[inline(always)]
    pub(crate) fn cut(&self, x: usize, y: usize, spot: Part, sides: Size, out: &mut [u32])
        requires columns { x + spot.w ≤ 64 }
        requires rows { y + spot.h ≤ 64 }
        requires canvas { IsCanvas sides out.old }
        requires inside { IsInside sides spot }
        ensures { IsRepainted sides (in_part spot) (λ u v. pixel_at tile_sides (cell_pixels self.now) 0 (x + (u - spot.x)) (y + (v - spot.y))) out.old out.new }
    {
        match self {
            Cell::Blank => clear_part(out, sides, spot),
            Cell::Own(tile) => tile.cut(x, y, spot, sides, out),
            Cell::Shared(lent) => lent.tile().cut(x, y, spot, sides, out),
        }
    }

    /// Gives the pixels of row y of a tile that is the surface's own, from column x on, the colours of `row`.
    #[inline(always)]
    pub(crate) fn write(&mut self, x: usize, y: usize, row: &[u32])
        requires own { IsOwn self.old }
        requires columns { x + length row.now ≤ 64 }
        requires row { y < 64 }
        ensures own { IsOwn self.new }
        ensures painted { IsRepainted tile_sides (in_part (part_at x y (length row.now) 1)) (λ u v. get_or row.now (u - x) 0)
            (cell_pixels self.old) (cell_pixels self.new) }
    {
        if let Cell::Own(tile) = self {
            tile.write(x, y, row);
        }
    }

    /// Gives the pixels of a piece of a tile that is the surface's own one colour.
    #[inline(always)]
    pub(crate) fn fill(&mut self, piece: Part, color: u32)
        requires own { IsOwn self.old }
        requires inside { IsInside tile_sides piece }
        ensures own { IsOwn self.new }
        ensures painted { IsRepainted tile_sides (in_part piece) (λ u v. color) (cell_pixels self.old) (cell_pixels self.new) }
    {
        if let Cell::Own(tile) = self {
            tile.fill(piece, color);
        }
    }

    /// Gives the pixels of a piece of a tile that is the surface's own the colours that a texture has for them.
    #[inline(always)]
    pub(crate) fn paste(&mut self, piece: Part, texture: Texture)
        requires own { IsOwn self.old }
        requires inside { IsInside tile_sides piece }
        requires texture { CoversPart piece texture }
        ensures own { IsOwn self.new }
        ensures painted { IsRepainted tile_sides (in_part piece) (texture_color piece texture.entry) (cell_pixels self.old) (cell_pixels self.new) }
    {
        if let Cell::Own(tile) = self {
            tile.paste(piece, texture);
        }
    }

    /// Makes each pixel of a piece of a tile that is the surface's own what the raster operation of a code makes of it and of a texture. Two rows of the
    /// piece's width are for the operands of one row.
    #[inline(always)]
    pub(crate) fn blend(
        &mut self,
        piece: Part,
        rop: u8,
        brush: Option<&Brush>,
        texture: Texture,
        pattern: &mut [u32],
        source: &mut [u32],
    )
        requires own { IsOwn self.old }
        requires inside { IsInside tile_sides piece }
        requires texture { CoversPart piece texture }
        requires pattern { length pattern.old ≡ piece.w }
        requires source { length source.old ≡ piece.w }
        ensures own { IsOwn self.new }
        ensures painted { IsRepainted tile_sides (in_part piece)
            (blended_color tile_sides (cell_pixels self.old) piece rop (option_copied brush.entry) texture.entry)
            (cell_pixels self.old) (cell_pixels self.new) }
    {
        if let Cell::Own(tile) = self {
            tile.blend(piece, rop, brush, texture, pattern, source);
        }
    }

    /// The raster operation of a code on the pixels of row y of a tile that is the surface's own, from column x on, as many as the rows of its
    /// operands have.
    #[inline(always)]
    pub(crate) fn mix(&mut self, x: usize, y: usize, rop: u8, pattern: &[u32], source: &[u32])
        requires own { IsOwn self.old }
        requires columns { x + length pattern.now ≤ 64 }
        requires row { y < 64 }
        requires source { length source.now ≡ length pattern.now }
        ensures own { IsOwn self.new }
        ensures painted { IsRepainted tile_sides (in_part (part_at x y (length pattern.now) 1))
            (row_mixed tile_sides (cell_pixels self.old) rop pattern.now source.now x) (cell_pixels self.old) (cell_pixels self.new) }
    {
        if let Cell::Own(tile) = self {
            tile.mix(x, y, rop, pattern, source);
        }
    }

    /// Gives the pixels of a piece of a tile that is the surface's own one colour whose bit is one.
    #[inline(always)]
    pub(crate) fn ink(&mut self, piece: Part, bits: Bits, color: u32)
        requires own { IsOwn self.old }
        requires inside { IsInside tile_sides piece }
        requires bits { HasBits piece bits }
        ensures own { IsOwn self.new }
        ensures painted { IsRepainted tile_sides (in_part piece) (ink_color tile_sides (cell_pixels self.old) piece bits.entry color)
            (cell_pixels self.old) (cell_pixels self.new) }
    {
        if let Cell::Own(tile) = self {
            tile.ink(piece, bits, color);
        }
    }
}

/// A tile behind an `Arc` where memory was left, and a further handle.
fn lend_own(tile: Tile, alloc: Global) -> (Cell, Result<LentTile, OutOfMemory>)
    ensures same { cell_pixels result.0 ≡ tile }
    ensures lent { IfOk result.1 (λ lent. lent ≡ tile) }
    ensures sized { IfOk result.1 (λ lent. length lent ≡ 4096) }
{
    match Arc::new(alloc, tile) {
        Ok(shared) => lend_shared(LentTile::new(alloc, shared)),
        Err(failed) => (Cell::Own(failed.value), Err(OutOfMemory)),
    }
}

/// A shared tile, and a further handle where its count isn't full.
fn lend_shared(shared: LentTile) -> (Cell, Result<LentTile, OutOfMemory>)
    ensures same { cell_pixels result.0 ≡ shared }
    ensures lent { IfOk result.1 (λ lent. lent ≡ shared) }
    ensures sized { IfOk result.1 (λ lent. length lent ≡ 4096) }
{
    shared.recall_sized();
    let lent = shared.share();
    (Cell::Shared(shared), lent)
}
