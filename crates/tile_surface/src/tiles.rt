//! The surface: its tiles, its slots, and the number of its drawings.
ghost use Rattle.std.specs.Prelude.{◌≡◌, ◌≤◌, ◌<◌, ◌^◌, IfOk, IsTrue, length, map, replicate, option_copied, option_map};
ghost use Rattle.px_core.specs.Colors.{are_colors};
ghost use Rattle.px_core.specs.Picture.{pixel_at};
ghost use Rattle.px_core.specs.Rectangle.{is_inside, is_session_size, cut_out, whole};
ghost use Rattle.px_core.specs.Tiles.{tile_rect, tiles_of};
ghost use Rattle.draw_ops.specs.Slots.{opening_surface, lookup, glyph_slot};
ghost use Rattle.draw_ops.specs.Fits.{slot_misfit};
ghost use Rattle.surface_parts.specs.Refused.{misfit_said};
ghost use Rattle.surface_parts.specs.Surfaces.{IsSoundSurface};
ghost use Rattle.tile_surface.specs.Cells.{cell_at, cell_pixels};
ghost use Rattle.tile_surface.specs.declared.cell.Cell.TheVariants.{Blank};

use crate::cell::Cell;
use crate::lent::LentTile;
use crate::rows::{cut_rect, read_row};
use draw_ops::Drawing;
use px_core::{Rect, Size};
use std::alloc::Global;
use std::marker::Model;
use std::mem;
use surface_parts::{DrawFault, LoadedBrush, LoadedGlyph, LoadedImage, Slots, black_pixels};
use wire_num::OutOfMemory;

/// The tiles of the greatest picture of a session.
const TILES: usize = px_core::TILES as usize;

/// The most columns of a session's picture.
const WIDEST: usize = 2_048;

/// The picture of a session as tiles, with its slots: 256 of images, 64 of brushes, 4 fonts of 256 glyphs, 16 of saved blocks.
#[derive(Drop)]
pub struct Tiles {
    pub(crate) alloc: Global,
    pub(crate) size: Size,
    /// The tiles of the greatest picture, by their numbers.
    pub(crate) cells: Vec<Cell>,
    pub(crate) slots: Slots,
    /// How many drawings were drawn.
    pub(crate) count: u64,
    /// One row for the pattern of a raster operation.
    pub(crate) pattern: Vec<u32>,
    /// One row for its source.
    pub(crate) source: Vec<u32>,
}

impl Model for Tiles {
    ghost use Rattle.std.specs.Prelude.{◌≡◌, ◌≤◌, length};
    ghost use Rattle.surface_parts.specs.Surfaces.{SurfaceOf, IsSoundSurface};
    ghost use Rattle.surface_parts.specs.Held.{state_of};
    ghost use Rattle.tile_surface.specs.Cells.{picture_of};
    ghost use Rattle.tile_surface.specs.Ownership.{IsBlackPast};

    ghost Value = { SurfaceOf };

    ghost view = { λ s. record { size = s.size; state = state_of (picture_of s.size s.cells.items) s.slots s.count } };

    ghost invariant = { λ s. IsSoundSurface s.size (state_of (picture_of s.size s.cells.items) s.slots s.count)
        × (length s.cells.items ≡ 1024) × IsBlackPast s.size s.cells.items
        × (2048 ≤ length s.pattern.items) × (2048 ≤ length s.source.items) };
}

impl Tiles {
    /// A black surface of this size with all slots empty. Its tiles take no memory before something is drawn on them or they are lent.
    pub fn new(alloc: Global, size: Size) -> Result<Tiles, OutOfMemory>
        requires { IsTrue (is_session_size size.w size.h) }
        ensures size { IfOk result (λ surface. surface.size ≡ size) }
        ensures state { IfOk result (λ surface. surface.state ≡ opening_surface size) }
    {
        let cells = blank_cells(alloc)?;
        let slots = Slots::new(alloc)?;
        let pattern = black_pixels(alloc, WIDEST)?;
        let source = black_pixels(alloc, WIDEST)?;
        Ok(Tiles {
            alloc,
            size,
            cells,
            slots,
            count: 0,
            pattern,
            source,
        })
    }

    /// A handle of tile t, which has a pixel on the surface, for as long as its holder wants. The surface is as it was, also after an `Err`.
    pub fn lend(&mut self, t: u32) -> Result<LentTile, OutOfMemory>
        requires { IsTrue (tiles_of self.old.size (whole self.old.size) t) }
        ensures lent { IfOk result (λ tile. tile ≡ cut_out self.old.size self.old.state.picture 0 (tile_rect t)) }
        ensures unchanged { self.new ≡ self.old }
    {
        lend_tile(self.cells.as_mut_slice(), self.alloc, t as usize)
    }

    /// Whether the slots hold what a drawing names to read; else the first refusal, which is never want of memory.
    pub fn fit(&self, d: &Drawing) -> Result<(), DrawFault>
        ensures { misfit_said result ≡ slot_misfit self.now.size self.now.state d.now.shape }
    {
        self.slots.fit(self.size, &d.shape)
    }

    /// The colour of pixel (x, y), which lies on the surface.
    pub fn pixel(&self, x: u32, y: u32) -> u32
        requires column { x < self.now.size.w }
        requires row { y < self.now.size.h }
        ensures pixel { result ≡ pixel_at self.now.size self.now.state.picture 0 x y }
        ensures color { result < 2 ^ 24 }
    {
        let mut pixel = [0];
        read_row(
            self.cells.as_slice(),
            self.size,
            x as usize,
            y as usize,
            &mut pixel,
        );
        pixel[0]
    }

    /// The colours of a rectangle inside the surface, row by row from the top.
    pub fn pixels_of(&self, r: Rect) -> Result<Vec<u32>, OutOfMemory>
        requires { IsTrue (is_inside self.now.size r) }
        ensures pixels { IfOk result (λ pixels. pixels.items ≡ cut_out self.now.size self.now.state.picture 0 r) }
        ensures colors { IfOk result (λ pixels. IsTrue (are_colors pixels.items)) }
    {
        let mut pixels = black_pixels(self.alloc, r.w as usize * r.h as usize)?;
        cut_rect(self.cells.as_slice(), self.size, r, pixels.as_mut_slice());
        Ok(pixels)
    }

    /// The sides in pixels.
    pub fn size(&self) -> Size
        ensures { result ≡ self.now.size }
    {
        self.size
    }

    /// How many drawings were drawn.
    pub fn count(&self) -> u64
        ensures { result ≡ self.now.state.count }
    {
        self.count
    }

    /// The image in a slot.
    pub fn image(&self, slot: u8) -> Option<&LoadedImage>
        ensures { option_copied result ≡ lookup slot self.now.state.images }
    {
        self.slots.image(slot)
    }

    /// The brush in a slot; `None` also past the last slot.
    pub fn brush(&self, slot: u8) -> Option<&LoadedBrush>
        ensures { option_copied result ≡ lookup slot self.now.state.brushes }
    {
        self.slots.brush(slot)
    }

    /// The glyph of a font and a code; `None` also past the last font.
    pub fn glyph(&self, font: u8, code: u8) -> Option<&LoadedGlyph>
        ensures { option_copied result ≡ lookup (glyph_slot font code) self.now.state.glyphs }
    {
        self.slots.glyph(font, code)
    }

    /// The sides of the block in a slot; `None` also past the last slot.
    pub fn block_sides(&self, slot: u8) -> Option<Size>
        ensures { result ≡ option_map (λ block. record { w = block.w; h = block.h }) (lookup slot self.now.state.blocks) }
    {
        let block = self.slots.block(slot)?;
        Some(Size {
            w: block.w,
            h: block.h,
        })
    }

    /// What holds of every surface; it does nothing.
    pub fn recall_sound(&self)
        ensures { IsSoundSurface self.now.size self.now.state }
    {
        let _ = &self.size;
    }
}

/// A handle of a tile, whose colours stay, as do all others, also after an `Err`.
fn lend_tile(cells: &mut [Cell], alloc: Global, tile: usize) -> Result<LentTile, OutOfMemory>
    requires tile { tile < length cells.old }
    ensures same { map cell_pixels cells.new ≡ map cell_pixels cells.old }
    ensures lent { IfOk result (λ lent. lent ≡ cell_pixels (cell_at cells.old tile)) }
    ensures sized { IfOk result (λ lent. length lent ≡ 4096) }
{
    let cell = mem::replace(&mut cells[tile], Cell::Blank);
    let (cell, lent) = cell.lent(alloc);
    cells[tile] = cell;
    lent
}

/// A cell for each tile, all blank.
fn blank_cells(alloc: Global) -> Result<Vec<Cell>, OutOfMemory>
    ensures { IfOk result (λ cells. cells.items ≡ replicate 1024 Blank) }
{
    let mut cells = Vec::with_capacity(alloc, TILES)?;
    for _ in 0..TILES {
        cells.push(Cell::Blank)?;
    }
    Ok(cells)
}
