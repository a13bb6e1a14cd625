//! A tile of a frame, which the session lent to it.
ghost use Rattle.std.specs.Prelude.{◌≡◌, ◌≤◌, ◌==◌, is_some, length, IfOk, IfSome};
ghost use Rattle.frame_plan.specs.TileParts.{part_of_tile};

use crate::OutOfMemory;
use px_core::{Rect, Size, TILE_SIDE};
use session_core::LentTile;
use std::alloc::Global;
use std::marker::Model;
use surface_parts::cut_pixels;

/// A tile that goes as a bitmap: its number, the sides in pixels of its part on the picture, and a handle of the session's own tile.
///
/// It keeps the colours that the tile had when it was lent, and they are copied only where a viewer's bytes are made of them.
#[derive(Drop)]
pub struct TakenTile {
    number: u32,
    w: u32,
    h: u32,
    tile: LentTile,
}

impl Model for TakenTile {
    ghost use Rattle.std.specs.Prelude.{ℕ, ◌≤◌, List};
    ghost use Rattle.frame_plan.specs.TileParts.{part_of_tile};

    ghost Value = { ℕ × List ℕ };

    ghost view = { λ s. (s.number, part_of_tile s.tile s.w s.h) };

    ghost invariant = { λ s. (s.w ≤ 64) × (s.h ≤ 64) };
}

impl TakenTile {
    ghost use Rattle.std.specs.Prelude.{◌≡◌, ◌≤◌, length, IfOk, IfSome, IsSome};
    ghost use Rattle.frame_plan.specs.TileParts.{part_of_tile};

    /// A tile with the sides of its part on the picture.
    pub(crate) fn new(number: u32, w: u32, h: u32, tile: LentTile) -> TakenTile
        requires wide { w ≤ 64 }
        requires high { h ≤ 64 }
        ensures { result ≡ (number, part_of_tile tile w h) }
    {
        TakenTile { number, w, h, tile }
    }

    /// The tile's number.
    pub fn number(&self) -> u32
        ensures { result ≡ self.now.0 }
    {
        self.number
    }

    /// Its pixels on the picture, row by row from the top, where they lie so in the tile itself; `None` for a tile that the picture's right edge
    /// cuts, so never for one that lies on the picture whole.
    pub fn pixels_in_place(&self) -> Option<&[u32]>
        ensures pixels { IfSome result (λ pixels. pixels.now ≡ self.now.1) }
        ensures whole { length self.now.1 ≡ 4096 → IsSome result }
    {
        rows_in_place(self.tile.pixels(), self.w, self.h)
    }

    /// What the session lent, for a tile that lies on the picture whole; `None` for one that the picture's right or lower edge cuts.
    pub fn whole(&self) -> Option<&LentTile>
        ensures pixels { IfSome result (λ lent. lent.now ≡ self.now.1) }
        ensures whole { length self.now.1 ≡ 4096 → IsSome result }
    {
        self.tile.recall_sized();
        if self.w == TILE_SIDE && self.h == TILE_SIDE {
            Some(&self.tile)
        } else {
            None
        }
    }

    /// Its pixels on the picture, row by row from the top, in a list of their own.
    pub fn copied_pixels(&self, alloc: Global) -> Result<Vec<u32>, OutOfMemory>
        ensures { IfOk result (λ pixels. pixels.items ≡ self.now.1) }
    {
        copied_part(alloc, self.tile.pixels(), self.w, self.h)
    }
}

/// The first w pixels of each of the first h rows of a tile where they lie in it one after the other, as whole rows do, and else `None`.
fn rows_in_place(pixels: &[u32], w: u32, h: u32) -> Option<&[u32]>
    requires sized { length pixels.now ≡ 4096 }
    requires high { h ≤ 64 }
    ensures pixels { IfSome result (λ rows. rows.now ≡ part_of_tile pixels.now w h) }
    ensures whole_rows { is_some result ≡ (w == 64) }
{
    if w == TILE_SIDE {
        Some(first_rows(pixels, h))
    } else {
        None
    }
}

/// The first h rows of a tile.
fn first_rows(pixels: &[u32], h: u32) -> &[u32]
    requires sized { length pixels.now ≡ 4096 }
    requires high { h ≤ 64 }
    ensures { result.now ≡ part_of_tile pixels.now 64 h }
{
    &pixels[..(TILE_SIDE * h) as usize]
}

/// The first w pixels of each of the first h rows of a tile.
fn copied_part(alloc: Global, pixels: &[u32], w: u32, h: u32) -> Result<Vec<u32>, OutOfMemory>
    requires sized { length pixels.now ≡ 4096 }
    requires wide { w ≤ 64 }
    requires high { h ≤ 64 }
    ensures { IfOk result (λ copied. copied.items ≡ part_of_tile pixels.now w h) }
{
    let sides = Size {
        w: TILE_SIDE,
        h: TILE_SIDE,
    };
    cut_pixels(alloc, pixels, sides, Rect { x: 0, y: 0, w, h })
}
