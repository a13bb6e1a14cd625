//! The packed bytes of a whole tile.
ghost use Rattle.std.specs.Prelude.{◌≡◌, true, length, option_copied, option_map, IfOk, IsTrue};
ghost use Rattle.std.specs.Arc.{arc_value};
ghost use Rattle.std.specs.Bool.{Decides};
ghost use Rattle.px_core.specs.Colors.{are_colors};
ghost use Rattle.rle_enc.specs.Packed.{IsTilePacked};
ghost use Rattle.tile_surface.specs.Packings.{PackingOf};

use crate::tile::{TILE_SIDE, Tile};
use px_core::Depth;
use rle_enc::packed_tile;
use std::alloc::Global;
use std::marker::Model;
use std::sync::Arc;
use wire_num::OutOfMemory;

/// The packed bytes that a whole tile goes as at a depth, for viewers who take packed pixels without a header, and the tile of which they were
/// made; no bytes where it goes as it is.
#[derive(Drop)]
pub struct PackedTile {
    tile: Arc<Tile>,
    depth: Depth,
    packed: Option<Vec<u8>>,
}

impl Model for PackedTile {
    ghost use Rattle.std.specs.Prelude.{true, option_map};
    ghost use Rattle.std.specs.Arc.{arc_value};
    ghost use Rattle.rle_enc.specs.Packed.{IsTilePacked};
    ghost use Rattle.tile_surface.specs.Packings.{PackingOf};

    ghost Value = { PackingOf };

    ghost view = { λ s. record { pixels = arc_value s.tile; depth = s.depth } };

    ghost invariant = { λ s. IsTilePacked s.depth true 64 64 (arc_value s.tile) (option_map (λ bytes. bytes.items) s.packed) };
}

impl PackedTile {
    /// Packs a tile.
    pub(crate) fn new(
        alloc: Global,
        tile: Arc<Tile>,
        depth: Depth,
    ) -> Result<PackedTile, OutOfMemory>
        requires { IsTrue (are_colors (arc_value tile)) }
        ensures { IfOk result (λ packed. packed ≡ record { pixels = arc_value tile; depth = depth }) }
    {
        let found = packed_tile(alloc, tile.pixels(), TILE_SIDE, TILE_SIDE, true, depth)?;
        let packed = trimmed(found);
        Ok(PackedTile {
            tile,
            depth,
            packed,
        })
    }

    /// The depth at which they are shown.
    pub fn depth(&self) -> Depth
        ensures { result ≡ self.now.depth }
    {
        self.depth
    }

    /// The colours that were packed, row by row from the top.
    pub fn pixels(&self) -> &[u32]
        ensures pixels { result.now ≡ self.now.pixels }
        ensures sized { length result.now ≡ 4096 }
    {
        self.tile.pixels()
    }

    /// The packed bytes; `None` where the colours go as they are.
    pub fn bytes(&self) -> Option<&[u8]>
        ensures { IsTilePacked self.now.depth true 64 64 self.now.pixels (option_copied result) }
    {
        self.packed.as_deref()
    }

    /// Whether just these colours were packed, at this depth.
    pub(crate) fn is_of(&self, pixels: &[u32], depth: Depth) -> bool
        ensures { Decides result (self.now ≡ record { pixels = pixels.now; depth = depth }) }
    {
        self.depth == depth && self.tile.pixels() == pixels
    }
}

/// Packed bytes in no more memory than they take, where that can be had.
fn trimmed(packed: Option<Vec<u8>>) -> Option<Vec<u8>>
    ensures { option_map (λ bytes. bytes.items) result ≡ option_map (λ bytes. bytes.items) packed }
{
    let mut bytes = packed?;
    bytes.shrink_to_fit();
    Some(bytes)
}
