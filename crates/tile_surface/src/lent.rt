//! A tile that the surface lends, and the cells in which the first take that packs it leaves its bytes for the others.
ghost use Rattle.std.specs.Prelude.{◌≡◌, length, IfOk, IfErr, IfSome, IsTrue};
ghost use Rattle.std.specs.Arc.{arc_value};
ghost use Rattle.px_core.specs.Colors.{are_colors};
ghost use Rattle.tile_surface.specs.Packings.{PackingOf};

use crate::packed::PackedTile;
use crate::tile::Tile;
use once_cell::race::OnceBox;
use px_core::Depth;
use std::alloc::Global;
use std::marker::Model;
use std::sync::Arc;
use wire_num::OutOfMemory;

/// For each depth a cell that is set at most once.
#[derive(Drop)]
struct PackedCells {
    at_24: OnceBox<PackedTile>,
    at_16: OnceBox<PackedTile>,
}

impl PackedCells {
    /// Empty cells.
    fn new(alloc: Global) -> PackedCells {
        PackedCells {
            at_24: OnceBox::new(alloc),
            at_16: OnceBox::new(alloc),
        }
    }

    /// The cell of a depth.
    fn at(&self, depth: Depth) -> &OnceBox<PackedTile> {
        match depth {
            Depth::Bits24 => &self.at_24,
            Depth::Bits16 => &self.at_16,
        }
    }
}

/// A handle of a tile, which keeps the colours that it had when it was lent. Several takes may have one, on threads of their own, and the
/// first that packs the tile leaves the bytes for the others; neither waits for another.
///
/// Where memory was wanting for the cells there are none, and each packs the tile for itself.
#[derive(Drop)]
pub struct LentTile {
    tile: Arc<Tile>,
    cells: Option<Arc<PackedCells>>,
}

impl Model for LentTile {
    ghost use Rattle.std.specs.Prelude.{List, ℕ};
    ghost use Rattle.std.specs.Arc.{arc_value};

    ghost Value = { List ℕ };

    ghost view = { λ s. arc_value s.tile };
}

impl LentTile {
    /// A tile with empty cells, where memory was left for them.
    pub(crate) fn new(alloc: Global, tile: Arc<Tile>) -> LentTile
        ensures { result ≡ arc_value tile }
    {
        let cells = match Arc::new(alloc, PackedCells::new(alloc)) {
            Ok(cells) => Some(cells),
            Err(_) => None,
        };
        LentTile { tile, cells }
    }

    /// A tile without cells. Takes no memory.
    pub(crate) fn bare(tile: Arc<Tile>) -> LentTile
        ensures { result ≡ arc_value tile }
    {
        LentTile { tile, cells: None }
    }

    /// A further handle of the tile and its cells.
    pub(crate) fn share(&self) -> Result<LentTile, OutOfMemory>
        ensures { IfOk result (λ lent. lent ≡ self.now) }
    {
        let tile = Arc::try_clone(&self.tile)?;
        let cells = match &self.cells {
            Some(cells) => Arc::try_clone(cells).ok(),
            None => None,
        };
        Ok(LentTile { tile, cells })
    }

    /// The tile itself where nobody else has it or its cells, and else a handle. What is in the cells has a handle of its own, so these go
    /// first.
    pub(crate) fn taken_back(self) -> Result<Tile, Arc<Tile>>
        ensures own { IfOk result (λ tile. tile ≡ self) }
        ensures shared { IfErr result (λ tile. arc_value tile ≡ self) }
    {
        let LentTile { tile, cells } = self;
        drop(cells);
        Arc::try_unwrap(tile)
    }

    /// The colours, row by row from the top.
    pub fn pixels(&self) -> &[u32]
        ensures pixels { result.now ≡ self.now }
        ensures sized { length result.now ≡ 4096 }
    {
        self.tile.pixels()
    }

    /// A tile has a colour for each of its pixels; it does nothing.
    pub fn recall_sized(&self)
        ensures { length self.now ≡ 4096 }
    {
        self.tile.recall_sized();
    }

    /// The tile itself.
    #[inline(always)]
    pub(crate) fn tile(&self) -> &Tile
        ensures { result.now ≡ self.now }
    {
        &self.tile
    }

    /// The tile as it was packed for a depth, where that was kept.
    ///
    /// What is in a cell says of which colours it was made, so they are compared: they are the same memory.
    pub fn packed(&self, depth: Depth) -> Option<&PackedTile>
        ensures { IfSome result (λ packed. packed.now ≡ record { pixels = self.now; depth = depth }) }
    {
        let cells = self.cells.as_ref()?;
        let packed = cells.at(depth).get()?;
        if packed.is_of(self.tile.pixels(), depth) {
            Some(packed)
        } else {
            None
        }
    }

    /// Packs the tile for a depth.
    pub fn pack(&self, alloc: Global, depth: Depth) -> Result<PackedTile, OutOfMemory>
        requires { IsTrue (are_colors self.now) }
        ensures { IfOk result (λ packed. packed ≡ record { pixels = self.now; depth = depth }) }
    {
        let tile = Arc::try_clone(&self.tile)?;
        PackedTile::new(alloc, tile, depth)
    }

    /// Keeps the packed tile for the others who have a handle, where none of them was sooner and memory is left.
    pub fn keep(&self, alloc: Global, packed: PackedTile) {
        if let Some(cells) = &self.cells {
            let depth = packed.depth();
            if let Ok(boxed) = Box::new(alloc, packed) {
                let _late = cells.at(depth).set(boxed);
            }
        }
    }
}
