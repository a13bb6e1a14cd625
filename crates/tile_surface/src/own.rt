//! Tiles become the surface's own before it writes into them.
ghost use Rattle.std.specs.Prelude.{◌≡◌, ℕ, ◌+◌, ◌*◌, ◌≤◌, ◌<◌, None, OnOk, length, map};
ghost use Rattle.px_core.specs.Picture.{both};
ghost use Rattle.px_core.specs.Rectangle.{in_clip, in_rect, IsPlaced};
ghost use Rattle.draw_ops.specs.Fits.{clip_rule};
ghost use Rattle.tile_surface.specs.Cells.{cell_at, cell_pixels, IsTiled};
ghost use Rattle.tile_surface.specs.Ownership.{IsOwn, IsOwnAt, OwnsArea, OwnsPart, StaysOwn};

use crate::cell::Cell;
use crate::rows::{TILES_IN_ROW, tile_number};
use crate::tile::TILE_SIDE;
use px_core::Rect;
use std::alloc::Global;
use std::mem;
use surface_parts::{Part, Window, visible};
use wire_num::OutOfMemory;

/// Makes each tile with a pixel of a rectangle, within a clip, the surface's own. The colours of all tiles stay, also after an `Err`.
pub(crate) fn own_rect(
    cells: &mut [Cell],
    alloc: Global,
    window: Window,
    rect: Rect,
) -> Result<(), OutOfMemory>
    requires tiled { IsTiled window.size cells.old }
    requires rect { IsPlaced rect }
    requires clip { clip_rule window.size window.clip ≡ None }
    ensures same { map cell_pixels cells.new ≡ map cell_pixels cells.old }
    ensures stays { StaysOwn cells.old cells.new }
    ensures own { OnOk result (OwnsArea window.size cells.new (both (in_clip window.clip) (in_rect rect))) }
{
    match visible(window, rect) {
        None => Ok(()),
        Some(part) => own_part(cells, alloc, part),
    }
}

/// Makes each tile of a part the surface's own. The colours of all tiles stay, also after an `Err`.
pub(crate) fn own_part(cells: &mut [Cell], alloc: Global, part: Part) -> Result<(), OutOfMemory>
    requires cells { length cells.old ≡ 1024 }
    requires columns { part.x + part.w ≤ 2048 }
    requires rows { part.y + part.h ≤ 2048 }
    ensures same { map cell_pixels cells.new ≡ map cell_pixels cells.old }
    ensures stays { StaysOwn cells.old cells.new }
    ensures own { OnOk result (OwnsPart cells.new part) }
{
    let left = part.x / TILE_SIDE;
    let right = (part.x + part.w + (TILE_SIDE - 1)) / TILE_SIDE;
    let top = part.y / TILE_SIDE;
    let bottom = (part.y + part.h + (TILE_SIDE - 1)) / TILE_SIDE;
    for row in top..bottom {
        own_tiles(
            cells,
            alloc,
            TILES_IN_ROW * row + left,
            TILES_IN_ROW * row + right,
        )?;
    }
    Ok(())
}

/// Makes the tile of pixel (x, y) the surface's own. The colours of all tiles stay, also after an `Err`.
pub(crate) fn own_at(
    cells: &mut [Cell],
    alloc: Global,
    x: usize,
    y: usize,
) -> Result<(), OutOfMemory>
    requires cells { length cells.old ≡ 1024 }
    requires column { x < 2048 }
    requires row { y < 2048 }
    ensures same { map cell_pixels cells.new ≡ map cell_pixels cells.old }
    ensures stays { StaysOwn cells.old cells.new }
    ensures own { OnOk result (IsOwnAt cells.new x y) }
{
    own_tile(cells, alloc, tile_number(x, y))
}

/// Makes the tiles from one number up to another the surface's own.
fn own_tiles(cells: &mut [Cell], alloc: Global, from: usize, end: usize) -> Result<(), OutOfMemory>
    requires end { end ≤ length cells.old }
    ensures same { map cell_pixels cells.new ≡ map cell_pixels cells.old }
    ensures stays { StaysOwn cells.old cells.new }
    ensures own { OnOk result ((tile : ℕ) → from ≤ tile → tile < end → IsOwn (cell_at cells.new tile)) }
{
    for tile in from..end {
        own_tile(cells, alloc, tile)?;
    }
    Ok(())
}

/// Makes a tile the surface's own.
fn own_tile(cells: &mut [Cell], alloc: Global, tile: usize) -> Result<(), OutOfMemory>
    requires tile { tile < length cells.old }
    ensures same { map cell_pixels cells.new ≡ map cell_pixels cells.old }
    ensures stays { StaysOwn cells.old cells.new }
    ensures own { OnOk result (IsOwn (cell_at cells.new tile)) }
{
    if cells[tile].is_own() {
        return Ok(());
    }
    let cell = mem::replace(&mut cells[tile], Cell::Blank);
    let (cell, owned) = cell.owned(alloc);
    cells[tile] = cell;
    owned
}
