//! What a drawing puts into its slot: what it loads, or a block of the picture's pixels.
ghost use Rattle.std.specs.Prelude.{◌≡◌, ◌-◌, ◌*◌, ◌^◌, ◌<◌, length, IsTrue};
ghost use Rattle.px_core.specs.Rectangle.{cut_out, is_inside};
ghost use Rattle.draw_ops.specs.Slots.{SurfaceState};
ghost use Rattle.surface_parts.specs.Held.{held_in, state_filled, state_of, HasBlockRoom, HasSaved, IsSavedInside};
ghost use Rattle.tile_surface.specs.Cells.{picture_of, IsTiled};

use crate::cell::Cell;
use crate::rows::cut_rect;
use px_core::{Rect, Size};
use surface_parts::{Block, Room, Slots};

/// Puts what a drawing loads or saves into its slot; a block's pixels are copied out of the tiles.
pub(crate) fn fill_slot(slots: &mut Slots, count: u64, room: Room, cells: &[Cell], size: Size)
    requires number { count < 2 ^ 64 - 1 }
    requires tiled { IsTiled size cells.now }
    requires block { HasBlockRoom room }
    requires inside { IsSavedInside size room }
    ensures { slots.new ≡ held_in (state_filled size (state_of (picture_of size cells.now) slots.old count) room) }
{
    slots.put(count, saved(room, cells, size))
}

/// The room with the pixels that its drawing saves, copied out of the tiles.
fn saved(room: Room, cells: &[Cell], size: Size) -> Room
    requires tiled { IsTiled size cells.now }
    requires block { HasBlockRoom room }
    requires inside { IsSavedInside size room }
    ensures saved { HasSaved size (picture_of size cells.now) result }
    ensures same { (st : SurfaceState) → state_filled size st result ≡ state_filled size st room }
{
    match room {
        Room::Block { slot, rect, block } => {
            let block = filled_block(block, cells, size, rect);
            Room::Block { slot, rect, block }
        }
        room => room,
    }
}

/// The block with the pixels of a rectangle that lies on the picture.
fn filled_block(block: Block, cells: &[Cell], size: Size, rect: Rect) -> Block
    requires tiled { IsTiled size cells.now }
    requires inside { IsTrue (is_inside size rect) }
    requires room { length block.pixels ≡ rect.w * rect.h }
    ensures { result ≡ record { w = block.w; h = block.h; pixels = cut_out size (picture_of size cells.now) 0 rect } }
{
    let mut block = block;
    cut_rect(cells, size, rect, &mut block.pixels);
    block
}
