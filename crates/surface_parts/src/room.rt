//! The memory that a drawing takes.
ghost use Rattle.std.specs.Prelude.{◌≡◌, ℕ, ◌+◌, ◌<◌, ◌≤◌, ◌^◌, IfOk, All, length};
ghost use Rattle.draw_ops.specs.Slots.{SurfaceState};
ghost use Rattle.surface_parts.specs.Held.{state_filled, AreRooms, HasBlockRoom, HasSaved, IsRoomFor, IsSavedInside, IsSmallSave};
ghost use Rattle.surface_parts.specs.Parts.{IsCanvas};

use crate::OutOfMemory;
use crate::block::Block;
use crate::loaded_glyph::LoadedGlyph;
use draw_ops::{Drawing, Image, Shape, SharedBrush};
use px_core::{Rect, Size};
use std::alloc::Global;
use std::collections::VecDeque;

/// What a drawing puts into a slot, with its memory. The pixels of a block are still to be copied; a glyph has its drawing's number.
#[derive(Drop)]
pub enum Room {
    Nothing,
    Image {
        slot: u8,
        image: Image,
    },
    Brush {
        slot: u8,
        brush: SharedBrush,
    },
    Glyph {
        font: u8,
        code: u8,
        glyph: LoadedGlyph,
    },
    Block {
        slot: u8,
        rect: Rect,
        block: Block,
    },
}

impl Room {
    /// Takes the memory that a shape needs, as the drawing of this number.
    pub fn new(alloc: Global, number: u64, shape: &Shape) -> Result<Room, OutOfMemory>
        requires { IsSmallSave shape.now }
        ensures { IfOk result (λ room. (count : ℕ) → number ≡ count + 1 → IsRoomFor count shape.now room) }
    {
        match shape {
            Shape::LoadImage { slot, image } => {
                let image = image.share()?;
                Ok(Room::Image { slot: *slot, image })
            }
            Shape::LoadBrush { slot, brush } => {
                let brush = brush.share()?;
                Ok(Room::Brush { slot: *slot, brush })
            }
            Shape::LoadGlyph { font, code, glyph } => {
                let glyph = LoadedGlyph::new(alloc, number, glyph.share()?)?;
                Ok(Room::Glyph {
                    font: *font,
                    code: *code,
                    glyph,
                })
            }
            Shape::Save { slot, rect } => {
                let block = Block::new(alloc, rect.w, rect.h)?;
                Ok(Room::Block {
                    slot: *slot,
                    rect: *rect,
                    block,
                })
            }
            Shape::Fill { .. }
            | Shape::Dst { .. }
            | Shape::Pat { .. }
            | Shape::Copy { .. }
            | Shape::Blit { .. }
            | Shape::Blit3 { .. }
            | Shape::Text { .. }
            | Shape::Line { .. }
            | Shape::Restore { .. } => Ok(Room::Nothing),
        }
    }

    /// The room with the pixels that its drawing saves, copied from the picture.
    pub fn saved(self, pixels: &[u32], size: Size) -> Room
        requires canvas { IsCanvas size pixels.now }
        requires block { HasBlockRoom self }
        requires inside { IsSavedInside size self }
        ensures saved { HasSaved size pixels.now result }
        ensures same { (st : SurfaceState) → state_filled size st result ≡ state_filled size st self }
    {
        match self {
            Room::Block { slot, rect, block } => {
                let block = block.filled(pixels, size, rect);
                Room::Block { slot, rect, block }
            }
            room => room,
        }
    }
}

/// The memory that drawings take for their slots, in their order, where so many were drawn before them.
pub fn take_rooms(alloc: Global, count: u64, ds: &[Drawing]) -> Result<VecDeque<Room>, OutOfMemory>
    requires saves { All (λ d. IsSmallSave d.shape) ds.now }
    requires count { count + length ds.now < 2 ^ 64 }
    ensures { IfOk result (λ rooms. AreRooms count ds.now rooms.items) }
{
    let mut rooms = VecDeque::new(alloc);
    let mut number = count;
    for d in ds {
        number += 1;
        let room = Room::new(alloc, number, &d.shape)?;
        rooms.push_back(room)?;
    }
    Ok(rooms)
}
