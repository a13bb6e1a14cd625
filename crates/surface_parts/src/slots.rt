//! The slots of a surface.
ghost use Rattle.std.specs.Prelude.{◌≡◌, ℕ, ◌+◌, ◌-◌, ◌^◌, ◌<◌, List, IfOk, option_copied};
ghost use Rattle.px_core.specs.declared.surface.Size.{Size};
ghost use Rattle.draw_ops.specs.Drawing.{content_of};
ghost use Rattle.draw_ops.specs.Slots.{empty_slots, lookup, glyph_slot, filled_slot};
ghost use Rattle.surface_parts.specs.Held.{state_of, held_in, state_filled, HasBlockRoom, HasSaved, IsSavedInside};
ghost use Rattle.surface_parts.specs.Parts.{IsCanvas};

use crate::OutOfMemory;
use crate::block::Block;
use crate::loaded_brush::LoadedBrush;
use crate::loaded_glyph::LoadedGlyph;
use crate::loaded_image::LoadedImage;
use crate::room::Room;
use draw_ops::{Brush, Image};
use px_core::Size;
use std::alloc::Global;
use std::marker::Model;

/// Slots of images.
const IMAGES: usize = 256;

/// Slots of brushes.
const BRUSHES: usize = 64;

/// Glyphs of a font.
const CODES: usize = 256;

/// Slots of glyphs, of four fonts.
const GLYPHS: usize = 1_024;

/// Slots of saved blocks.
const BLOCKS: usize = 16;

/// What was loaded or saved, by the number of its slot.
#[derive(Drop)]
pub struct Slots {
    images: Vec<Option<LoadedImage>>,
    brushes: Vec<Option<LoadedBrush>>,
    glyphs: Vec<Option<LoadedGlyph>>,
    blocks: Vec<Option<Block>>,
}

impl Model for Slots {
    ghost use Rattle.surface_parts.specs.Held.{Held};

    ghost Value = { Held };

    ghost view = { λ s. record { images = s.images.items; brushes = s.brushes.items; glyphs = s.glyphs.items; blocks = s.blocks.items } };
}

impl Slots {
    /// Empty slots.
    pub fn new(alloc: Global) -> Result<Slots, OutOfMemory>
        ensures images { IfOk result (λ slots. slots.images ≡ empty_slots 256) }
        ensures brushes { IfOk result (λ slots. slots.brushes ≡ empty_slots 64) }
        ensures glyphs { IfOk result (λ slots. slots.glyphs ≡ empty_slots 1024) }
        ensures blocks { IfOk result (λ slots. slots.blocks ≡ empty_slots 16) }
    {
        let images = no_slots(alloc, IMAGES)?;
        let brushes = no_slots(alloc, BRUSHES)?;
        let glyphs = no_slots(alloc, GLYPHS)?;
        let blocks = no_slots(alloc, BLOCKS)?;
        Ok(Slots {
            images,
            brushes,
            glyphs,
            blocks,
        })
    }

    /// Puts what a drawing loads or saves into its slot; a block's pixels are copied from the picture.
    pub fn fill(&mut self, count: u64, room: Room, pixels: &[u32], size: Size)
        requires number { count < 2 ^ 64 - 1 }
        requires canvas { IsCanvas size pixels.now }
        requires block { HasBlockRoom room }
        requires inside { IsSavedInside size room }
        ensures { self.new ≡ held_in (state_filled size (state_of pixels.now self.old count) room) }
    {
        self.put(count, room.saved(pixels, size))
    }

    /// Puts what a drawing loads or saves into its slot.
    pub fn put(&mut self, count: u64, room: Room)
        requires number { count < 2 ^ 64 - 1 }
        ensures { (size : Size) (picture : List ℕ) → HasSaved size picture room → self.new ≡ held_in (state_filled size (state_of picture self.old count) room) }
    {
        let number = count + 1;
        match room {
            Room::Nothing => {}
            Room::Image { slot, image } => {
                let image = LoadedImage::new(number, image);
                set_slot(&mut self.images, usize::from(slot), image)
            }
            Room::Brush { slot, brush } => {
                let brush = LoadedBrush::new(number, brush);
                set_slot(&mut self.brushes, usize::from(slot), brush)
            }
            Room::Glyph { font, code, glyph } => {
                set_slot(&mut self.glyphs, slot_of_glyph(font, code), glyph)
            }
            Room::Block { slot, block, .. } => {
                set_slot(&mut self.blocks, usize::from(slot), block)
            }
        }
    }

    /// The image in a slot.
    pub fn image(&self, slot: u8) -> Option<&LoadedImage>
        ensures { option_copied result ≡ lookup slot self.now.images }
    {
        self.images.get(usize::from(slot))?.as_ref()
    }

    /// The brush in a slot; `None` also past the last slot.
    pub fn brush(&self, slot: u8) -> Option<&LoadedBrush>
        ensures { option_copied result ≡ lookup slot self.now.brushes }
    {
        self.brushes.get(usize::from(slot))?.as_ref()
    }

    /// The image in a slot, without its number.
    pub fn bare_image(&self, slot: u8) -> Option<&Image>
        ensures { option_copied result ≡ content_of (lookup slot self.now.images) }
    {
        match self.image(slot) {
            None => None,
            Some(image) => Some(image.content()),
        }
    }

    /// The brush in a slot, without its number.
    pub fn bare_brush(&self, slot: u8) -> Option<&Brush>
        ensures { option_copied result ≡ content_of (lookup slot self.now.brushes) }
    {
        match self.brush(slot) {
            None => None,
            Some(brush) => Some(brush.content()),
        }
    }

    /// The glyph of a font and a code; `None` also past the last font.
    pub fn glyph(&self, font: u8, code: u8) -> Option<&LoadedGlyph>
        ensures { option_copied result ≡ lookup (glyph_slot font code) self.now.glyphs }
    {
        self.glyphs.get(slot_of_glyph(font, code))?.as_ref()
    }

    /// The block in a slot; `None` also past the last slot.
    pub fn block(&self, slot: u8) -> Option<&Block>
        ensures { option_copied result ≡ lookup slot self.now.blocks }
    {
        self.blocks.get(usize::from(slot))?.as_ref()
    }
}

/// The slot of a font's glyph.
fn slot_of_glyph(font: u8, code: u8) -> usize
    ensures { result ≡ glyph_slot font code }
{
    CODES * usize::from(font) + usize::from(code)
}

/// So many empty slots.
fn no_slots<T: Drop>(alloc: Global, count: usize) -> Result<Vec<Option<T>>, OutOfMemory>
    ensures { IfOk result (λ slots. slots.items ≡ empty_slots count) }
{
    let mut slots = Vec::with_capacity(alloc, count)?;
    for _ in 0..count {
        slots.push(None)?;
    }
    Ok(slots)
}

/// Fills a slot; there is none past the last.
fn set_slot<T: Drop>(slots: &mut Vec<Option<T>>, slot: usize, content: T)
    ensures { slots.new.items ≡ filled_slot slot content slots.old.items }
{
    if slot < slots.len() {
        slots[slot] = Some(content);
    }
}
