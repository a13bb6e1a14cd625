//! Which drawings the slots refuse.
ghost use Rattle.std.specs.Prelude.{◌≡◌, ℕ, List, not};
ghost use Rattle.draw_ops.specs.Fits.{block_test, empty_glyph, empty_if_none, slot_misfit, source_test, too_small_if};
ghost use Rattle.draw_ops.specs.Slots.{lookup};
ghost use Rattle.surface_parts.specs.Held.{state_of};
ghost use Rattle.surface_parts.specs.Refused.{misfit_said};

use crate::fault::DrawFault;
use crate::slots::Slots;
use draw_ops::Shape;
use px_core::{Rect, Size, is_inside};

impl Slots {
    /// Whether the slots hold what a shape names to read; else the first refusal.
    pub fn fit(&self, size: Size, shape: &Shape) -> Result<(), DrawFault>
        ensures { (picture : List ℕ) (count : ℕ) → misfit_said result ≡ slot_misfit size (state_of picture self.now count) shape.now }
    {
        match shape {
            Shape::Pat { brush, .. } => self.has_brush(*brush),
            Shape::Blit {
                rect,
                image,
                sx,
                sy,
                ..
            } => {
                self.has_image(*image)?;
                self.has_source(*image, *rect, *sx, *sy)
            }
            Shape::Blit3 {
                rect,
                image,
                sx,
                sy,
                brush,
                ..
            } => {
                self.has_image(*image)?;
                self.has_brush(*brush)?;
                self.has_source(*image, *rect, *sx, *sy)
            }
            Shape::Text { font, run, .. } => self.has_glyphs(*font, run.pairs()),
            Shape::Restore { slot, x, y } => {
                self.has_block(*slot)?;
                self.has_place(size, *slot, *x, *y)
            }
            Shape::Fill { .. }
            | Shape::Dst { .. }
            | Shape::Copy { .. }
            | Shape::Line { .. }
            | Shape::Save { .. }
            | Shape::LoadImage { .. }
            | Shape::LoadBrush { .. }
            | Shape::LoadGlyph { .. } => Ok(()),
        }
    }

    /// An image is in its slot.
    fn has_image(&self, slot: u8) -> Result<(), DrawFault>
        ensures { misfit_said result ≡ empty_if_none slot (lookup slot self.now.images) }
    {
        match self.image(slot) {
            None => Err(DrawFault::EmptySlot { slot }),
            Some(_) => Ok(()),
        }
    }

    /// A brush is in its slot.
    fn has_brush(&self, slot: u8) -> Result<(), DrawFault>
        ensures { misfit_said result ≡ empty_if_none slot (lookup slot self.now.brushes) }
    {
        match self.brush(slot) {
            None => Err(DrawFault::EmptySlot { slot }),
            Some(_) => Ok(()),
        }
    }

    /// A block is in its slot.
    fn has_block(&self, slot: u8) -> Result<(), DrawFault>
        ensures { misfit_said result ≡ empty_if_none slot (lookup slot self.now.blocks) }
    {
        match self.block(slot) {
            None => Err(DrawFault::EmptySlot { slot }),
            Some(_) => Ok(()),
        }
    }

    /// Each glyph of a run is in its slot; the first code without one is named.
    fn has_glyphs(&self, font: u8, run: &[(u8, u8)]) -> Result<(), DrawFault>
        ensures { misfit_said result ≡ empty_glyph self.now.glyphs font run.now }
    {
        for pair in run {
            if self.glyph(font, pair.0).is_none() {
                return Err(DrawFault::EmptySlot { slot: pair.0 });
            }
        }
        Ok(())
    }

    /// The source rectangle of a blit lies inside its image.
    fn has_source(&self, slot: u8, rect: Rect, sx: i32, sy: i32) -> Result<(), DrawFault>
        ensures { misfit_said result ≡ source_test (lookup slot self.now.images) slot rect sx sy }
    {
        match self.image(slot) {
            None => Ok(()),
            Some(image) => {
                let sides = Size {
                    w: u32::from(image.content().w()),
                    h: u32::from(image.content().h()),
                };
                let source = Rect {
                    x: sx,
                    y: sy,
                    w: rect.w,
                    h: rect.h,
                };
                fits_if(is_inside(sides, source), slot)
            }
        }
    }

    /// A restored block lies inside the surface.
    fn has_place(&self, size: Size, slot: u8, x: i32, y: i32) -> Result<(), DrawFault>
        ensures { misfit_said result ≡ block_test size (lookup slot self.now.blocks) slot x y }
    {
        match self.block(slot) {
            None => Ok(()),
            Some(block) => {
                let place = Rect {
                    x,
                    y,
                    w: block.w,
                    h: block.h,
                };
                fits_if(is_inside(size, place), slot)
            }
        }
    }
}

/// The refusal of a size, unless a test is passed.
fn fits_if(test: bool, slot: u8) -> Result<(), DrawFault>
    ensures { misfit_said result ≡ too_small_if (not test) slot }
{
    if test {
        Ok(())
    } else {
        Err(DrawFault::SlotSize { slot })
    }
}
