//! Whether slots hold what a drawing needs.

ghost use Rattle.draw_ops.specs.Fits.{slot_misfit};
ghost use Rattle.session_core.specs.Refusing.{SaysFit};

use crate::faults::DrawRefusal;
use draw_ops::Drawing;
use surface_parts::DrawFault;
use tile_surface::Tiles;

/// Whether the slots that a drawing reads hold what it needs; else the first refusal.
pub fn fit(surface: &Tiles, d: &Drawing) -> Result<(), DrawRefusal>
    ensures { SaysFit result (slot_misfit surface.now.size surface.now.state d.now.shape) }
{
    match surface.fit(d) {
        Ok(()) => Ok(()),
        Err(DrawFault::EmptySlot { slot }) => Err(DrawRefusal::EmptySlot { slot }),
        Err(DrawFault::SlotSize { slot }) => Err(DrawRefusal::SlotSize { slot }),
        Err(DrawFault::OutOfMemory) => unreachable!(),
    }
}
