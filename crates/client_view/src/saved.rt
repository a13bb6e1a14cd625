//! Saved blocks ([MS-RDPEGDI] 2.2.2.2.1.1.2.12).

ghost use Rattle.std.specs.Prelude.{Option};
ghost use Rattle.px_core.specs.declared.rectangle.Rect.{Rect};
ghost use Rattle.caps_sets.specs.declared.confirmed.Confirmed.{Confirmed};
ghost use Rattle.order_fields.specs.NamedDrawing.NamedDrawing.{SaveBlock, RestoreBlock};
ghost use Rattle.client_caches.specs.Caches.{CachesOf};
ghost use Rattle.client_view.specs.Told.{client_after_clipped};
ghost use Rattle.client_view.specs.Views.{Draws, SamePlace};

use client_caches::{ClientBlocks, KeptBlock, ObeyFault, ends_before};
use client_picture::ClientPicture;
use px_core::{Rect, is_inside};

/// The end of the positions of saved blocks (profile).
const BLOCK_POSITIONS: u32 = 57_600;

/// Saves a rectangle, whatever the bounds.
pub(crate) fn save(
    blocks: &mut ClientBlocks,
    pictures: &ClientPicture,
    position: u32,
    rect: Rect,
) -> Result<(), ObeyFault>
    ensures { (confirmed : Confirmed) (bounds : Option Rect) (caches : CachesOf)
        → Draws result (λ c. client_after_clipped confirmed pictures.now.size bounds c
        (SaveBlock position rect)) caches blocks.old blocks.new pictures.now pictures.now }
{
    if !is_inside(pictures.size(), rect)
        || !ends_before(position, rect.w, rect.h, BLOCK_POSITIONS)
    {
        return Err(ObeyFault::Broken);
    }
    let pixels = pictures.save(rect)?;
    let block = KeptBlock::new(position, rect.w, rect.h, pixels);
    blocks.keep(block)?;
    Ok(())
}

/// Restores a rectangle within bounds.
pub(crate) fn restore(
    blocks: &ClientBlocks,
    pictures: &mut ClientPicture,
    bounds: Option<Rect>,
    position: u32,
    rect: Rect,
) -> Result<(), ObeyFault>
    ensures drawn { (confirmed : Confirmed) (caches : CachesOf)
        → Draws result (λ c. client_after_clipped confirmed pictures.old.size bounds c
        (RestoreBlock position rect)) caches blocks.now blocks.now pictures.old pictures.new }
    ensures place { SamePlace pictures.old pictures.new }
{
    if !is_inside(pictures.size(), rect) {
        return Err(ObeyFault::Broken);
    }
    match blocks.at(position, rect.w, rect.h) {
        None => Err(ObeyFault::Broken),
        Some(block) => {
            pictures.restore(rect, bounds, block.pixels());
            Ok(())
        }
    }
}
