//! The orders of a drawing that goes as an order, by its shape ([MS-RDPEGDI] 2.2.2.2.1.1.2).
ghost use Rattle.std.specs.Prelude.{◌≡◌, OnOk};
ghost use Rattle.frame_rules.specs.FrameOrders.{sending_of};
ghost use Rattle.frame_rules.specs.Describes.{HasAllCaches};
ghost use Rattle.frame_plan.specs.Orders.{cached_of, sent_as, drawings_in, AreChosen};
ghost use Rattle.viewer_sender.specs.Writes.{Writes};
ghost use Rattle.viewer_sender.specs.Goes.{GoesWith, SentGoes, AllGo};
ghost use Rattle.viewer_sender.specs.Runs.{drawings_sending};

use crate::OutOfMemory;
use crate::cached::{put_blit, put_blit3, put_pat};
use crate::plain::{put_copy, put_dst, put_fill, put_restore, put_save};
use crate::text::put_text;
use crate::writer::FrameWriter;
use draw_ops::Shape;
use frame_plan::{Cached, Planned};
use std::alloc::Global;

/// Adds the orders of drawings, one after the other.
pub(crate) fn put_drawings(
    alloc: Global,
    writer: &mut FrameWriter,
    drawings: &[Planned],
) -> Result<(), OutOfMemory>
    requires all { HasAllCaches writer.old.confirmed }
    requires go { AllGo writer.old.confirmed (drawings_in drawings.now) }
    requires chosen { AreChosen writer.old.confirmed drawings.now }
    ensures { OnOk result (Writes writer.old writer.new (λ uses. drawings_sending writer.old.confirmed uses (drawings_in drawings.now))) }
{
    for i in 0..drawings.len() {
        put_drawing(alloc, writer, &drawings[i])?;
    }
    Ok(())
}

/// Adds the orders of a drawing: those of the cache entries that its client hasn't, and then its own.
fn put_drawing(
    alloc: Global,
    writer: &mut FrameWriter,
    planned: &Planned,
) -> Result<(), OutOfMemory>
    requires all { HasAllCaches writer.old.confirmed }
    requires goes { SentGoes writer.old.confirmed (sent_as planned.now) }
    requires chosen { planned.now.cached ≡ cached_of writer.old.confirmed (sent_as planned.now) }
    requires with_it { GoesWith planned.now.pending.drawing.shape planned.now.cached }
    ensures { OnOk result (Writes writer.old writer.new (λ uses. sending_of writer.old.confirmed uses (sent_as planned.now))) }
{
    let pending = &planned.pending;
    let position = planned.position;
    let drawing = pending.drawing();
    let clip = drawing.clip;
    match (&drawing.shape, &planned.cached) {
        (Shape::Fill { rect, color }, _) => put_fill(writer, *rect, *color, clip),
        (Shape::Dst { rect, rop }, _) => put_dst(writer, *rect, *rop, clip),
        (Shape::Pat { rect, rop, .. }, Cached::Brush(brush)) => {
            put_pat(alloc, writer, brush, *rect, *rop, clip)
        }
        (Shape::Copy { rect, rop, sx, sy }, _) => put_copy(writer, *rect, *rop, *sx, *sy, clip),
        (
            Shape::Blit {
                rect,
                rop,
                sx,
                sy,
                ..
            },
            Cached::Image { cache, image },
        ) => put_blit(alloc, writer, *cache, image, *rect, *rop, *sx, *sy, clip),
        (
            Shape::Blit3 {
                rect,
                rop,
                sx,
                sy,
                ..
            },
            Cached::ImageAndBrush {
                cache,
                image,
                brush,
            },
        ) => put_blit3(
            alloc, writer, *cache, image, brush, *rect, *rop, *sx, *sy, clip,
        ),
        (
            Shape::Text {
                x,
                y,
                color,
                run,
                ..
            },
            Cached::Glyphs(cache),
        ) => put_text(alloc, writer, pending, *cache, *x, *y, *color, run, clip),
        (Shape::Save { rect, .. }, _) => put_save(writer, position, *rect),
        (Shape::Restore { .. }, _) => put_restore(writer, position, pending.rect()),
        _ => unreachable!(),
    }
}
