//! Orders that use no cache ([MS-RDPEGDI] 2.2.2.2.1.1.2).
ghost use Rattle.std.specs.Prelude.{◌≡◌, ◌<◌, [], ◌∷◌, length, OnOk, None};
ghost use Rattle.caps_sets.specs.Confirmed.{depth_of};
ghost use Rattle.order_fields.specs.OrderTable.{FitBounds};
ghost use Rattle.order_fields.specs.OrderDelta.{edges_of_optional};
ghost use Rattle.order_fields.specs.NamedDrawing.{NamedDrawing, drawing_fields};
ghost use Rattle.order_fields.specs.NamedDrawing.NamedDrawing.{Dst, Scr, Opaque, SaveBlock, RestoreBlock};
ghost use Rattle.frame_rules.specs.FrameOrders.{bounds_of, sending};
ghost use Rattle.frame_rules.specs.FrameOrders.SentOrder.{Drawn};
ghost use Rattle.viewer_sender.specs.Writes.{Writes, IsDrawing};
ghost use Rattle.viewer_sender.specs.Goes.{FitsDrawn};

use crate::OutOfMemory;
use crate::bounds::bounds_of;
use crate::orders::fill_order;
use crate::writer::FrameWriter;
use order_fields::Fields;
use order_prim::{dst_blt, save_bitmap, scr_blt};
use px_core::Rect;

/// Adds the order of a drawing that touches an area, in a clip.
pub(crate) fn put_drawn(
    writer: &mut FrameWriter,
    fields: &Fields,
    area: Rect,
    clip: Option<Rect>,
) -> Result<(), OutOfMemory>
    requires bounds { FitBounds (edges_of_optional (bounds_of area clip)) }
    requires drawing { IsDrawing fields.now }
    requires run { length fields.now.values.bytes < 256 }
    ensures { OnOk result ((d : NamedDrawing) → fields.now ≡ drawing_fields (depth_of writer.old.confirmed) area d
        → Writes writer.old writer.new (λ uses. sending (Drawn area d (bounds_of area clip) ∷ []) uses)) }
{
    let bounds = bounds_of(area, clip);
    writer.put_drawn(fields, bounds)
}

/// Adds the order of a rectangle in one colour.
pub(crate) fn put_fill(
    writer: &mut FrameWriter,
    r: Rect,
    color: u32,
    clip: Option<Rect>,
) -> Result<(), OutOfMemory>
    requires { FitsDrawn (depth_of writer.old.confirmed) r (Opaque r color) clip }
    ensures { OnOk result (Writes writer.old writer.new (λ uses. sending (Drawn r (Opaque r color) (bounds_of r clip) ∷ []) uses)) }
{
    let order = fill_order(r, color, writer.confirmed.depth);
    put_drawn(writer, &order, r, clip)
}

/// Adds the order of a raster operation on a rectangle alone.
pub(crate) fn put_dst(
    writer: &mut FrameWriter,
    r: Rect,
    rop: u8,
    clip: Option<Rect>,
) -> Result<(), OutOfMemory>
    requires { FitsDrawn (depth_of writer.old.confirmed) r (Dst r rop) clip }
    ensures { OnOk result (Writes writer.old writer.new (λ uses. sending (Drawn r (Dst r rop) (bounds_of r clip) ∷ []) uses)) }
{
    put_drawn(writer, &dst_blt(r, rop), r, clip)
}

/// Adds the order of a raster operation with the picture itself as its source.
pub(crate) fn put_copy(
    writer: &mut FrameWriter,
    r: Rect,
    rop: u8,
    sx: i32,
    sy: i32,
    clip: Option<Rect>,
) -> Result<(), OutOfMemory>
    requires { FitsDrawn (depth_of writer.old.confirmed) r (Scr r rop sx sy) clip }
    ensures { OnOk result (Writes writer.old writer.new (λ uses. sending (Drawn r (Scr r rop sx sy) (bounds_of r clip) ∷ []) uses)) }
{
    put_drawn(writer, &scr_blt(r, rop, sx, sy), r, clip)
}

/// Adds the order that saves a rectangle at a position.
pub(crate) fn put_save(writer: &mut FrameWriter, position: u32, r: Rect) -> Result<(), OutOfMemory>
    requires { FitsDrawn (depth_of writer.old.confirmed) r (SaveBlock position r) None }
    ensures { OnOk result (Writes writer.old writer.new (λ uses. sending (Drawn r (SaveBlock position r) None ∷ []) uses)) }
{
    put_drawn(writer, &save_bitmap(position, r, false), r, None)
}

/// Adds the order that restores a rectangle from a position.
pub(crate) fn put_restore(
    writer: &mut FrameWriter,
    position: u32,
    r: Rect,
) -> Result<(), OutOfMemory>
    requires { FitsDrawn (depth_of writer.old.confirmed) r (RestoreBlock position r) None }
    ensures { OnOk result (Writes writer.old writer.new (λ uses. sending (Drawn r (RestoreBlock position r) None ∷ []) uses)) }
{
    put_drawn(writer, &save_bitmap(position, r, true), r, None)
}
