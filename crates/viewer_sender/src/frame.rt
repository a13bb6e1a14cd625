//! A frame in bytes: its orders gathered into updates, a bitmap update for each tile, and the mark's own update.
ghost use Rattle.std.specs.Prelude.{◌≡◌, ◌*◌, ◌&&◌, ◌++◌, [], length, true, IfOk, OnOk, IsTrue, flat_map};
ghost use Rattle.px_core.specs.Colors.{are_colors};
ghost use Rattle.px_core.specs.Rectangle.{is_session_size, whole};
ghost use Rattle.px_core.specs.Tiles.{tile_on};
ghost use Rattle.caps_sets.specs.Confirmed.{depth_of};
ghost use Rattle.bitmap_upd.specs.Place.{IsUpdated};
ghost use Rattle.order_means.specs.UpdateBodies.{tile_packet};
ghost use Rattle.frame_rules.specs.Frame.{FrameOf};
ghost use Rattle.frame_rules.specs.FrameOrders.{Uses, sending, start_orders, black_orders, uses_after, orders_before_tiles};
ghost use Rattle.frame_rules.specs.FrameBytes.{mark_bytes, frame_bytes, registers_after_orders};
ghost use Rattle.frame_rules.specs.Describes.{HasAllCaches};
ghost use Rattle.frame_plan.specs.Takes.{taken_as};
ghost use Rattle.frame_plan.specs.Orders.{all_cached};
ghost use Rattle.viewer_sender.specs.Gathering.{nothing_gathered, gathering, packets_of, closed, with_packet};
ghost use Rattle.viewer_sender.specs.Stands.{CachesStand};
ghost use Rattle.viewer_sender.specs.Writes.{Writes};
ghost use Rattle.viewer_sender.specs.Goes.{AllGo, TilesGo};
ghost use Rattle.viewer_sender.specs.Runs.{frame_sending};

use crate::OutOfMemory;
use crate::drawing::put_drawings;
use crate::framing::Framing;
use crate::plain::put_fill;
use crate::updates::Updates;
use crate::writer::FrameWriter;
use frame_plan::{Take, TakenTile};
use px_core::{Depth, Rect, Size, tile_on, whole};
use std::alloc::Global;
use tile_surface::{LentTile, PackedTile};

/// The packets of a take's frame.
pub(crate) fn write_frame(
    alloc: Global,
    writer: &mut FrameWriter,
    take: &Take,
) -> Result<Vec<u8>, OutOfMemory>
    requires size { IsTrue (is_session_size take.now.size.w take.now.size.h) }
    requires all { HasAllCaches writer.old.confirmed }
    requires drawings { AllGo writer.old.confirmed take.now.frame.sent }
    requires cached { take.now.cached ≡ all_cached writer.old.confirmed take.now.frame.sent }
    requires tiles { TilesGo take.now.size take.now.frame.tiles }
    requires empty { writer.old.updates ≡ nothing_gathered writer.old.updates.fast }
    ensures bytes { IfOk result (λ out. (uses : Uses) (f : FrameOf) → CachesStand writer.old.confirmed writer.old.caches uses
        → take.now.frame ≡ taken_as take.now.size f
        → out.items ≡ frame_bytes take.now.size writer.old.confirmed writer.old.registers uses f) }
    ensures registers { OnOk result ((uses : Uses) (f : FrameOf) → CachesStand writer.old.confirmed writer.old.caches uses
        → take.now.frame ≡ taken_as take.now.size f
        → writer.new.registers ≡ registers_after_orders writer.old.confirmed writer.old.registers
        (orders_before_tiles take.now.size writer.old.confirmed uses f)) }
    ensures caches { OnOk result ((uses : Uses) (f : FrameOf) → CachesStand writer.old.confirmed writer.old.caches uses
        → take.now.frame ≡ taken_as take.now.size f
        → CachesStand writer.old.confirmed writer.new.caches (uses_after writer.old.confirmed uses f.sent)) }
    ensures confirmed { OnOk result (writer.new.confirmed ≡ writer.old.confirmed) }
    ensures empty { OnOk result (writer.new.updates ≡ nothing_gathered writer.new.updates.fast) }
{
    let framing = Framing::of(writer.confirmed.fast);
    writer.updates.begin(framing);
    put_orders(alloc, writer, take)?;
    writer.updates.close()?;
    put_tiles(alloc, writer, take.size(), take.tiles())?;
    put_mark(writer)?;
    Ok(writer.updates.take_packets(alloc))
}

/// Adds the orders of a frame before its tiles.
fn put_orders(alloc: Global, writer: &mut FrameWriter, take: &Take) -> Result<(), OutOfMemory>
    requires size { IsTrue (is_session_size take.now.size.w take.now.size.h) }
    requires all { HasAllCaches writer.old.confirmed }
    requires drawings { AllGo writer.old.confirmed take.now.frame.sent }
    requires cached { take.now.cached ≡ all_cached writer.old.confirmed take.now.frame.sent }
    ensures { OnOk result (Writes writer.old writer.new
        (λ uses. frame_sending take.now.size writer.old.confirmed take.now.frame.first uses take.now.frame.sent)) }
{
    put_start(writer)?;
    put_black(writer, take.size(), take.is_first())?;
    put_drawings(alloc, writer, take.sent().planned())
}

/// Adds the marker of a frame's begin, where the viewer has markers.
fn put_start(writer: &mut FrameWriter) -> Result<(), OutOfMemory>
    ensures { OnOk result (Writes writer.old writer.new (λ uses. sending (start_orders writer.old.confirmed.marker) uses)) }
{
    if writer.confirmed.marker {
        writer.put_marker(false)
    } else {
        Ok(())
    }
}

/// Adds the black fill of a first frame, where the viewer has PatBlt.
fn put_black(writer: &mut FrameWriter, size: Size, first: bool) -> Result<(), OutOfMemory>
    requires { IsTrue (is_session_size size.w size.h) }
    ensures { OnOk result (Writes writer.old writer.new (λ uses. sending (black_orders size (first && writer.old.confirmed.pat)) uses)) }
{
    if first && writer.confirmed.pat {
        put_fill(writer, whole(size), 0, None)
    } else {
        Ok(())
    }
}

/// Writes the packets of tiles, one after the other.
fn put_tiles(
    alloc: Global,
    writer: &mut FrameWriter,
    size: Size,
    tiles: &[TakenTile],
) -> Result<(), OutOfMemory>
    requires size { IsTrue (is_session_size size.w size.h) }
    requires tiles { TilesGo size tiles.now }
    ensures { OnOk result (writer.new ≡ record writer.old {
      updates = record writer.old.updates {
        packets = writer.old.updates.packets ++ flat_map (λ tile. tile_packet (depth_of writer.old.confirmed) writer.old.updates.fast
            writer.old.confirmed.no_header (tile_on size tile.0) tile.1) tiles.now;
      };
    }) }
{
    for tile in tiles {
        let no_header = writer.confirmed.no_header;
        let depth = writer.confirmed.depth;
        let r = tile_on(size, tile.number());
        put_tile(alloc, &mut writer.updates, r, tile, no_header, depth)?;
    }
    Ok(())
}

/// Writes the packet of a tile: of its packed bytes, which the takes that share it make once, where the viewer takes these and it lies on the
/// picture whole; else of its pixels where the session keeps them, or of a copy where the picture's right edge cuts it.
fn put_tile(
    alloc: Global,
    updates: &mut Updates,
    r: Rect,
    tile: &TakenTile,
    no_header: bool,
    depth: Depth,
) -> Result<(), OutOfMemory>
    requires place { IsUpdated r }
    requires number { length tile.now.1 ≡ r.w * r.h }
    requires colors { IsTrue (are_colors tile.now.1) }
    ensures { OnOk result (updates.new ≡ with_packet updates.old (tile_packet depth updates.old.fast no_header r tile.now.1)) }
{
    if no_header {
        if let Some(lent) = tile.whole() {
            return put_whole(alloc, updates, r, lent, depth);
        }
    }
    match tile.pixels_in_place() {
        Some(pixels) => updates.put_tile(alloc, r, pixels, no_header, depth),
        None => {
            let pixels = tile.copied_pixels(alloc)?;
            updates.put_tile(alloc, r, pixels.as_slice(), no_header, depth)
        }
    }
}

/// Writes the packet of a whole tile for a viewer who takes packed pixels without a header: of the bytes that another take left, or of its own,
/// which it then leaves for the others.
fn put_whole(
    alloc: Global,
    updates: &mut Updates,
    r: Rect,
    lent: &LentTile,
    depth: Depth,
) -> Result<(), OutOfMemory>
    requires place { IsUpdated r }
    requires number { length lent.now ≡ r.w * r.h }
    requires colors { IsTrue (are_colors lent.now) }
    ensures { OnOk result (updates.new ≡ with_packet updates.old (tile_packet depth updates.old.fast true r lent.now)) }
{
    match lent.packed(depth) {
        Some(packed) => put_packed(updates, r, packed),
        None => {
            let packed = lent.pack(alloc, depth)?;
            put_packed(updates, r, &packed)?;
            lent.keep(alloc, packed);
            Ok(())
        }
    }
}

/// Writes the packet of a tile that is packed.
fn put_packed(updates: &mut Updates, r: Rect, packed: &PackedTile) -> Result<(), OutOfMemory>
    requires place { IsUpdated r }
    requires number { length packed.now.pixels ≡ r.w * r.h }
    ensures { OnOk result (updates.new ≡ with_packet updates.old (tile_packet packed.now.depth updates.old.fast true r packed.now.pixels)) }
{
    updates.put_packed_tile(r, packed.pixels(), packed.bytes(), true, packed.depth())
}

/// Writes the mark's own update behind the packets that are whole; no update is begun.
fn put_mark(writer: &mut FrameWriter) -> Result<(), OutOfMemory>
    requires { writer.old.updates ≡ gathering writer.old.updates.fast writer.old.updates.packets [] 0 [] }
    ensures { OnOk result (writer.new ≡ record writer.old {
      updates = gathering writer.old.updates.fast
          (writer.old.updates.packets ++ mark_bytes writer.old.updates.fast writer.old.confirmed.marker) [] 0 [];
    }) }
{
    if writer.confirmed.marker {
        writer.updates.put_marker(true)?;
        writer.updates.close()
    } else {
        writer.updates.put_synchronize()
    }
}
