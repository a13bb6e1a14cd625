//! Orders gathered into Orders updates ([MS-RDPBCGR] 2.2.9.1.1.3 and 2.2.9.1.2, and [MS-RDPEGDI] 2.2.2.2).
//!
//! An order is written where it stays: behind the orders of the update that is begun. Only where it doesn't fit there is it moved, to the front of
//! the next one.

ghost use Rattle.std.specs.Prelude.{◌≡◌, ◌==◌, ◌+◌, ◌*◌, ◌≤◌, [], false, length, drop, option_copied, OnOk, IfOk, IsTrue, None};
ghost use Rattle.px_core.specs.Colors.{are_colors};
ghost use Rattle.draw_ops.specs.Fits.{image_rule, glyph_rule};
ghost use Rattle.order_fields.specs.OrderTable.{FitBounds, registers_after};
ghost use Rattle.order_fields.specs.OrderDelta.{order_bytes, edges_of_optional};
ghost use Rattle.order_means.specs.UpdateBodies.{tile_packet, synchronize_packet};
ghost use Rattle.order_means.specs.CacheOrders.{cache_bitmap_bytes, cache_glyph_bytes, cache_brush_bytes, frame_marker_bytes};
ghost use Rattle.rle_enc.specs.Packed.{IsTilePacked};
ghost use Rattle.bitmap_upd.specs.Place.{IsUpdated};
ghost use Rattle.viewer_sender.specs.Gathering.{Gathering, gathering, nothing_gathered, closed, packets_if, packets_of};
ghost use Rattle.viewer_sender.specs.Gathering.{with_order, after_order, with_packet, orders_in, most_room};
ghost use Rattle.viewer_sender.specs.Framings.{is_fast};

use crate::OutOfMemory;
use crate::framing::{BEFORE_ORDERS, Framing};
use bitmap_upd::TileBody;
use draw_ops::{Brush, Glyph, Image};
use order_fields::{Fields, Regs, write_order};
use order_second::{cache_bitmap_at, cache_brush_at, cache_glyph, frame_marker};
use px_core::{Depth, Rect};
use rle_enc::packed_tile;
use std::alloc::Global;
use std::marker::Model;
use std::mem;

/// The updates of a frame: the packets that are whole, and the update that is begun.
#[derive(Drop)]
pub(crate) struct Updates {
    framing: Framing,
    packets: Vec<u8>,
    user: Vec<u8>,
    next: Vec<u8>,
    end: usize,
    count: u16,
}

impl Model for Updates {
    ghost use Rattle.std.specs.Prelude.{length, drop};
    ghost use Rattle.viewer_sender.specs.Gathering.{Gathering, gathering, orders_in, IsBegun};
    ghost use Rattle.viewer_sender.specs.Framings.{is_fast};

    ghost Value = { Gathering };

    ghost view = { λ u. gathering (is_fast u.framing) u.packets.items (orders_in u.user.items u.end) u.count (drop u.end u.user.items) };

    ghost invariant = { λ u. IsBegun (is_fast u.framing) (length u.user.items) u.end u.count };
}

impl Updates {
    /// No packet, and no update that is begun.
    pub fn new(alloc: Global) -> Result<Updates, OutOfMemory>
        ensures { IfOk result (λ u. u ≡ nothing_gathered false) }
    {
        let user = Vec::from_slice(alloc, &[0; BEFORE_ORDERS])?;
        Ok(Updates {
            framing: Framing::Indications,
            packets: Vec::new(alloc),
            user,
            next: Vec::new(alloc),
            end: BEFORE_ORDERS,
            count: 0,
        })
    }

    /// Begins a frame in packets of a kind.
    pub fn begin(&mut self, framing: Framing)
        requires { self.old ≡ nothing_gathered self.old.fast }
        ensures { self.new ≡ nothing_gathered (is_fast framing) }
    {
        self.framing = framing;
    }

    /// Adds a drawing's order, against the registers, which are then those after it.
    pub(crate) fn put_drawn(
        &mut self,
        registers: &mut Regs,
        fields: &Fields,
        bounds: Option<Rect>,
        zero_bounds: bool,
    ) -> Result<(), OutOfMemory>
        requires bounds { FitBounds (edges_of_optional bounds) }
        requires some { 1 ≤ length (order_bytes registers.old zero_bounds fields.now (edges_of_optional bounds)) }
        requires short { length (order_bytes registers.old zero_bounds fields.now (edges_of_optional bounds)) ≤ 16357 }
        ensures order { OnOk result (self.new ≡ after_order self.old (order_bytes registers.old zero_bounds fields.now (edges_of_optional bounds))) }
        ensures registers { OnOk result (registers.new ≡ registers_after registers.old fields.now (edges_of_optional bounds)) }
    {
        self.user.truncate(self.end);
        write_order(&mut self.user, registers, fields, bounds, zero_bounds)?;
        self.settle()
    }

    /// Adds the order of an image, as it is shown at a depth, for an entry of a bitmap cache.
    pub(crate) fn put_image(
        &mut self,
        alloc: Global,
        cache: u8,
        index: u16,
        image: &Image,
        no_header: bool,
        depth: Depth,
    ) -> Result<(), OutOfMemory>
        requires image { image_rule image.now ≡ None }
        requires colors { IsTrue (are_colors image.now.pixels) }
        requires some { 1 ≤ length (cache_bitmap_bytes depth no_header cache index image.now) }
        requires short { length (cache_bitmap_bytes depth no_header cache index image.now) ≤ 16357 }
        ensures { OnOk result (self.new ≡ after_order self.old (cache_bitmap_bytes depth no_header cache index image.now)) }
    {
        self.user.truncate(self.end);
        cache_bitmap_at(alloc, &mut self.user, cache, index, image, no_header, depth)?;
        self.settle()
    }

    /// Adds the order of a glyph for an entry of a glyph cache.
    pub(crate) fn put_glyph(
        &mut self,
        alloc: Global,
        cache: u8,
        index: u16,
        glyph: &Glyph,
    ) -> Result<(), OutOfMemory>
        requires glyph { glyph_rule glyph.now ≡ None }
        requires some { 1 ≤ length (cache_glyph_bytes cache index glyph.now) }
        requires short { length (cache_glyph_bytes cache index glyph.now) ≤ 16357 }
        ensures { OnOk result (self.new ≡ after_order self.old (cache_glyph_bytes cache index glyph.now)) }
    {
        self.user.truncate(self.end);
        cache_glyph(alloc, &mut self.user, cache, index, glyph)?;
        self.settle()
    }

    /// Adds the order of a brush, as it is shown at a depth, for an entry of the brush cache.
    pub(crate) fn put_brush(
        &mut self,
        alloc: Global,
        entry: u8,
        brush: &Brush,
        depth: Depth,
    ) -> Result<(), OutOfMemory>
        requires some { 1 ≤ length (cache_brush_bytes depth entry brush.now) }
        requires short { length (cache_brush_bytes depth entry brush.now) ≤ 16357 }
        ensures { OnOk result (self.new ≡ after_order self.old (cache_brush_bytes depth entry brush.now)) }
    {
        self.user.truncate(self.end);
        cache_brush_at(alloc, &mut self.user, entry, brush, depth)?;
        self.settle()
    }

    /// Adds the marker of a frame's begin, or of its end.
    pub fn put_marker(&mut self, end: bool) -> Result<(), OutOfMemory>
        ensures { OnOk result (self.new ≡ after_order self.old (frame_marker_bytes end)) }
    {
        self.user.truncate(self.end);
        frame_marker(&mut self.user, end)?;
        self.settle()
    }

    /// Writes the packet of a tile, whose pixels go row by row from the top and are shown at a depth, behind the packets that are whole.
    pub fn put_tile(
        &mut self,
        alloc: Global,
        r: Rect,
        pixels: &[u32],
        no_header: bool,
        depth: Depth,
    ) -> Result<(), OutOfMemory>
        requires place { IsUpdated r }
        requires number { length pixels.now ≡ r.w * r.h }
        requires colors { IsTrue (are_colors pixels.now) }
        ensures { OnOk result (self.new ≡ with_packet self.old (tile_packet depth self.old.fast no_header r pixels.now)) }
    {
        let packed = packed_tile(alloc, pixels, r.w as usize, r.h as usize, no_header, depth)?;
        self.put_packed_tile(r, pixels, packed.as_deref(), no_header, depth)
    }

    /// Writes the packet of a tile of which the packed bytes are there, where it goes packed, behind the packets that are whole.
    #[tactic(auto, using(crate::proofs::TileShort::tile_short))]
    pub fn put_packed_tile(
        &mut self,
        r: Rect,
        pixels: &[u32],
        packed: Option<&[u8]>,
        no_header: bool,
        depth: Depth,
    ) -> Result<(), OutOfMemory>
        requires place { IsUpdated r }
        requires number { length pixels.now ≡ r.w * r.h }
        requires packed { IsTilePacked depth no_header r.w r.h pixels.now (option_copied packed) }
        ensures { OnOk result (self.new ≡ with_packet self.old (tile_packet depth self.old.fast no_header r pixels.now)) }
    {
        let body = TileBody::of(r, pixels, packed, no_header, depth);
        let size = body.size();
        self.framing.put_tile_headers(&mut self.packets, size)?;
        body.put(&mut self.packets)
    }

    /// Writes the packet of a Synchronize update behind the packets that are whole.
    pub fn put_synchronize(&mut self) -> Result<(), OutOfMemory>
        ensures { OnOk result (self.new ≡ with_packet self.old (synchronize_packet self.old.fast)) }
    {
        self.framing.write_synchronize(&mut self.packets)
    }

    /// Ends the update that is begun, if one is.
    pub fn close(&mut self) -> Result<(), OutOfMemory>
        ensures { OnOk result (self.new ≡ closed self.old) }
    {
        end_update(
            &mut self.packets,
            &mut self.user,
            self.end,
            self.count,
            self.framing,
        )?;
        self.user.truncate(BEFORE_ORDERS);
        self.end = BEFORE_ORDERS;
        self.count = 0;
        Ok(())
    }

    /// The packets that are whole, which are then gone.
    pub fn take_packets(&mut self, alloc: Global) -> Vec<u8>
        ensures packets { result.items ≡ self.old.packets }
        ensures rest { self.new ≡ record self.old { packets = [] } }
    {
        mem::replace(&mut self.packets, Vec::new(alloc))
    }

    /// Has the bytes behind the update join it as an order, or begin the next one.
    fn settle(&mut self) -> Result<(), OutOfMemory>
        requires some { 1 ≤ length self.old.tail }
        requires short { length self.old.tail ≤ 16357 }
        ensures { OnOk result (self.new ≡ after_order self.old self.old.tail) }
    {
        if self.user.len() > self.framing.most_room() {
            self.begin_next()?;
        }
        self.join();
        Ok(())
    }

    /// Has the bytes behind the update join it as an order.
    fn join(&mut self)
        requires some { 1 ≤ length self.old.tail }
        requires short { 26 + (length self.old.begun + length self.old.tail) ≤ most_room self.old.fast }
        ensures { self.new ≡ with_order self.old self.old.tail }
    {
        self.end = self.user.len();
        self.count += 1;
    }

    /// Ends the update that is begun, and moves the bytes behind it to the room of the next one's orders. That is rare, so it stands apart.
    #[inline(never)]
    fn begin_next(&mut self) -> Result<(), OutOfMemory>
        ensures { OnOk result (self.new ≡ gathering self.old.fast (packets_of self.old) [] 0 self.old.tail) }
    {
        self.next.clear();
        self.next.extend_from_slice(&[0; BEFORE_ORDERS])?;
        self.next.extend_from_slice(&self.user[self.end..])?;
        end_update(
            &mut self.packets,
            &mut self.user,
            self.end,
            self.count,
            self.framing,
        )?;
        mem::swap(&mut self.user, &mut self.next);
        self.end = BEFORE_ORDERS;
        self.count = 0;
        Ok(())
    }
}

/// Writes the packet of an Orders update at the end, of which so many bytes of room and orders are, with so many orders; nothing where there are none.
fn end_update(
    packets: &mut Vec<u8>,
    user: &mut Vec<u8>,
    end: usize,
    count: u16,
    framing: Framing,
) -> Result<(), OutOfMemory>
    requires room { 26 ≤ end }
    requires there { end ≤ length user.old.items }
    requires few { end ≤ most_room (is_fast framing) }
    ensures ok { OnOk result (packets.new.items ≡ packets_if (count == 0) (is_fast framing) packets.old.items (orders_in user.old.items end) count) }
    ensures same { length user.new.items ≡ length user.old.items }
{
    if count == 0 {
        Ok(())
    } else {
        framing.write_orders(packets, &mut user[..end], count)
    }
}
