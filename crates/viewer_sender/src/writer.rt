//! A frame in the making: the registers and caches of its viewer, as they are after the orders so far, and the updates that these orders are gathered into.
ghost use Rattle.std.specs.Prelude.{◌≡◌, ◌<◌, ◌+◌, [], ◌∷◌, length, IfOk, OnOk, Some};
ghost use Rattle.caps_sets.specs.Confirmed.{depth_of};
ghost use Rattle.order_fields.specs.OrderTable.{FitBounds, first_registers};
ghost use Rattle.order_fields.specs.OrderDelta.{edges_of_optional};
ghost use Rattle.order_fields.specs.NamedDrawing.{NamedDrawing, drawing_fields};
ghost use Rattle.px_core.specs.declared.rectangle.Rect.{Rect};
ghost use Rattle.frame_rules.specs.FrameOrders.{Uses, sending, use_of, image_use, brush_use, glyph_use};
ghost use Rattle.frame_rules.specs.FrameOrders.SentOrder.{Drawn, FrameMarker, CacheImage, CacheBrush, CacheGlyph};
ghost use Rattle.frame_laws.specs.Sound.{AreColors, IsSoundImage};
ghost use Rattle.frame_laws.specs.SoundState.{IsSoundGlyph};
ghost use Rattle.viewer_sender.specs.Gathering.{nothing_gathered};
ghost use Rattle.viewer_sender.specs.Stands.{CachesStand};
ghost use Rattle.viewer_sender.specs.Writes.{Writes, used, loaded, IsDrawing};

use crate::OutOfMemory;
use crate::caches::Caches;
use crate::updates::Updates;
use cache_plan::Use;
use caps_sets::Confirmed;
use draw_ops::{Brush, Glyph, Image};
use order_fields::{Fields, Regs};
use px_core::Rect;
use std::alloc::Global;

/// The number of the first glyph cache.
const FIRST_GLYPH_CACHE: usize = 3;

/// The number of the brush cache.
const BRUSH_CACHE: usize = 13;

/// What a viewer confirmed, what its client keeps, and the updates in the making.
#[derive(Drop)]
pub(crate) struct FrameWriter {
    /// What the viewer confirmed.
    pub confirmed: Confirmed,
    /// The registers that the next order is written against.
    pub registers: Regs,
    /// The viewer's caches.
    pub caches: Caches,
    /// The updates so far.
    pub updates: Updates,
    /// Room for the counted bytes of a run's order, which is used again.
    pub run: Vec<u8>,
}

impl FrameWriter {
    /// A writer of a new viewer's first frame.
    pub fn new(alloc: Global, confirmed: Confirmed) -> Result<FrameWriter, OutOfMemory>
        ensures confirmed { IfOk result (λ w. w.confirmed ≡ confirmed) }
        ensures registers { IfOk result (λ w. w.registers ≡ first_registers) }
        ensures caches { IfOk result (λ w. CachesStand confirmed w.caches []) }
        ensures updates { IfOk result (λ w. w.updates ≡ nothing_gathered w.updates.fast) }
    {
        let caches = Caches::new(alloc, &confirmed)?;
        let updates = Updates::new(alloc)?;
        Ok(FrameWriter {
            confirmed,
            registers: Regs::new(),
            caches,
            updates,
            run: Vec::new(alloc),
        })
    }

    /// Adds the order of a drawing.
    pub fn put_drawn(&mut self, fields: &Fields, bounds: Option<Rect>) -> Result<(), OutOfMemory>
        requires bounds { FitBounds (edges_of_optional bounds) }
        requires drawing { IsDrawing fields.now }
        requires run { length fields.now.values.bytes < 256 }
        ensures { OnOk result ((area : Rect) (d : NamedDrawing) → fields.now ≡ drawing_fields (depth_of self.old.confirmed) area d
            → Writes self.old self.new (λ uses. sending (Drawn area d bounds ∷ []) uses)) }
    {
        self.updates.put_drawn(
            &mut self.registers,
            fields,
            bounds,
            self.confirmed.zero_bounds,
        )
    }

    /// Adds a frame marker.
    pub fn put_marker(&mut self, end: bool) -> Result<(), OutOfMemory>
        ensures { OnOk result (Writes self.old self.new (λ uses. sending (FrameMarker end ∷ []) uses)) }
    {
        self.updates.put_marker(end)
    }

    /// Uses an image of a bitmap cache, which is sent where it isn't there; answers its entry.
    pub fn use_image(
        &mut self,
        alloc: Global,
        cache: u8,
        number: u64,
        image: &Image,
    ) -> Result<u16, OutOfMemory>
        requires cache { cache < 3 }
        requires sound { IsSoundImage image.now }
        ensures index { IfOk result (λ index. (uses : Uses) → CachesStand self.old.confirmed self.old.caches uses
            → index ≡ (image_use self.old.confirmed uses cache (Some (loaded number image.now))).index) }
        ensures orders { OnOk result (Writes self.old self.new (λ uses. used (image_use self.old.confirmed uses cache (Some (loaded number image.now))))) }
    {
        match self.caches.use_key(usize::from(cache), number)? {
            Use::Hit(index) => Ok(index),
            Use::Miss(index) => {
                let no_header = self.confirmed.no_header;
                let depth = self.confirmed.depth;
                self.updates
                    .put_image(alloc, cache, index, image, no_header, depth)?;
                Ok(index)
            }
        }
    }

    /// Uses a brush, which is sent where the client hasn't it; answers its entry.
    pub fn use_brush(
        &mut self,
        alloc: Global,
        number: u64,
        brush: &Brush,
    ) -> Result<u16, OutOfMemory>
        requires whole { length brush.now ≡ 64 }
        requires colors { AreColors brush.now }
        ensures index { IfOk result (λ index. (uses : Uses) → CachesStand self.old.confirmed self.old.caches uses
            → index ≡ (brush_use self.old.confirmed uses (Some (loaded number brush.now))).index) }
        ensures orders { OnOk result (Writes self.old self.new (λ uses. used (brush_use self.old.confirmed uses (Some (loaded number brush.now))))) }
    {
        match self.caches.use_key(BRUSH_CACHE, number)? {
            Use::Hit(index) => Ok(index),
            Use::Miss(index) => {
                let [entry, _] = index.to_le_bytes();
                let depth = self.confirmed.depth;
                self.updates.put_brush(alloc, entry, brush, depth)?;
                Ok(index)
            }
        }
    }

    /// Uses a glyph of a glyph cache, which is sent where it isn't there; answers its entry.
    pub fn use_glyph(
        &mut self,
        alloc: Global,
        cache: u8,
        number: u64,
        glyph: &Glyph,
    ) -> Result<u16, OutOfMemory>
        requires cache { cache < 10 }
        requires sound { IsSoundGlyph glyph.now }
        ensures index { IfOk result (λ index. (uses : Uses) → CachesStand self.old.confirmed self.old.caches uses
            → index ≡ (glyph_use self.old.confirmed uses cache (loaded number glyph.now)).index) }
        ensures orders { OnOk result (Writes self.old self.new (λ uses. used (glyph_use self.old.confirmed uses cache (loaded number glyph.now)))) }
    {
        match self
            .caches
            .use_key(FIRST_GLYPH_CACHE + usize::from(cache), number)?
        {
            Use::Hit(index) => Ok(index),
            Use::Miss(index) => {
                self.updates.put_glyph(alloc, cache, index, glyph)?;
                Ok(index)
            }
        }
    }
}
