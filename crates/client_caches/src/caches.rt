//! The caches of a client.

ghost use Rattle.std.specs.Prelude.{◌≡◌, ◌<◌, [], map, length, IfOk, IsTrue, OnErr, option_copied};
ghost use Rattle.px_core.specs.Picture.{item};
ghost use Rattle.px_core.specs.Rectangle.{is_inside};
ghost use Rattle.draw_ops.specs.Slots.{lookup};
ghost use Rattle.order_means.specs.ClientState.{ClientState, empty_cache, cached, with_cached, image_used, glyph_used, brush_used, client_after_bitmap, client_after_glyph};
ghost use Rattle.client_caches.specs.Answers.{Gives};
ghost use Rattle.client_caches.specs.Caches.{first_caches, with_caches, Stores, StoresAt};
ghost use Rattle.client_caches.specs.Stored.{bitmap_order, glyph_order, client_after_upright_brush};

use crate::cached_bitmap::{CachedBitmap, image_of, is_cached_bitmap};
use crate::glyph_cache::GlyphCache;
use crate::image_cache::ImageCache;
use crate::sizes::{brush_entries, holds, size_of, used};
use crate::slots::{no_slots, set_slot};
use crate::{KeptImage, ObeyFault};
use caps_sets::{CacheSize, Confirmed};
use draw_ops::{Brush, Glyph};
use px_core::{Depth, Rect, Size, bytes_in, is_inside};
use std::alloc::Global;
use std::marker::Model;
use wire_num::OutOfMemory;

/// The number of the brush cache, and that of the first glyph cache, in refusals.
const BRUSH_CACHE: u8 = 13;

const FIRST_GLYPH_CACHE: u8 = 3;

/// How many bitmap caches there are, and glyph caches.
const BITMAP_CACHES: u16 = 3;

const GLYPH_CACHES: u8 = 10;

/// The caches of a client: three of bitmaps, ten of glyphs and one of brushes, each with as many entries as were confirmed.
#[derive(Drop)]
pub struct ClientCaches {
    images: Vec<ImageCache>,
    glyphs: Vec<GlyphCache>,
    brushes: Vec<Option<Brush>>,
}

impl Model for ClientCaches {
    ghost use Rattle.client_caches.specs.Caches.{CachesOf, HasAll};

    ghost Value = { CachesOf };

    ghost view = { λ s. record { images = s.images.items; glyphs = s.glyphs.items; brushes = s.brushes.items } };

    ghost invariant = { λ s. HasAll (record { images = s.images.items; glyphs = s.glyphs.items; brushes = s.brushes.items }) };
}

impl ClientCaches {
    /// Caches of the confirmed sizes, of which no entry holds anything.
    pub fn new(alloc: Global, confirmed: &Confirmed) -> Result<ClientCaches, OutOfMemory>
        ensures { IfOk result (λ caches. caches ≡ first_caches confirmed.now) }
    {
        let images = image_caches(alloc, confirmed.bitmaps.sizes())?;
        let glyphs = glyph_caches(alloc, confirmed.glyphs.sizes())?;
        let brushes = no_slots(alloc, usize::from(brush_entries(confirmed.brush)))?;
        Ok(ClientCaches {
            images,
            glyphs,
            brushes,
        })
    }

    /// Keeps the bitmap of an order at a depth. An `Err` leaves the caches as they were.
    pub fn store_bitmap(
        &mut self,
        alloc: Global,
        confirmed: &Confirmed,
        bitmap: &CachedBitmap,
        bytes: &[u8],
        depth: Depth,
    ) -> Result<(), ObeyFault>
        ensures stored { StoresAt depth result (λ c. client_after_bitmap confirmed.now c (bitmap_order bitmap.now bytes.now)) self.old self.new }
        ensures unchanged { OnErr result (self.new ≡ self.old) }
    {
        if !is_cached_bitmap(bitmap, depth) {
            return Err(ObeyFault::Broken);
        }
        let image = image_of(alloc, bitmap, bytes, depth)?;
        let cache = usize::from(bitmap.cache);
        let cell = bytes_in(depth) * (usize::from(bitmap.w) * usize::from(bitmap.h));
        if !holds(
            size_of(confirmed.bitmaps.sizes(), cache),
            bitmap.index,
            cell,
        ) {
            return Err(ObeyFault::Oversized {
                cache: bitmap.cache,
                index: bitmap.index,
            });
        }
        put_image(&mut self.images, cache, usize::from(bitmap.index), image);
        Ok(())
    }

    /// Keeps the glyph of an order. An `Err` leaves the caches as they were.
    pub fn store_glyph(
        &mut self,
        confirmed: &Confirmed,
        cache: u8,
        index: u16,
        glyph: &Glyph,
    ) -> Result<(), ObeyFault>
        ensures stored { Stores result (λ c. client_after_glyph confirmed.now c (glyph_order cache index glyph.now)) self.old self.new }
        ensures unchanged { OnErr result (self.new ≡ self.old) }
    {
        if GLYPH_CACHES <= cache {
            return Err(ObeyFault::Broken);
        }
        let size = size_of(confirmed.glyphs.sizes(), usize::from(cache));
        if !holds(size, index, glyph.bits().len()) {
            return Err(ObeyFault::Oversized {
                cache: FIRST_GLYPH_CACHE + cache,
                index,
            });
        }
        let kept = glyph.share()?;
        put_glyph(
            &mut self.glyphs,
            usize::from(cache),
            usize::from(index),
            kept,
        );
        Ok(())
    }

    /// Keeps the brush of an order, whose rows stand from the top. An `Err` leaves the caches as they were.
    pub fn store_brush(
        &mut self,
        confirmed: &Confirmed,
        entry: u8,
        brush: &Brush,
    ) -> Result<(), ObeyFault>
        ensures stored { Stores result (λ c. client_after_upright_brush confirmed.now c entry brush.now) self.old self.new }
        ensures unchanged { OnErr result (self.new ≡ self.old) }
    {
        if brush_entries(confirmed.brush) <= u16::from(entry) {
            return Err(ObeyFault::Oversized {
                cache: BRUSH_CACHE,
                index: u16::from(entry),
            });
        }
        set_slot(&mut self.brushes, usize::from(entry), *brush);
        Ok(())
    }

    /// The image that an order uses, in which the source must lie.
    pub fn image_used(
        &self,
        confirmed: &Confirmed,
        cache: u16,
        index: u16,
        source: Rect,
    ) -> Result<&KeptImage, ObeyFault>
        ensures used { (c : ClientState) → Gives (λ image. image.now) result (image_used confirmed.now (with_caches c self.now) cache index source) }
        ensures inside { IfOk result (λ image. IsTrue (is_inside (record { w = image.now.w; h = image.now.h }) source)) }
    {
        if BITMAP_CACHES <= cache {
            return Err(ObeyFault::Broken);
        }
        let size = size_of(confirmed.bitmaps.sizes(), usize::from(cache));
        let held = image_in(&self.images, usize::from(cache), usize::from(index));
        let image = used(cache as u8, size.entries, index, held)?;
        if !is_inside(sides(image), source) {
            return Err(ObeyFault::Broken);
        }
        Ok(image)
    }

    /// The glyph that an order uses.
    pub fn glyph_used(
        &self,
        confirmed: &Confirmed,
        cache: u8,
        index: u16,
    ) -> Result<&Glyph, ObeyFault>
        requires { cache < 10 }
        ensures { (c : ClientState) → Gives (λ glyph. glyph.now) result (glyph_used confirmed.now (with_caches c self.now) cache index) }
    {
        let size = size_of(confirmed.glyphs.sizes(), usize::from(cache));
        let held = glyph_in(&self.glyphs, usize::from(cache), usize::from(index));
        used(FIRST_GLYPH_CACHE + cache, size.entries, index, held)
    }

    /// What a glyph cache holds, by index.
    pub fn glyph_slots(&self, cache: u8) -> &[Option<Glyph>]
        requires { cache < 10 }
        ensures { result.now ≡ item self.now.glyphs cache [] }
    {
        self.glyphs[usize::from(cache)].slots()
    }

    /// The brush that an order uses.
    pub fn brush_used(&self, confirmed: &Confirmed, entry: u8) -> Result<&Brush, ObeyFault>
        ensures { (c : ClientState) → Gives (λ brush. brush.now) result (brush_used confirmed.now (with_caches c self.now) entry) }
    {
        let held = slot_at(&self.brushes, usize::from(entry));
        used(
            BRUSH_CACHE,
            brush_entries(confirmed.brush),
            u16::from(entry),
            held,
        )
    }
}

/// The sides of an image.
fn sides(image: &KeptImage) -> Size
    ensures { result ≡ record { w = image.now.w; h = image.now.h } }
{
    Size {
        w: u32::from(image.w()),
        h: u32::from(image.h()),
    }
}

/// Keeps an image at an index of a cache.
fn put_image(images: &mut Vec<ImageCache>, cache: usize, index: usize, image: KeptImage)
    requires { cache < length images.old.items }
    ensures { images.new.items ≡ with_cached cache index image images.old.items }
{
    images[cache].put(index, image);
}

/// Keeps a glyph at an index of a cache.
fn put_glyph(glyphs: &mut Vec<GlyphCache>, cache: usize, index: usize, glyph: Glyph)
    requires { cache < length glyphs.old.items }
    ensures { glyphs.new.items ≡ with_cached cache index glyph glyphs.old.items }
{
    glyphs[cache].put(index, glyph);
}

/// The image at an index of a cache.
fn image_in(images: &[ImageCache], cache: usize, index: usize) -> Option<&KeptImage>
    ensures { option_copied result ≡ cached cache index images.now }
{
    images.get(cache)?.at(index)
}

/// The glyph at an index of a cache.
fn glyph_in(glyphs: &[GlyphCache], cache: usize, index: usize) -> Option<&Glyph>
    ensures { option_copied result ≡ cached cache index glyphs.now }
{
    glyphs.get(cache)?.at(index)
}

/// What a slot holds.
fn slot_at<T>(slots: &[Option<T>], slot: usize) -> Option<&T>
    ensures { option_copied result ≡ lookup slot slots.now }
{
    slots.get(slot)?.as_ref()
}

/// Empty bitmap caches of these sizes.
fn image_caches(alloc: Global, sizes: &[CacheSize]) -> Result<Vec<ImageCache>, OutOfMemory>
    ensures { IfOk result (λ caches. caches.items ≡ map empty_cache sizes.now) }
{
    let mut caches = Vec::with_capacity(alloc, sizes.len())?;
    for size in sizes {
        let cache = ImageCache::new(alloc, usize::from(size.entries))?;
        caches.push(cache)?;
    }
    Ok(caches)
}

/// Empty glyph caches of these sizes.
fn glyph_caches(alloc: Global, sizes: &[CacheSize]) -> Result<Vec<GlyphCache>, OutOfMemory>
    ensures { IfOk result (λ caches. caches.items ≡ map empty_cache sizes.now) }
{
    let mut caches = Vec::with_capacity(alloc, sizes.len())?;
    for size in sizes {
        let cache = GlyphCache::new(alloc, usize::from(size.entries))?;
        caches.push(cache)?;
    }
    Ok(caches)
}
