//! Pixels of two bytes in run-length bitmaps, and tiles, images and brushes of 16 bits ([MS-RDPBCGR] 2.2.9.1.1.3.1.2 and 3.1.9, [MS-RDPEGDI] 2.2.2.2.1.2).

ghost use Rattle.std.specs.Prelude.{◌≡◌, ◌<◌, ◌≤◌, ◌*◌, ◌%◌, ◌++◌, length, IfErr, IfOk, IsTrue, None, Ok, OnErr, OnOk};
ghost use Rattle.wire_num.specs.Written.{AppendsFront};
ghost use Rattle.px_core.specs.declared.depth.Depth.TheVariants.{Bits16};
ghost use Rattle.px_core.specs.Colors.{are_colors};
ghost use Rattle.px_core.specs.Pixels.{are_pixels};
ghost use Rattle.draw_ops.specs.Fits.{image_rule};
ghost use Rattle.run_lengths.specs.RunLength.{Decompresses, unrle};
ghost use Rattle.order_means.specs.CacheOrders.{cache_bitmap_bytes, cache_brush_bytes};
ghost use Rattle.order_means.specs.UpdateBodies.{tile_body};
ghost use Rattle.rle_enc.specs.Result.{IsPacked, IsBounded, ReadsBack};
ghost use Rattle.rle_dec.specs.Faults.{RefusesAt};
ghost use Rattle.bitmap_upd.specs.Place.{IsUpdated};

use crate::OutOfMemory;
use bitmap_upd::write_tile_at;
use draw_ops::{Brush, Image};
use order_second::{cache_bitmap_at, cache_brush_at};
use px_core::{Depth, Rect};
use rle_dec::{RleFault, unpack_at};
use rle_enc::{Packed, pack_at};
use std::alloc::Global;

/// Packs pixels of 16 bits in rows of `w`, the bottom row first, each below 2^16 (profile).
pub fn pack16(alloc: Global, pixels: &[u32], w: usize) -> Result<Packed, OutOfMemory>
    requires wide { 1 ≤ w }
    requires rows { length pixels.now % w ≡ 0 }
    requires some { 1 ≤ length pixels.now }
    requires few { length pixels.now ≤ 4096 }
    requires pixels { IsTrue (are_pixels Bits16 pixels.now) }
    ensures packed { IfOk result (IsPacked Bits16 w pixels.now) }
    ensures reads_back { IfOk result (ReadsBack Bits16 w pixels.now) }
    ensures bound { IfOk result (IsBounded Bits16 w pixels.now) }
{
    pack_at(alloc, pixels, w, Depth::Bits16)
}

/// The pixels of 16 bits of a stream in rows of `w`, the bottom row first. Takes memory once, for its result, before it reads the first
/// order.
pub fn unpack16(alloc: Global, bytes: &[u8], w: usize, h: usize) -> Result<Vec<u32>, RleFault>
    requires width { (1 ≤ w) × (w ≤ 64) }
    requires height { (1 ≤ h) × (h ≤ 64) }
    ensures ok { IfOk result (λ pixels. unrle Bits16 bytes.now w h ≡ Ok pixels.items) }
    ensures drawn { IfOk result (λ pixels. Decompresses Bits16 bytes.now w h pixels.items) }
    ensures refused { IfErr result (RefusesAt Bits16 bytes.now w h) }
{
    unpack_at(alloc, bytes, w, h, Depth::Bits16)
}

/// Writes the body of a Bitmap update of one rectangle for a viewer of 16 bits at the end. The pixels are colours of 24 bits, which are
/// cut, and go row by row from the top; `no_header` says whether the viewer takes packed pixels without a header.
///
/// An `Err` is want of memory and leaves a front of the body there.
pub fn write_tile16(
    alloc: Global,
    out: &mut Vec<u8>,
    r: Rect,
    pixels: &[u32],
    no_header: bool,
) -> Result<(), OutOfMemory>
    requires place { IsUpdated r }
    requires number { length pixels.now ≡ r.w * r.h }
    requires colors { IsTrue (are_colors pixels.now) }
    ensures ok { OnOk result (out.new.items ≡ out.old.items ++ tile_body Bits16 no_header r pixels.now) }
    ensures memory { OnErr result (AppendsFront out.old.items (tile_body Bits16 no_header r pixels.now) out.new.items) }
{
    write_tile_at(alloc, out, r, pixels, no_header, Depth::Bits16)
}

/// Writes the order that puts an image into an entry of a bitmap cache of a viewer of 16 bits at the end. Its colours of 24 bits are cut;
/// `no_header` says whether the viewer takes packed pixels without a header.
///
/// An `Err` is want of memory and leaves a front of the order there.
pub fn cache_bitmap16(
    alloc: Global,
    out: &mut Vec<u8>,
    cache: u8,
    index: u16,
    image: &Image,
    no_header: bool,
) -> Result<(), OutOfMemory>
    requires image { image_rule image.now ≡ None }
    requires colors { IsTrue (are_colors image.now.pixels) }
    ensures ok { OnOk result (out.new.items ≡ out.old.items ++ cache_bitmap_bytes Bits16 no_header cache index image.now) }
    ensures memory { OnErr result (AppendsFront out.old.items (cache_bitmap_bytes Bits16 no_header cache index image.now) out.new.items) }
{
    cache_bitmap_at(alloc, out, cache, index, image, no_header, Depth::Bits16)
}

/// Writes the order that puts a brush, whose colours of 24 bits are cut, into an entry of the brush cache of a viewer of 16 bits at the end.
///
/// An `Err` is want of memory and leaves a front of the order there.
pub fn cache_brush16(
    alloc: Global,
    out: &mut Vec<u8>,
    entry: u8,
    brush: &Brush,
) -> Result<(), OutOfMemory>
    ensures ok { OnOk result (out.new.items ≡ out.old.items ++ cache_brush_bytes Bits16 entry brush.now) }
    ensures memory { OnErr result (AppendsFront out.old.items (cache_brush_bytes Bits16 entry brush.now) out.new.items) }
{
    cache_brush_at(alloc, out, entry, brush, Depth::Bits16)
}
