//! An image for an entry of a bitmap cache, raw or packed ([MS-RDPEGDI] 2.2.2.2.1.2.2).
//!
//! | offset | size | field | value |
//! |---|---|---|---|
//! | 0 | 1 | controlFlags | 3, a secondary order |
//! | 1 | 2 | orderLength | the order's bytes less 13 |
//! | 3 | 2 | extraFlags | 0x0400, NO_BITMAP_COMPRESSION_HDR, where packed; else 0 |
//! | 5 | 1 | orderType | 2 where packed, else 0 |
//! | 6 | 1 | cacheId | the bitmap cache |
//! | 7 | 1 | pad1Octet | 0 |
//! | 8 | 1 | bitmapWidth | the columns, padded to a multiple of four |
//! | 9 | 1 | bitmapHeight | the rows |
//! | 10 | 1 | bitmapBitsPerPel | 24 or 16, the viewer's depth |
//! | 11 | 2 | bitmapLength | how many bytes stand behind cacheIndex |
//! | 13 | 2 | cacheIndex | the entry |
//! | 15 | | bitmapDataStream | the pixels from the bottom row up, packed or as they are |

ghost use Rattle.std.specs.Prelude.{◌≡◌, ◌≤◌, ◌++◌, length, List, ℕ, OnOk, OnErr, IsTrue, None};
ghost use Rattle.wire_num.specs.Written.{AppendsFront};
ghost use Rattle.px_core.specs.declared.depth.Depth.TheVariants.{Bits24};
ghost use Rattle.px_core.specs.Colors.{are_colors};
ghost use Rattle.draw_ops.specs.Fits.{image_rule};
ghost use Rattle.run_lengths.specs.WirePixels.{pixel_data};
ghost use Rattle.order_means.specs.CacheOrders.{secondary_bytes, cache_bitmap_body, cache_bitmap_data, cache_bitmap_bytes};

use crate::OutOfMemory;
use draw_ops::Image;
use px_core::{Depth, bits_in};
use rle_enc::{pad_rows, padded_width, pixel_data, put_both, show_all, turn_over};
use std::alloc::Global;

/// The type of a raw bitmap.
const RAW: u8 = 0;

/// The type of a packed bitmap.
const PACKED: u8 = 2;

/// NO_BITMAP_COMPRESSION_HDR.
const NO_HEADER: u16 = 0x0400;

/// How many bytes orderLength counts besides the pixels'.
const BESIDES: u16 = 2;

/// What stands before so many bytes of pixels.
fn order_head(
    flags: u16,
    kind: u8,
    cache: u8,
    index: u16,
    w: u8,
    h: u8,
    size: u16,
    depth: Depth,
) -> [u8; 15]
    requires { size ≤ 12288 }
    ensures { (bytes : List ℕ) → length bytes ≡ size → result ++ bytes ≡ secondary_bytes flags kind (cache_bitmap_body depth cache index w h bytes) }
{
    let [total, total_high] = (size + BESIDES).to_le_bytes();
    let [extra, extra_high] = flags.to_le_bytes();
    let [low, high] = size.to_le_bytes();
    let [entry, entry_high] = index.to_le_bytes();
    [
        3,
        total,
        total_high,
        extra,
        extra_high,
        kind,
        cache,
        0,
        w,
        h,
        bits_in(depth) as u8,
        low,
        high,
        entry,
        entry_high,
    ]
}

/// What stands before so many bytes of pixels, which are packed or aren't.
fn bitmap_head(
    is_packed: bool,
    cache: u8,
    index: u16,
    w: u8,
    h: u8,
    size: u16,
    depth: Depth,
) -> [u8; 15]
    requires { size ≤ 12288 }
    ensures { (bytes : List ℕ) → length bytes ≡ size → result ++ bytes ≡ cache_bitmap_data depth cache index w h (pixel_data is_packed bytes) }
{
    if is_packed {
        order_head(NO_HEADER, PACKED, cache, index, w, h, size, depth)
    } else {
        order_head(0, RAW, cache, index, w, h, size, depth)
    }
}

/// Writes the order that puts an image into an entry of a bitmap cache of a viewer of 24 bits at the end; `no_header` says whether the
/// viewer takes packed pixels without a header.
///
/// An `Err` is want of memory and leaves a front of the order there.
pub fn cache_bitmap(
    alloc: Global,
    out: &mut Vec<u8>,
    cache: u8,
    index: u16,
    image: &Image,
    no_header: bool,
) -> Result<(), OutOfMemory>
    requires image { image_rule image.now ≡ None }
    requires colors { IsTrue (are_colors image.now.pixels) }
    ensures ok { OnOk result (out.new.items ≡ out.old.items ++ cache_bitmap_bytes Bits24 no_header cache index image.now) }
    ensures memory { OnErr result (AppendsFront out.old.items (cache_bitmap_bytes Bits24 no_header cache index image.now) out.new.items) }
{
    cache_bitmap_at(alloc, out, cache, index, image, no_header, Depth::Bits24)
}

/// Writes the order that puts an image, as it is shown at a depth, into an entry of a bitmap cache at the end; `no_header` says whether
/// the viewer takes packed pixels without a header.
///
/// An `Err` is want of memory and leaves a front of the order there.
pub fn cache_bitmap_at(
    alloc: Global,
    out: &mut Vec<u8>,
    cache: u8,
    index: u16,
    image: &Image,
    no_header: bool,
    depth: Depth,
) -> Result<(), OutOfMemory>
    requires image { image_rule image.now ≡ None }
    requires colors { IsTrue (are_colors image.now.pixels) }
    ensures ok { OnOk result (out.new.items ≡ out.old.items ++ cache_bitmap_bytes depth no_header cache index image.now) }
    ensures memory { OnErr result (AppendsFront out.old.items (cache_bitmap_bytes depth no_header cache index image.now) out.new.items) }
{
    let (w, h) = (image.w() as usize, image.h() as usize);
    let rows = pad_rows(alloc, image.pixels(), w, h)?;
    let padded = padded_width(w);
    let wire = show_all(turn_over(alloc, &rows, padded, h)?, depth);
    let data = pixel_data(alloc, &wire, padded, no_header, depth)?;
    let head = bitmap_head(
        data.is_packed(),
        cache,
        index,
        padded as u8,
        h as u8,
        data.bytes().len() as u16,
        depth,
    );
    put_both(out, &head, data.bytes())
}
