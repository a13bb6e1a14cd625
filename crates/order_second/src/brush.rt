//! A brush for an entry of the brush cache ([MS-RDPEGDI] 2.2.2.2.1.2.7).
//!
//! | offset | size | field | value |
//! |---|---|---|---|
//! | 0 | 1 | controlFlags | 3, a secondary order |
//! | 1 | 2 | orderLength | 191, or 127 at 16 bits: the order's bytes less 13 |
//! | 3 | 2 | extraFlags | 0 |
//! | 5 | 1 | orderType | 7 |
//! | 6 | 1 | cacheEntry | the entry |
//! | 7 | 1 | iBitmapFormat | 5, BMF_24BPP, or 4, BMF_16BPP |
//! | 8 | 2 | cx, cy | 8 and 8 |
//! | 10 | 1 | Style | 0 |
//! | 11 | 1 | iBytes | 192 or 128 |
//! | 12 | iBytes | brushData | the pixels from the bottom row up, the lowest byte of each first |

ghost use Rattle.std.specs.Prelude.{◌≡◌, ◌∷◌, ◌++◌, length, List, ℕ, OnOk, OnErr};
ghost use Rattle.wire_num.specs.Written.{AppendsFront};
ghost use Rattle.px_core.specs.declared.depth.Depth.TheVariants.{Bits24};
ghost use Rattle.px_core.specs.Depth.{brush_bytes, brush_format};
ghost use Rattle.order_means.specs.CacheOrders.{cache_brush_bytes, secondary_bytes};

use crate::OutOfMemory;
use draw_ops::Brush;
use px_core::{Depth, brush_bytes, brush_format};
use rle_enc::{put_both, raw_bytes, show_all, turn_over};
use std::alloc::Global;

/// The order's type.
const CACHE_BRUSH: u8 = 7;

/// The columns, and the rows, of a brush.
const SIDE: usize = 8;

/// Writes the order that puts a brush into an entry of the brush cache of a viewer of 24 bits at the end.
///
/// An `Err` is want of memory and leaves a front of the order there.
pub fn cache_brush(
    alloc: Global,
    out: &mut Vec<u8>,
    entry: u8,
    brush: &Brush,
) -> Result<(), OutOfMemory>
    ensures ok { OnOk result (out.new.items ≡ out.old.items ++ cache_brush_bytes Bits24 entry brush.now) }
    ensures memory { OnErr result (AppendsFront out.old.items (cache_brush_bytes Bits24 entry brush.now) out.new.items) }
{
    cache_brush_at(alloc, out, entry, brush, Depth::Bits24)
}

/// Writes the order that puts a brush, as it is shown at a depth, into an entry of the brush cache at the end.
///
/// An `Err` is want of memory and leaves a front of the order there.
pub fn cache_brush_at(
    alloc: Global,
    out: &mut Vec<u8>,
    entry: u8,
    brush: &Brush,
    depth: Depth,
) -> Result<(), OutOfMemory>
    ensures ok { OnOk result (out.new.items ≡ out.old.items ++ cache_brush_bytes depth entry brush.now) }
    ensures memory { OnErr result (AppendsFront out.old.items (cache_brush_bytes depth entry brush.now) out.new.items) }
{
    let wire = show_all(turn_over(alloc, brush.pixels(), SIDE, SIDE)?, depth);
    let bytes = raw_bytes(alloc, &wire, depth)?;
    put_both(out, &brush_head(entry, depth), &bytes)
}

/// What stands before the pixels of a brush.
fn brush_head(entry: u8, depth: Depth) -> [u8; 12]
    ensures { (bytes : List ℕ) → length bytes ≡ brush_bytes depth
        → result ++ bytes ≡ secondary_bytes 0 7 (entry ∷ brush_format depth ∷ 8 ∷ 8 ∷ 0 ∷ brush_bytes depth ∷ bytes) }
{
    let size = brush_bytes(depth);
    let format = brush_format(depth);
    [
        3,
        size - 1,
        0,
        0,
        0,
        CACHE_BRUSH,
        entry,
        format,
        8,
        8,
        0,
        size,
    ]
}
