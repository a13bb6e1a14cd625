//! A glyph for an entry of a glyph cache, one an order ([MS-RDPEGDI] 2.2.2.2.1.2.5).
//!
//! | offset | size | field | value |
//! |---|---|---|---|
//! | 0 | 1 | controlFlags | 3, a secondary order |
//! | 1 | 2 | orderLength | the order's bytes less 13 |
//! | 3 | 2 | extraFlags | 0 |
//! | 5 | 1 | orderType | 3 |
//! | 6 | 1 | cacheId | the glyph cache |
//! | 7 | 1 | cGlyphs | 1 |
//! | 8 | 2 | cacheIndex | the entry |
//! | 10 | 2 | x | how far the cell's left column is from the pen, signed |
//! | 12 | 2 | y | how far its top row is from the pen, signed |
//! | 14 | 2 | cx | the cell's columns |
//! | 16 | 2 | cy | its rows |
//! | 18 | | aj | the rows' bits, each row padded to bytes, and the whole to a multiple of four bytes |

ghost use Rattle.std.specs.Prelude.{◌≡◌, ◌≤◌, ◌++◌, ◌-◌, ◌∷◌, ◌≤ℤ◌, length, replicate, List, ℕ, pos, negsuc, OnOk, OnErr, IfOk, None};
ghost use Rattle.wire_num.specs.Written.{AppendsFront};
ghost use Rattle.byteorder.specs.Endian.{little_bytes};
ghost use Rattle.wire_num.specs.Number.{unsigned};
ghost use Rattle.draw_ops.specs.Fits.{glyph_rule};
ghost use Rattle.run_lengths.specs.WirePixels.{padded};
ghost use Rattle.order_means.specs.CacheOrders.{secondary_bytes, cache_glyph_bytes};

use crate::OutOfMemory;
use draw_ops::Glyph;
use rle_enc::put_both;
use std::alloc::Global;

/// The order's type.
const CACHE_GLYPH: u8 = 3;

/// The bits are padded to a multiple of so many bytes.
const BITS_STEP: usize = 4;

/// How many bytes orderLength counts besides the bits'.
const BESIDES: u16 = 5;

/// The number of two bytes that stands for an offset.
fn offset_number(offset: i32) -> u16
    requires least { negsuc 63 ≤ℤ offset }
    requires most { offset ≤ℤ pos 64 }
    ensures { result ≡ unsigned 2 offset }
{
    let unsigned = if offset < 0 {
        offset + 0x1_0000
    } else {
        offset
    };
    unsigned as u16
}

/// The bits of a glyph, padded to a multiple of four bytes.
fn padded_bits(alloc: Global, bits: &[u8]) -> Result<Vec<u8>, OutOfMemory>
    requires { length bits.now ≤ 128 }
    ensures value { IfOk result (λ all. all.items ≡ bits.now ++ replicate (padded (length bits.now) - length bits.now) 0) }
    ensures number { IfOk result (λ all. length all.items ≤ 128) }
{
    let added = BITS_STEP * ((bits.len() + 3) / BITS_STEP) - bits.len();
    let mut all = Vec::new(alloc);
    all.extend_from_slice(bits)?;
    all.extend_from_slice(&[0; 3][..added])?;
    Ok(all)
}

/// What stands before so many bytes of bits.
fn glyph_head(cache: u8, index: u16, x: u16, y: u16, cx: u16, cy: u16, size: u16) -> [u8; 18]
    requires { size ≤ 128 }
    ensures { (bits : List ℕ) → length bits ≡ size → result ++ bits ≡ secondary_bytes 0 3
        (cache ∷ 1 ∷ (little_bytes 2 index ++ (little_bytes 2 x ++ (little_bytes 2 y ++ (little_bytes 2 cx ++ (little_bytes 2 cy ++ bits)))))) }
{
    let [total, total_high] = (size + BESIDES).to_le_bytes();
    let [entry, entry_high] = index.to_le_bytes();
    let [x_low, x_high] = x.to_le_bytes();
    let [y_low, y_high] = y.to_le_bytes();
    let [cx_low, cx_high] = cx.to_le_bytes();
    let [cy_low, cy_high] = cy.to_le_bytes();
    [
        3,
        total,
        total_high,
        0,
        0,
        CACHE_GLYPH,
        cache,
        1,
        entry,
        entry_high,
        x_low,
        x_high,
        y_low,
        y_high,
        cx_low,
        cx_high,
        cy_low,
        cy_high,
    ]
}

/// Writes the order that puts a glyph into an entry of a glyph cache at the end.
///
/// An `Err` is want of memory and leaves a front of the order there.
pub fn cache_glyph(
    alloc: Global,
    out: &mut Vec<u8>,
    cache: u8,
    index: u16,
    glyph: &Glyph,
) -> Result<(), OutOfMemory>
    requires { glyph_rule glyph.now ≡ None }
    ensures ok { OnOk result (out.new.items ≡ out.old.items ++ cache_glyph_bytes cache index glyph.now) }
    ensures memory { OnErr result (AppendsFront out.old.items (cache_glyph_bytes cache index glyph.now) out.new.items) }
{
    let bits = padded_bits(alloc, glyph.bits())?;
    let head = glyph_head(
        cache,
        index,
        offset_number(glyph.x()),
        offset_number(glyph.y()),
        glyph.cx(),
        glyph.cy(),
        bits.len() as u16,
    );
    put_both(out, &head, &bits)
}
