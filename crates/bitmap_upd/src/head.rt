//! A Bitmap update of one rectangle ([MS-RDPBCGR] 2.2.9.1.1.3.1.2 and 2.2.9.1.1.3.1.2.2).
//!
//! | offset | size | field | value |
//! |---|---|---|---|
//! | 0 | 2 | updateType | `01 00`, a bitmap |
//! | 2 | 2 | numberRectangles | `01 00` |
//! | 4 | 2 | destLeft | the left column |
//! | 6 | 2 | destTop | the top row |
//! | 8 | 2 | destRight | the right column, inclusive |
//! | 10 | 2 | destBottom | the bottom row, inclusive |
//! | 12 | 2 | width | the columns |
//! | 14 | 2 | height | the rows |
//! | 16 | 2 | bitsPerPixel | 24 or 16, the viewer's depth |
//! | 18 | 2 | flags | 0x0401 where packed: BITMAP_COMPRESSION and NO_BITMAP_COMPRESSION_HDR; else 0 |
//! | 20 | 2 | bitmapLength | how many bytes stand behind it |
//! | 22 | | bitmapDataStream | the pixels from the bottom row up, packed or as they are |

ghost use Rattle.std.specs.Prelude.{◌≡◌, ◌≤◌, ◌++◌, ◌∷◌, length, List, ℕ, pos, ◌≤ℤ◌};
ghost use Rattle.px_core.specs.Picture.{nat_of};
ghost use Rattle.run_lengths.specs.WirePixels.{pixel_data};
ghost use Rattle.order_means.specs.UpdateBodies.{tile_flags, tile_data_bytes};

use px_core::{Depth, bits_in};

/// BITMAP_COMPRESSION and NO_BITMAP_COMPRESSION_HDR.
const PACKED: u16 = 0x0401;

/// A place of a rectangle that is updated.
pub(crate) fn place(at: i32) -> u16
    requires least { pos 0 ≤ℤ at }
    requires most { at ≤ℤ pos 2047 }
    ensures value { result ≡ nat_of at }
    ensures bound { result ≤ 2047 }
{
    at as u16
}

/// What stands before the pixels of a rectangle that are so many bytes.
pub(crate) fn tile_head(
    left: u16,
    top: u16,
    w: u16,
    h: u16,
    is_packed: bool,
    size: u16,
    depth: Depth,
) -> [u8; 22]
    requires left { left ≤ 2047 }
    requires top { top ≤ 2047 }
    requires narrow { w ≤ 64 }
    requires low { h ≤ 64 }
    requires wide { 1 ≤ w }
    requires tall { 1 ≤ h }
    ensures { (bytes : List ℕ) → length bytes ≡ size → result ++ bytes ≡ 1 ∷ 0 ∷ 1 ∷ 0 ∷ tile_data_bytes depth left top w h (pixel_data is_packed bytes) }
{
    let [left_low, left_high] = left.to_le_bytes();
    let [top_low, top_high] = top.to_le_bytes();
    let [right, right_high] = (left + w - 1).to_le_bytes();
    let [bottom, bottom_high] = (top + h - 1).to_le_bytes();
    let [w_low, w_high] = w.to_le_bytes();
    let [h_low, h_high] = h.to_le_bytes();
    let [bits, bits_high] = bits_in(depth).to_le_bytes();
    let [flags, flags_high] = flags_of(is_packed).to_le_bytes();
    let [low, high] = size.to_le_bytes();
    [
        1,
        0,
        1,
        0,
        left_low,
        left_high,
        top_low,
        top_high,
        right,
        right_high,
        bottom,
        bottom_high,
        w_low,
        w_high,
        h_low,
        h_high,
        bits,
        bits_high,
        flags,
        flags_high,
        low,
        high,
    ]
}

/// The flags of pixels that are packed or aren't.
fn flags_of(is_packed: bool) -> u16
    ensures { result ≡ tile_flags is_packed }
{
    if is_packed { PACKED } else { 0 }
}
