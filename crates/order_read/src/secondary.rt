//! A secondary order and a frame marker ([MS-RDPEGDI] 2.2.2.2.1.2 and 2.2.2.2.1.3.7).
//!
//! | offset | size | field | value |
//! |---|---|---|---|
//! | 0 | 1 | controlFlags | `03` |
//! | 1 | 2 | orderLength | the whole order's length less 13 |
//! | 3 | 2 | extraFlags | |
//! | 5 | 1 | orderType | `00` and `02` Cache Bitmap, raw and packed, `03` Cache Glyph, `07` Cache Brush |
//! | 6 | | the order | by its type |

ghost use Rattle.std.specs.Prelude.{◌≡◌, ◌≤◌, Err, IfOk, length};
ghost use Rattle.wire_num.specs.Cursor.{ReadsField, ReadsFields};
ghost use Rattle.wire_num.specs.Number.{little_at, little_signed_at};
ghost use Rattle.px_core.specs.Depth.{brush_bytes};
ghost use Rattle.px_core.specs.Pixels.{pixels_of};
ghost use Rattle.px_core.specs.Picture.{turned_over};
ghost use Rattle.order_fields.specs.Secondary.{bitmap_at, brush_at, glyph_at, glyphs_at, glyph_order_at, glyph_length, secondary_at, marker_at};
ghost use Rattle.order_read.specs.declared.order_fault.OrderFault.TheVariants.{BadOrder};
ghost use Rattle.order_read.specs.Reading.{ReadsOnto};
ghost use Rattle.order_read.specs.Others.{others, bitmap_head_at, glyph_head_at, one_glyph_at, brush_head_at, inside_at};

use crate::number::{read_byte, read_signed};
use crate::pixels::{pixels_of, turned_over};
use crate::{OrderFault, Read};
use draw_ops::{Brush, Glyph};
use px_core::{Depth, brush_bytes, brush_format};
use std::alloc::Global;
use wire_num::{Cursor, OutOfMemory, Range, Short};

/// The types of the orders that are read.
const CACHE_BITMAP_UNCOMPRESSED: u8 = 0x00;

const CACHE_BITMAP_COMPRESSED: u8 = 0x02;

const CACHE_GLYPH: u8 = 0x03;

const CACHE_BRUSH: u8 = 0x07;

/// What stands behind orderLength has so many bytes more than it says.
const LENGTH_LESS: usize = 10;

/// The sides of a brush in pixels.
const BRUSH_SIDE: u8 = 8;

/// The action of a marker at a frame's end.
const TS_FRAME_END: u32 = 1;

/// The bytes of a signed coordinate.
const SIGNED_SIZE: usize = 2;

/// A cached bitmap up to its bytes.
#[derive(Clone, Copy, Drop)]
pub struct BitmapHead {
    cache: u8,
    w: u8,
    h: u8,
    depth: u8,
    count: u16,
    index: u16,
}

/// A cached glyph up to its bits.
#[derive(Clone, Copy, Drop)]
pub struct GlyphHead {
    index: u16,
    x: i32,
    y: i32,
    cx: u16,
    cy: u16,
}

/// Reads a bitmap up to its bytes: cacheId 1, pad 1, width 1, height 1, bits per pixel 1, length 2, cacheIndex 2.
fn read_bitmap_head(cursor: &mut Cursor<'_>) -> Result<BitmapHead, Short>
    ensures { ReadsFields bitmap_head_at result cursor.old cursor.new }
{
    let cache = read_byte(cursor)?;
    read_byte(cursor)?;
    let w = read_byte(cursor)?;
    let h = read_byte(cursor)?;
    let depth = read_byte(cursor)?;
    let count = cursor.u16_le()?;
    let index = cursor.u16_le()?;
    Ok(BitmapHead {
        cache,
        w,
        h,
        depth,
        count,
        index,
    })
}

/// Reads a coordinate.
fn read_coordinate(cursor: &mut Cursor<'_>) -> Result<i32, Short>
    ensures { ReadsField (little_signed_at 2) result cursor.old cursor.new }
{
    let number = read_signed(cursor, SIGNED_SIZE)?;
    Ok(number as i32)
}

/// Reads a glyph up to its bits: cacheIndex 2, x 2, y 2, cx 2, cy 2.
fn read_glyph_head(cursor: &mut Cursor<'_>) -> Result<GlyphHead, Short>
    ensures { ReadsFields glyph_head_at result cursor.old cursor.new }
{
    let index = cursor.u16_le()?;
    let x = read_coordinate(cursor)?;
    let y = read_coordinate(cursor)?;
    let cx = cursor.u16_le()?;
    let cy = cursor.u16_le()?;
    Ok(GlyphHead {
        index,
        x,
        y,
        cx,
        cy,
    })
}

/// How many bytes the bits of a glyph have: rows padded to bytes, and the whole to a multiple of four.
fn glyph_length(cx: u16, cy: u16) -> usize
    ensures { result ≡ glyph_length cx cy }
{
    let row = (usize::from(cx) + 7) / 8;
    4 * ((row * usize::from(cy) + 3) / 4)
}

/// Reads a cached bitmap and appends it.
fn read_bitmap(
    cursor: &mut Cursor<'_>,
    flags: u16,
    packed: bool,
    out: &mut Vec<Read>,
) -> Result<(), OrderFault>
    ensures { ReadsOnto (others (bitmap_at flags packed)) result cursor.old cursor.new out.old.items out.new.items }
{
    let head = read_bitmap_head(cursor)?;
    let from = cursor.at();
    cursor.bytes(usize::from(head.count))?;
    let at = Range {
        from,
        to: cursor.at(),
    };
    out.push(Read::Bitmap {
        cache: head.cache,
        index: head.index,
        w: head.w,
        h: head.h,
        depth: head.depth,
        flags,
        packed,
        at,
    })?;
    Ok(())
}

/// Reads a glyph and appends it.
fn read_glyph(
    alloc: Global,
    cursor: &mut Cursor<'_>,
    cache: u8,
    out: &mut Vec<Read>,
) -> Result<(), OrderFault>
    ensures { ReadsOnto (others (one_glyph_at cache)) result cursor.old cursor.new out.old.items out.new.items }
{
    let head = read_glyph_head(cursor)?;
    let bits = cursor.bytes(glyph_length(head.cx, head.cy))?;
    let glyph = Glyph::new(alloc, head.x, head.y, head.cx, head.cy, bits)?;
    out.push(Read::Glyph {
        cache,
        index: head.index,
        glyph,
    })?;
    Ok(())
}

/// Reads so many glyphs and appends them.
fn read_glyphs(
    alloc: Global,
    cursor: &mut Cursor<'_>,
    count: u8,
    cache: u8,
    out: &mut Vec<Read>,
) -> Result<(), OrderFault>
    ensures { ReadsOnto (others (glyphs_at count cache)) result cursor.old cursor.new out.old.items out.new.items }
{
    for _ in 0..count {
        read_glyph(alloc, cursor, cache, out)?;
    }
    Ok(())
}

/// Reads an order of glyphs: cacheId 1, count 1, the glyphs.
fn read_glyph_order(
    alloc: Global,
    cursor: &mut Cursor<'_>,
    out: &mut Vec<Read>,
) -> Result<(), OrderFault>
    ensures { ReadsOnto (others glyph_order_at) result cursor.old cursor.new out.old.items out.new.items }
{
    let cache = read_byte(cursor)?;
    let count = read_byte(cursor)?;
    read_glyphs(alloc, cursor, count, cache, out)
}

/// Reads a brush up to its pixels: entry 1, format 05, sides 08 08, style 1, length C0; at 16 bits format 04 and length 80.
fn read_brush_head(cursor: &mut Cursor<'_>, depth: Depth) -> Result<u8, Short>
    ensures { ReadsFields (brush_head_at depth) result cursor.old cursor.new }
{
    let entry = read_byte(cursor)?;
    cursor.expect(&[brush_format(depth)])?;
    cursor.expect(&[BRUSH_SIDE, BRUSH_SIDE])?;
    read_byte(cursor)?;
    cursor.expect(&[brush_bytes(depth)])?;
    Ok(entry)
}

/// Reads a brush and appends it; its rows stand from the bottom up.
fn read_brush(
    alloc: Global,
    cursor: &mut Cursor<'_>,
    out: &mut Vec<Read>,
    depth: Depth,
) -> Result<(), OrderFault>
    ensures { ReadsOnto (others (brush_at depth)) result cursor.old cursor.new out.old.items out.new.items }
{
    let entry = read_brush_head(cursor, depth)?;
    let bytes = cursor.bytes(usize::from(brush_bytes(depth)))?;
    let brush = brush_of(alloc, bytes, depth)?;
    out.push(Read::Brush { entry, brush })?;
    Ok(())
}

/// The brush whose rows stand from the bottom up in bytes.
fn brush_of(alloc: Global, bytes: &[u8], depth: Depth) -> Result<Brush, OutOfMemory>
    requires { length bytes.now ≡ brush_bytes depth }
    ensures { IfOk result (λ brush. brush ≡ turned_over 8 8 (pixels_of depth bytes.now)) }
{
    let side = usize::from(BRUSH_SIDE);
    let pixels = pixels_of(alloc, bytes, depth)?;
    let upright = turned_over(alloc, &pixels, side, side)?;
    Ok(Brush::new(&upright))
}

/// Reads what stands within an order's length: extraFlags 2, orderType 1, and the order.
fn read_inside(
    alloc: Global,
    cursor: &mut Cursor<'_>,
    out: &mut Vec<Read>,
    depth: Depth,
) -> Result<(), OrderFault>
    ensures { ReadsOnto (others (inside_at depth)) result cursor.old cursor.new out.old.items out.new.items }
{
    let flags = cursor.u16_le()?;
    let typed = cursor.at();
    match read_byte(cursor)? {
        CACHE_BITMAP_UNCOMPRESSED => read_bitmap(cursor, flags, false, out),
        CACHE_BITMAP_COMPRESSED => read_bitmap(cursor, flags, true, out),
        CACHE_GLYPH => read_glyph_order(alloc, cursor, out),
        CACHE_BRUSH => read_brush(alloc, cursor, out, depth),
        _ => {
            cursor.go_to(typed);
            Err(OrderFault::BadOrder { at: typed })
        }
    }
}

/// Reads a secondary order behind its control byte and appends what it says.
pub fn read_secondary(
    alloc: Global,
    cursor: &mut Cursor<'_>,
    out: &mut Vec<Read>,
    depth: Depth,
) -> Result<(), OrderFault>
    ensures { ReadsOnto (others (secondary_at depth)) result cursor.old cursor.new out.old.items out.new.items }
{
    let first = cursor.at();
    let total = cursor.u16_le()?;
    let mut content = match cursor.within(usize::from(total) + LENGTH_LESS) {
        Ok(content) => content,
        Err(_) => {
            cursor.go_to(first);
            return Err(OrderFault::BadOrder { at: first });
        }
    };
    match read_inside(alloc, &mut content, out, depth) {
        Ok(()) if content.left() == 0 => Ok(()),
        Ok(()) => refuse(cursor, content.at()),
        Err(OrderFault::BadOrder { .. }) => refuse(cursor, content.at()),
        Err(OrderFault::OutOfMemory) => Err(OrderFault::OutOfMemory),
    }
}

/// Refuses the field at an offset, where the cursor is then.
fn refuse(cursor: &mut Cursor<'_>, at: usize) -> Result<(), OrderFault>
    requires { at ≤ length cursor.old.bytes }
    ensures refused { result ≡ Err (BadOrder at) }
    ensures place { cursor.new ≡ record { bytes = cursor.old.bytes; at = at } }
{
    cursor.go_to(at);
    Err(OrderFault::BadOrder { at })
}

/// Reads a frame marker behind its control byte and appends it: action 4, 0 where a frame begins and 1 where it ends.
pub fn read_marker(cursor: &mut Cursor<'_>, out: &mut Vec<Read>) -> Result<(), OrderFault>
    ensures { ReadsOnto (others marker_at) result cursor.old cursor.new out.old.items out.new.items }
{
    let at = cursor.at();
    let action = cursor.u32_le()?;
    if TS_FRAME_END < action {
        cursor.go_to(at);
        return Err(OrderFault::BadOrder { at });
    }
    out.push(Read::Marker {
        end: action == TS_FRAME_END,
    })?;
    Ok(())
}
