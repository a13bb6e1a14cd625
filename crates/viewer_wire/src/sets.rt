//! The sets of a Confirm Active ([MS-RDPBCGR] 2.2.7): General, Order, Bitmap Cache, Brush, Glyph Cache and Pointer. A field of which nothing is said is 0.
//!
//! | set | length | fields |
//! |---|---|---|
//! | General | 24 | protocolVersion (2 at 8): 512 for a cautious client; extraFlags (2 at 14): NO_BITMAP_COMPRESSION_HDR, FASTPATH_OUTPUT_SUPPORTED |
//! | Order | 88 | orderFlags (2 at 34): NEGOTIATEORDERSUPPORT, ORDERFLAGS_EXTRA_FLAGS, ZEROBOUNDSDELTASSUPPORT; orderSupport (32 at 36); orderSupportExFlags (2 at 70) |
//! | Bitmap Cache | 40 | three times entries and cell (12 at 28) |
//! | Brush | 8 | brushSupportLevel (4 at 4) |
//! | Glyph Cache | 52 | ten times entries and cell (40 at 4); GlyphSupportLevel (2 at 48) |
//! | Pointer | 10 | none |

ghost use Rattle.std.specs.Prelude.{◌≡◌, ◌++◌, ◌<◌, ◌≤◌, length, OnOk};
ghost use Rattle.caps_sets.specs.DemandActive.{flag};
ghost use Rattle.viewer_rules.specs.ClientPackets.{number_if, general_flags, general_of, order_flags, order_of, sizes_bytes, bitmap_caches_of};
ghost use Rattle.viewer_rules.specs.ClientPackets.{level_by, brush_of, glyph_caches_of, sets_of};
ghost use Rattle.viewer_wire.specs.Writes.{order_start, order_end};

use caps_sets::{CacheSize, Confirmed};
use wire_num::OutOfMemory;

/// The set's header, and its fields up to protocolVersion.
const GENERAL_START: [u8; 8] = [1, 0, 24, 0, 0, 0, 0, 0];

/// NO_BITMAP_COMPRESSION_HDR and FASTPATH_OUTPUT_SUPPORTED ([MS-RDPBCGR] 2.2.7.1.1).
const NO_HEADER: u16 = 0x400;

const FAST: u16 = 1;

/// The set's header, and its fields up to orderFlags.
const ORDER_START: [u8; 34] = [
    3, 0, 88, 0, 0, 0, 0, 0, 0, 0, 0, 0, 0, 0, 0, 0, 0, 0, 0, 0, 0, 0, 0, 0, 0, 0, 0, 0, 0, 0, 0,
    0, 0, 0,
];

/// NEGOTIATEORDERSUPPORT and ORDERFLAGS_EXTRA_FLAGS, and ZEROBOUNDSDELTASSUPPORT ([MS-RDPBCGR] 2.2.7.1.3).
const ORDER_FLAGS: u16 = 0x82;

const ZERO_BOUNDS: u16 = 8;

/// The set's header, and its fields up to the caches.
const BITMAP_CACHE_START: [u8; 28] = [
    4, 0, 40, 0, 0, 0, 0, 0, 0, 0, 0, 0, 0, 0, 0, 0, 0, 0, 0, 0, 0, 0, 0, 0, 0, 0, 0, 0,
];

const BRUSH_START: [u8; 4] = [15, 0, 8, 0];

const GLYPH_CACHE_START: [u8; 4] = [16, 0, 52, 0];

/// The whole set: no shapes of pointers are kept, whatever was given.
const NO_POINTERS: [u8; 10] = [8, 0, 10, 0, 0, 0, 0, 0, 0, 0];

/// Writes the six sets at the end.
pub(crate) fn put_sets(body: &mut Vec<u8>, c: &Confirmed) -> Result<(), OutOfMemory>
    ensures written { OnOk result (body.new.items ≡ body.old.items ++ sets_of c.now) }
    ensures bitmaps { OnOk result (length c.now.bitmaps ≡ 3) }
    ensures glyphs { OnOk result (length c.now.glyphs ≡ 10) }
{
    put_general(body, c)?;
    put_order(body, c)?;
    put_bitmap_caches(body, c)?;
    put_brush(body, c)?;
    put_glyph_caches(body, c)?;
    body.extend_from_slice(&NO_POINTERS)?;
    Ok(())
}

/// A number where it is confirmed, else 0.
fn number_if(is: bool, n: u16) -> u16
    ensures value { result ≡ number_if is n }
    ensures most { result ≤ n }
{
    if is { n } else { 0 }
}

/// A flag of one byte.
fn flag(is: bool) -> u8
    ensures { result ≡ flag is }
{
    if is { 1 } else { 0 }
}

fn put_general(body: &mut Vec<u8>, c: &Confirmed) -> Result<(), OutOfMemory>
    ensures { OnOk result (body.new.items ≡ body.old.items ++ general_of c.now) }
{
    body.extend_from_slice(&GENERAL_START)?;
    body.extend_from_slice(&number_if(c.cautious, 512).to_le_bytes())?;
    body.extend_from_slice(&[0; 4])?;
    body.extend_from_slice(&general_flags(c).to_le_bytes())?;
    body.extend_from_slice(&[0; 8])?;
    Ok(())
}

/// extraFlags.
fn general_flags(c: &Confirmed) -> u16
    ensures { result ≡ general_flags c.now }
{
    number_if(c.no_header, NO_HEADER) + number_if(c.fast, FAST)
}

fn put_order(body: &mut Vec<u8>, c: &Confirmed) -> Result<(), OutOfMemory>
    ensures { OnOk result (body.new.items ≡ body.old.items ++ order_of c.now) }
{
    put_order_start(body, c)?;
    put_order_end(body, c)?;
    Ok(())
}

/// The set up to the support of Mem3Blt orders.
fn put_order_start(body: &mut Vec<u8>, c: &Confirmed) -> Result<(), OutOfMemory>
    ensures { OnOk result (body.new.items ≡ body.old.items ++ order_start c.now) }
{
    body.extend_from_slice(&ORDER_START)?;
    body.extend_from_slice(&order_flags(c).to_le_bytes())?;
    body.extend_from_slice(&[
        flag(c.dst),
        flag(c.pat),
        flag(c.scr),
        flag(c.mem),
        flag(c.mem3),
    ])?;
    Ok(())
}

/// The rest of it: SaveBitmap and GlyphIndex orders, and orderSupportExFlags.
fn put_order_end(body: &mut Vec<u8>, c: &Confirmed) -> Result<(), OutOfMemory>
    ensures { OnOk result (body.new.items ≡ body.old.items ++ order_end c.now) }
{
    body.extend_from_slice(&[0, 0, 0, 0, 0, 0, flag(c.save)])?;
    body.extend_from_slice(&[0; 15])?;
    body.extend_from_slice(&[flag(c.glyph), 0, 0, 0, 0, 0, 0])?;
    body.extend_from_slice(&number_if(c.marker, 4).to_le_bytes())?;
    body.extend_from_slice(&[0; 16])?;
    Ok(())
}

fn order_flags(c: &Confirmed) -> u16
    ensures { result ≡ order_flags c.now }
{
    ORDER_FLAGS + number_if(c.zero_bounds, ZERO_BOUNDS)
}

fn put_bitmap_caches(body: &mut Vec<u8>, c: &Confirmed) -> Result<(), OutOfMemory>
    ensures written { OnOk result (body.new.items ≡ body.old.items ++ bitmap_caches_of c.now) }
    ensures number { OnOk result (length c.now.bitmaps ≡ 3) }
{
    body.extend_from_slice(&BITMAP_CACHE_START)?;
    put_sizes(body, c.bitmaps.sizes())?;
    Ok(())
}

/// Writes the sizes of caches.
fn put_sizes(body: &mut Vec<u8>, sizes: &[CacheSize]) -> Result<(), OutOfMemory>
    ensures { OnOk result (body.new.items ≡ body.old.items ++ sizes_bytes sizes.now) }
{
    match sizes {
        [] => Ok(()),
        [first, rest @ ..] => {
            body.extend_from_slice(&first.entries.to_le_bytes())?;
            body.extend_from_slice(&first.cell.to_le_bytes())?;
            put_sizes(body, rest)
        }
    }
}

fn put_brush(body: &mut Vec<u8>, c: &Confirmed) -> Result<(), OutOfMemory>
    ensures { OnOk result (body.new.items ≡ body.old.items ++ brush_of c.now) }
{
    body.extend_from_slice(&BRUSH_START)?;
    body.extend_from_slice(&brush_level(c.cautious, c.brush).to_le_bytes())?;
    Ok(())
}

/// brushSupportLevel: BRUSH_COLOR_8x8, and BRUSH_COLOR_FULL of a cautious client.
fn brush_level(cautious: bool, brush: bool) -> u32
    ensures { result ≡ level_by cautious brush }
{
    match (cautious, brush) {
        (_, false) => 0,
        (false, true) => 1,
        (true, true) => 2,
    }
}

fn put_glyph_caches(body: &mut Vec<u8>, c: &Confirmed) -> Result<(), OutOfMemory>
    ensures written { OnOk result (body.new.items ≡ body.old.items ++ glyph_caches_of c.now) }
    ensures number { OnOk result (length c.now.glyphs ≡ 10) }
{
    body.extend_from_slice(&GLYPH_CACHE_START)?;
    put_sizes(body, c.glyphs.sizes())?;
    body.extend_from_slice(&[0; 4])?;
    body.extend_from_slice(&c.glyph_level.to_le_bytes())?;
    body.extend_from_slice(&[0; 2])?;
    Ok(())
}
