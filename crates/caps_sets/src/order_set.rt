//! The Order Capability Set ([MS-RDPBCGR] 2.2.7.1.3).
//!
//! | offset | size | field | read |
//! |---|---|---|---|
//! | 0 | 4 | header | type 3, length at least 88 |
//! | 4 | 30 | terminalDescriptor to numberFonts | |
//! | 34 | 2 | orderFlags | `0008` ZEROBOUNDSDELTASSUPPORT, `0080` ORDERFLAGS_EXTRA_FLAGS: orderSupportExFlags is valid |
//! | 36 | 32 | orderSupport | a byte for each order, 0 where it isn't taken: 0 DstBlt, 1 PatBlt and OpaqueRect, 2 ScrBlt, 3 MemBlt, 4 Mem3Blt, 11 SaveBitmap, 27 GlyphIndex |
//! | 68 | 2 | textFlags | |
//! | 70 | 2 | orderSupportExFlags | `0004` ALTSEC_FRAME_MARKER_SUPPORT |
//! | 72 | 16 | pad4octetsB to pad2octetsE | |

ghost use Rattle.std.specs.Prelude.{◌≡◌, ◌≤◌, ◌<◌, length};
ghost use Rattle.caps_sets.specs.CapabilitySets.{number_in, says_support, says_zero_bounds, says_marker, with_orders};
ghost use Rattle.wire_num.specs.FieldValue.{has_bits};

use crate::Confirmed;
use crate::set_kind::HEADER_SIZE;
use byteorder::{ByteOrder, LittleEndian};

/// The offsets of the fields that are read, in the content.
const ORDER_FLAGS: usize = 34 - HEADER_SIZE as usize;

const ORDER_SUPPORT: usize = 36 - HEADER_SIZE as usize;

const ORDER_SUPPORT_EX_FLAGS: usize = 70 - HEADER_SIZE as usize;

/// Bounds may be sent as zero deltas.
const ZEROBOUNDSDELTASSUPPORT: u16 = 0x0008;

/// orderSupportExFlags is valid.
const ORDERFLAGS_EXTRA_FLAGS: u16 = 0x0080;

/// Frame markers are taken.
const ALTSEC_FRAME_MARKER_SUPPORT: u16 = 0x0004;

/// The places in orderSupport.
const TS_NEG_DSTBLT_INDEX: usize = 0;

const TS_NEG_PATBLT_INDEX: usize = 1;

const TS_NEG_SCRBLT_INDEX: usize = 2;

const TS_NEG_MEMBLT_INDEX: usize = 3;

const TS_NEG_MEM3BLT_INDEX: usize = 4;

const TS_NEG_SAVEBITMAP_INDEX: usize = 11;

const TS_NEG_INDEX_INDEX: usize = 27;

/// What is confirmed with the content of an Order set.
pub fn with_orders(confirmed: Confirmed, content: &[u8]) -> Confirmed
    requires { 84 ≤ length content.now }
    ensures { result ≡ with_orders content.now confirmed }
{
    Confirmed {
        dst: says_support(content, TS_NEG_DSTBLT_INDEX),
        pat: says_support(content, TS_NEG_PATBLT_INDEX),
        scr: says_support(content, TS_NEG_SCRBLT_INDEX),
        mem: says_support(content, TS_NEG_MEMBLT_INDEX),
        mem3: says_support(content, TS_NEG_MEM3BLT_INDEX),
        save: says_support(content, TS_NEG_SAVEBITMAP_INDEX),
        glyph: says_support(content, TS_NEG_INDEX_INDEX),
        zero_bounds: has_order_flag(content, ZEROBOUNDSDELTASSUPPORT),
        marker: says_marker(content),
        ..confirmed
    }
}

/// Whether the order at this place of orderSupport is taken.
fn says_support(content: &[u8], place: usize) -> bool
    requires whole { 84 ≤ length content.now }
    requires inside { place < 32 }
    ensures { result ≡ says_support place content.now }
{
    content[ORDER_SUPPORT + place] != 0
}

/// Whether frame markers are taken, by flags that are valid.
fn says_marker(content: &[u8]) -> bool
    requires { 84 ≤ length content.now }
    ensures { result ≡ says_marker content.now }
{
    let flags = LittleEndian::read_u16(&content[ORDER_SUPPORT_EX_FLAGS..]);
    has_order_flag(content, ORDERFLAGS_EXTRA_FLAGS)
        && flags & ALTSEC_FRAME_MARKER_SUPPORT == ALTSEC_FRAME_MARKER_SUPPORT
}

/// Whether orderFlags has these bits.
fn has_order_flag(content: &[u8], flag: u16) -> bool
    requires { 84 ≤ length content.now }
    ensures { result ≡ has_bits flag (number_in 2 34 content.now) }
{
    LittleEndian::read_u16(&content[ORDER_FLAGS..]) & flag == flag
}
