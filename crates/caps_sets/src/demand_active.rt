//! The Demand Active PDU ([MS-RDPBCGR] 2.2.1.13.1.1), from its share control header on: 288 bytes (profile).
//!
//! | offset | size | field | value |
//! |---|---|---|---|
//! | 0 | 6 | shareControlHeader | total `20 01`, type `11 00`, source `EA 03` |
//! | 6 | 4 | shareId | `EA 03 01 00` |
//! | 10 | 2 | lengthSourceDescriptor | 4 |
//! | 12 | 2 | lengthCombinedCapabilities | 266 |
//! | 14 | 4 | sourceDescriptor | `52 44 50 00`, "RDP" |
//! | 18 | 2 | numberCapabilities | 8 |
//! | 20 | 2 | pad2Octets | 0 |
//! | 22 | 24 | General Capability Set | updates of the fast path, packed bitmaps without the compression header, refresh and suppression (2.2.7.1.1) |
//! | 46 | 28 | Bitmap Capability Set | 24 or 16 bits for each pixel at 50, desktopWidth at 58, desktopHeight at 60, desktopResizeFlag at 64 (2.2.7.1.2) |
//! | 74 | 88 | Order Capability Set | the seven orders, zero bounds deltas, frame markers (2.2.7.1.3) |
//! | 162 | 10 | Pointer Capability Set | 25 pointers (2.2.7.1.5) |
//! | 172 | 88 | Input Capability Set | scan codes, extended mouse events, Unicode, and input of the fast path (2.2.7.1.6) |
//! | 260 | 8 | Virtual Channel Capability Set | no compression (2.2.7.1.10) |
//! | 268 | 8 | Share Capability Set | the server's channel, 1002 (2.2.7.2.4) |
//! | 276 | 8 | Font Capability Set | a font list is taken (2.2.7.2.5) |
//! | 284 | 4 | sessionId | 0 |

ghost use Rattle.std.specs.Prelude.{◌≡◌, ◌≤◌, ◌+◌, ◌++◌, false, length, OnOk, OnErr};
ghost use Rattle.wire_num.specs.Written.{AppendsFront};
ghost use Rattle.caps_sets.specs.DemandActive.{flag, bitmap_set, before_bitmap, after_bitmap, demand_active};

use byteorder::{ByteOrder, LittleEndian};
use px_core::{Depth, Size, bits_in};
use wire_num::OutOfMemory;

/// What stands before the Bitmap set.
const BEFORE_BITMAP: [u8; 46] = [
    0x20, 1, 0x11, 0, 0xEA, 3, // shareControlHeader
    0xEA, 3, 1, 0, 4, 0, 0x0A, 1, // shareId, lengths
    0x52, 0x44, 0x50, 0, 8, 0, 0, 0, // sourceDescriptor, numberCapabilities
    1, 0, 24, 0, 1, 0, 3, 0, 0, 2, 0, 0, // General, osMajorType to pad2octetsA
    0, 0, 1, 4, 0, 0, 0, 0, 0, 0, 1, 1, // generalCompressionTypes to suppressOutputSupport
];
/// The Bitmap set; depth, width, height and the resize flag are filled in.
const BITMAP: [u8; 28] = [
    2, 0, 28, 0, 0, 0, 1, 0, 1, 0, 1, 0, // preferredBitsPerPixel to receive8BitsPerPixel
    0, 0, 0, 0, // desktopWidth, desktopHeight
    0, 0, 0, 0, 1, 0, 0, 0, 1, 0, 0, 0, // pad2octets to pad2octetsB
];
/// The places of these in it.
const PREFERRED_BITS_PER_PIXEL: usize = 4;

const DESKTOP_WIDTH: usize = 12;

const DESKTOP_HEIGHT: usize = 14;

const DESKTOP_RESIZE_FLAG: usize = 18;
/// What stands after the Bitmap set.
const AFTER_BITMAP: [u8; 214] = [
    3, 0, 88, 0, // Order
    0, 0, 0, 0, 0, 0, 0, 0, 0, 0, 0, 0, 0, 0, 0, 0, // terminalDescriptor
    0, 0, 0, 0, 1, 0, 20, 0, 0, 0, 1, 0, 0, 0, 0x8A, 0, // pad4octetsA to orderFlags
    1, 1, 1, 1, 1, 0, 0, 0, 0, 0, 0, 1, 0, 0, 0, 0, // orderSupport
    0, 0, 0, 0, 0, 0, 0, 0, 0, 0, 0, 1, 0, 0, 0, 0, //
    0, 0, 4, 0, 0, 0, 0, 0, 0, 0x84, 3, 0, // textFlags to desktopSaveSize
    0, 0, 0, 0, 0, 0, 0, 0, // pad2octetsC to pad2octetsE
    8, 0, 10, 0, 1, 0, 25, 0, 25, 0, // Pointer
    13, 0, 88, 0, 61, 0, 0, 0, // Input, inputFlags, pad2octetsA
    0, 0, 0, 0, 0, 0, 0, 0, 0, 0, 0, 0, 0, 0, 0, 0, // keyboardLayout to keyboardFunctionKey
    0, 0, 0, 0, 0, 0, 0, 0, 0, 0, 0, 0, 0, 0, 0, 0, // imeFileName
    0, 0, 0, 0, 0, 0, 0, 0, 0, 0, 0, 0, 0, 0, 0, 0, //
    0, 0, 0, 0, 0, 0, 0, 0, 0, 0, 0, 0, 0, 0, 0, 0, //
    0, 0, 0, 0, 0, 0, 0, 0, 0, 0, 0, 0, 0, 0, 0, 0, //
    20, 0, 8, 0, 0, 0, 0, 0, // Virtual Channel
    9, 0, 8, 0, 0xEA, 3, 0, 0, // Share
    14, 0, 8, 0, 1, 0, 0, 0, // Font
    0, 0, 0, 0, // sessionId
];

/// Writes a Demand Active PDU for a picture of this size at the end, to a viewer of this depth, with a desktopResizeFlag of 0. An
/// `Err` leaves a front of it there.
pub fn write_demand(out: &mut Vec<u8>, size: Size, depth: Depth) -> Result<(), OutOfMemory>
    requires wide { size.w ≤ 65535 }
    requires high { size.h ≤ 65535 }
    ensures ok { OnOk result (out.new.items ≡ out.old.items ++ demand_active size depth false) }
    ensures size { OnOk result (length out.new.items ≡ length out.old.items + 288) }
    ensures memory { OnErr result (AppendsFront out.old.items (demand_active size depth false) out.new.items) }
{
    write_demand_with(out, size, depth, false)
}

/// Writes a Demand Active PDU for a picture of this size at the end, to a viewer of this depth, with whether the client is to take
/// that size for its window. An `Err` leaves a front of it there.
#[tactic(auto, unfolding(crate::specs::DemandActive::demand_active))]
pub fn write_demand_with(
    out: &mut Vec<u8>,
    size: Size,
    depth: Depth,
    resizes: bool,
) -> Result<(), OutOfMemory>
    requires wide { size.w ≤ 65535 }
    requires high { size.h ≤ 65535 }
    ensures ok { OnOk result (out.new.items ≡ out.old.items ++ demand_active size depth resizes) }
    ensures size { OnOk result (length out.new.items ≡ length out.old.items + 288) }
    ensures memory { OnErr result (AppendsFront out.old.items (demand_active size depth resizes) out.new.items) }
{
    put_before(out)?;
    put_bitmap(out, size, depth, resizes)?;
    put_after(out)?;
    Ok(())
}

/// Writes what stands before the Bitmap set.
#[tactic(auto, unfolding(crate::specs::DemandActive::before_bitmap))]
fn put_before(out: &mut Vec<u8>) -> Result<(), OutOfMemory>
    ensures ok { OnOk result (out.new.items ≡ out.old.items ++ before_bitmap) }
    ensures memory { OnErr result (AppendsFront out.old.items before_bitmap out.new.items) }
{
    out.extend_from_slice(&BEFORE_BITMAP)?;
    Ok(())
}

/// Writes the Bitmap set.
fn put_bitmap(out: &mut Vec<u8>, size: Size, depth: Depth, resizes: bool) -> Result<(), OutOfMemory>
    requires wide { size.w ≤ 65535 }
    requires high { size.h ≤ 65535 }
    ensures ok { OnOk result (out.new.items ≡ out.old.items ++ bitmap_set size depth resizes) }
    ensures memory { OnErr result (AppendsFront out.old.items (bitmap_set size depth resizes) out.new.items) }
{
    let mut set = BITMAP;
    LittleEndian::write_u16(&mut set[PREFERRED_BITS_PER_PIXEL..], bits_in(depth));
    LittleEndian::write_u16(&mut set[DESKTOP_WIDTH..], size.w as u16);
    LittleEndian::write_u16(&mut set[DESKTOP_HEIGHT..], size.h as u16);
    LittleEndian::write_u16(&mut set[DESKTOP_RESIZE_FLAG..], flag(resizes));
    out.extend_from_slice(&set)?;
    Ok(())
}

/// A flag of two bytes.
fn flag(is: bool) -> u16
    ensures { result ≡ flag is }
{
    if is { 1 } else { 0 }
}

/// Writes what stands after the Bitmap set.
#[tactic(auto, unfolding(crate::specs::DemandActive::after_bitmap))]
fn put_after(out: &mut Vec<u8>) -> Result<(), OutOfMemory>
    ensures ok { OnOk result (out.new.items ≡ out.old.items ++ after_bitmap) }
    ensures memory { OnErr result (AppendsFront out.old.items after_bitmap out.new.items) }
{
    out.extend_from_slice(&AFTER_BITMAP)?;
    Ok(())
}
