//! The packets of the two messages that are sent ([MS-RDPBCGR] 2.2.9.1.1.4): the headers of a share data PDU of kind 1B, as `share_pdu`
//! has them, and the message.
//!
//! | offset | size | field of message 6 (2.2.9.1.1.4.4) | value |
//! |---|---|---|---|
//! | 0 | 4 | messageType, pad2Octets | `06 00 00 00` |
//! | 4 | 2 | cacheIndex | the lowest byte first |
//! | 6 | 4 | hotSpot | `00 00 00 00` |
//! | 10 | 4 | width, height | `08 00 08 00`; `10 00 08 00` where shapes are wide |
//! | 14 | 2 | lengthAndMask | `10 00` |
//! | 16 | 2 | lengthXorMask | `C0 00`; `80 01` where shapes are wide |
//! | 18 | 192 or 384 | xorMaskData | rows from the bottom up, of blue, green and red |
//! | | 16 | andMaskData | rows from the bottom up, of two bytes |
//!
//! | offset | size | field of message 7 (2.2.9.1.1.4.6) | value |
//! |---|---|---|---|
//! | 0 | 4 | messageType, pad2Octets | `07 00 00 00` |
//! | 4 | 2 | cacheIndex | the lowest byte first |

ghost use Rattle.std.specs.Prelude.{◌≡◌, ◌≤◌, ◌<◌, ◌/◌, ◌%◌, if◌then◌else◌, IfOk};
ghost use Rattle.frame_rules.specs.Pointers.{key_shape};
ghost use Rattle.order_means.specs.PointerPackets.{pointer_packet};
ghost use Rattle.frame_rules.specs.Told.{message_6, message_7, message_head, message_by_use};

use crate::shape::{color_of, mask_of, put_colors, rows_of};
use cache_plan::Use;
use share_pdu::put_packet_headers;
use std::alloc::Global;
use wire_num::OutOfMemory;

/// The pduType2 of a Pointer PDU.
pub(crate) const PDUTYPE2_POINTER: u8 = 0x1B;

/// The bytes of message 7, and of message 6 for shapes of 8 and of 16 columns.
const POINT_SIZE: u16 = 6;

const SHAPE_SIZE: u16 = 226;

const WIDE_SIZE: u16 = 418;

/// What stands before the colours in message 6.
fn head(wide: bool, index: u16) -> [u8; 18]
    ensures { result ≡ message_head wide index }
{
    let [low, high] = index.to_le_bytes();
    if wide {
        [
            6, 0, 0, 0, low, high, 0, 0, 0, 0, 16, 0, 8, 0, 16, 0, 0x80, 1,
        ]
    } else {
        [
            6, 0, 0, 0, low, high, 0, 0, 0, 0, 8, 0, 8, 0, 16, 0, 0xC0, 0,
        ]
    }
}

/// Message 7.
fn point(index: u16) -> [u8; 6]
    ensures { result ≡ message_7 index }
{
    let [low, high] = index.to_le_bytes();
    [7, 0, 0, 0, low, high]
}

/// The bytes of message 6.
fn shape_size(wide: bool) -> u16
    ensures value { result ≡ (if wide then 418 else 226) }
    ensures most { result ≤ 418 }
{
    if wide { WIDE_SIZE } else { SHAPE_SIZE }
}

/// The packet of message 6, which brings the shape of a key to an entry.
fn shape_packet(alloc: Global, wide: bool, index: u16, key: u16) -> Result<Vec<u8>, OutOfMemory>
    requires holder { key / 256 < 16 }
    requires code { key % 256 ≤ 126 }
    ensures { IfOk result (λ packet. packet.items ≡ pointer_packet (message_6 wide index (key_shape wide key))) }
{
    let rows = rows_of((key % 256) as u8);
    let color = color_of((key / 256) as u8);
    let size = shape_size(wide);
    let mut out = Vec::new(alloc);
    put_packet_headers(&mut out, PDUTYPE2_POINTER, size)?;
    out.extend_from_slice(&head(wide, index))?;
    put_colors(&mut out, wide, color, rows)?;
    out.extend_from_slice(&mask_of(wide, rows))?;
    Ok(out)
}

/// The packet that tells a pointer's key, by what its use of the cache answers: its shape at a miss, else its entry.
pub fn told_packet(alloc: Global, wide: bool, answer: Use, key: u16) -> Result<Vec<u8>, OutOfMemory>
    requires holder { key / 256 < 16 }
    requires code { key % 256 ≤ 126 }
    ensures { IfOk result (λ packet. packet.items ≡ pointer_packet (message_by_use wide answer (key_shape wide key))) }
{
    match answer {
        Use::Miss(index) => shape_packet(alloc, wide, index, key),
        Use::Hit(index) => entry_packet(alloc, index),
    }
}

/// The packet of message 7, which shows the shape of an entry.
fn entry_packet(alloc: Global, index: u16) -> Result<Vec<u8>, OutOfMemory>
    ensures { IfOk result (λ packet. packet.items ≡ pointer_packet (message_7 index)) }
{
    let mut out = Vec::new(alloc);
    put_packet_headers(&mut out, PDUTYPE2_POINTER, POINT_SIZE)?;
    out.extend_from_slice(&point(index))?;
    Ok(out)
}
