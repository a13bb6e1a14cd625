//! A fast-path packet of the host with one update ([MS-RDPBCGR] 2.2.9.1.2).
//!
//! | offset | size | field | value |
//! |---|---|---|---|
//! | 0 | 1 | fpOutputHeader | 0 |
//! | 1 | 1 or 2 | length | of the whole packet; two bytes, the highest first, with the top bit set, from 128 on |
//! | | 1 | updateHeader | the update's code: 0 orders, 1 bitmap, 3 synchronize; not compressed, in one fragment |
//! | | 2 | size | of the data, the lowest byte first |
//! | | | updateData | to the packet's end |

ghost use Rattle.std.specs.Prelude.{◌≡◌, ◌+◌, ◌≤◌, ◌<◌, ◌++◌, length, OnOk, OnErr};
ghost use Rattle.wire_num.specs.Written.{AppendsFront};
ghost use Rattle.fast_path.specs.Written.{fast_headers, fast_packet};

use wire_num::OutOfMemory;

/// How many bytes stand before the data where the length has one byte.
const SHORT_HEADERS: u16 = 5;

/// The same where it has two.
const LONG_HEADERS: u16 = 6;

/// The least length of a packet that takes two bytes, and their top bit.
const LONG: u16 = 0x80;

const PACKED_LONG: u16 = 0x8000;

/// Writes the packet of an update of this code with these data at the end. An `Err` leaves a front of it there.
pub fn write_fast(out: &mut Vec<u8>, code: u8, body: &[u8]) -> Result<(), OutOfMemory>
    requires { length (fast_packet code body.now) ≤ 16383 }
    ensures ok { OnOk result (out.new.items ≡ out.old.items ++ fast_packet code body.now) }
    ensures memory { OnErr result (AppendsFront out.old.items (fast_packet code body.now) out.new.items) }
{
    put_fast_headers(out, code, body.len() as u16)?;
    out.extend_from_slice(body)?;
    Ok(())
}

/// Writes what stands before so many bytes of data of an update of this code at the end. An `Err` leaves a front of it there.
pub fn put_fast_headers(out: &mut Vec<u8>, code: u8, size: u16) -> Result<(), OutOfMemory>
    requires { size ≤ 16377 }
    ensures ok { OnOk result (out.new.items ≡ out.old.items ++ fast_headers code size) }
    ensures memory { OnErr result (AppendsFront out.old.items (fast_headers code size) out.new.items) }
{
    if SHORT_HEADERS + size < LONG {
        out.extend_from_slice(&short_headers(code, size))?;
    } else {
        out.extend_from_slice(&long_headers(code, size))?;
    }
    Ok(())
}

/// What stands before data where the length has one byte.
#[tactic(auto, unfolding(crate::specs::Written::fast_headers))]
fn short_headers(code: u8, size: u16) -> [u8; 5]
    requires { 5 + size < 128 }
    ensures { result ≡ fast_headers code size }
{
    let [low, high] = size.to_le_bytes();
    [0, (SHORT_HEADERS + size) as u8, code, low, high]
}

/// What stands before data where the length has two bytes.
#[tactic(auto, unfolding(crate::specs::Written::fast_headers))]
fn long_headers(code: u8, size: u16) -> [u8; 6]
    requires long { 128 ≤ 5 + size }
    requires few { size ≤ 16377 }
    ensures { result ≡ fast_headers code size }
{
    let [length_high, length_low] = (PACKED_LONG + (LONG_HEADERS + size)).to_be_bytes();
    let [low, high] = size.to_le_bytes();
    [0, length_high, length_low, code, low, high]
}
