//! The MCS Connect-Response (T.125, 7, Connect-Response; MS-RDPBCGR, 2.2.1.4).
//!
//! | size | field | value |
//! |---|---|---|
//! | 2 | tag | `7F 66` |
//! | 1 to 3 | length | of all that follows |
//! | 3 | result | `0A 01 00`, rt-successful |
//! | 3 | calledConnectId | `02 01 00` |
//! | 28 | domainParameters | `30 1A`, 34 channels, 3 users, 0 tokens, 1 priority, throughput 0, height 1, PDUs of 65,528 bytes, version 2 |
//! | 1, 1 to 3, n | userData | `04`, length, the bytes |

ghost use Rattle.std.specs.Prelude.{◌≡◌, ◌≤◌, ◌++◌, length, OnOk, OnErr};
ghost use Rattle.wire_num.specs.Length.{ber_len_of};
ghost use Rattle.wire_num.specs.Written.{AppendsFront};
ghost use Rattle.mcs_ber.specs.ConnectResponse.{response_headers, response_content, connect_response};

use byteorder::{BigEndian, ByteOrder};
use wire_num::{OutOfMemory, put_ber_len};

/// TPKT, X.224, and the tag; the packet's length is filled in.
const HEADERS: [u8; 9] = [3, 0, 0, 0, 2, 0xF0, 0x80, 0x7F, 0x66];
/// The bytes of these headers.
const HEADERS_SIZE: u16 = 9;
/// The place of the packet's length in them.
const PACKET_LENGTH: usize = 2;
/// Result, calledConnectId, domainParameters, and the tag of the user data.
const FIELDS: [u8; 35] = [
    0x0A, 1, 0, 2, 1, 0, 0x30, 0x1A, 2, 1, 34, 2, 1, 3, 2, 1, 0, 2, 1, 1, 2, 1, 0, 2, 1, 1, 2, 3,
    0, 0xFF, 0xF8, 2, 1, 2, 4,
];
/// The bytes of these fields.
const FIELDS_SIZE: u16 = 35;
/// The least lengths that take two and three bytes (X.690, 8.1.3).
const TWO_BYTES: u16 = 0x80;

const THREE_BYTES: u16 = 0x100;

/// Writes a Connect-Response with these user data at the end, as a whole packet (T.125, 7). An `Err` leaves a front of it there.
pub fn write_response(out: &mut Vec<u8>, user: &[u8]) -> Result<(), OutOfMemory>
    requires { length user.now ≤ 1000 }
    ensures ok { OnOk result (out.new.items ≡ out.old.items ++ connect_response user.now) }
    ensures memory { OnErr result (AppendsFront out.old.items (connect_response user.now) out.new.items) }
{
    let size = user.len() as u16;
    put_headers(out, FIELDS_SIZE + length_size(size) + size)?;
    put_content(out, user)?;
    Ok(())
}

/// Writes what stands before content of so many bytes.
#[tactic(auto, unfolding(crate::specs::ConnectResponse::response_headers))]
fn put_headers(out: &mut Vec<u8>, content: u16) -> Result<(), OutOfMemory>
    requires { content ≤ 2000 }
    ensures ok { OnOk result (out.new.items ≡ out.old.items ++ response_headers content) }
    ensures memory { OnErr result (AppendsFront out.old.items (response_headers content) out.new.items) }
{
    let mut headers = HEADERS;
    BigEndian::write_u16(
        &mut headers[PACKET_LENGTH..],
        HEADERS_SIZE + length_size(content) + content,
    );
    out.extend_from_slice(&headers)?;
    put_ber_len(out, content)?;
    Ok(())
}

/// Writes all fields.
fn put_content(out: &mut Vec<u8>, user: &[u8]) -> Result<(), OutOfMemory>
    requires { length user.now ≤ 1000 }
    ensures ok { OnOk result (out.new.items ≡ out.old.items ++ response_content user.now) }
    ensures memory { OnErr result (AppendsFront out.old.items (response_content user.now) out.new.items) }
{
    out.extend_from_slice(&FIELDS)?;
    put_counted(out, user)?;
    Ok(())
}

/// Writes the length of the user data, and these.
fn put_counted(out: &mut Vec<u8>, user: &[u8]) -> Result<(), OutOfMemory>
    requires { length user.now ≤ 1000 }
    ensures ok { OnOk result (out.new.items ≡ out.old.items ++ (ber_len_of (length user.now) ++ user.now)) }
    ensures memory { OnErr result (AppendsFront out.old.items (ber_len_of (length user.now) ++ user.now) out.new.items) }
{
    put_ber_len(out, user.len() as u16)?;
    out.extend_from_slice(user)?;
    Ok(())
}

/// How many bytes a length takes (X.690, 8.1.3).
fn length_size(n: u16) -> u16
    ensures { result ≡ length (ber_len_of n) }
{
    if n < TWO_BYTES {
        1
    } else if n < THREE_BYTES {
        2
    } else {
        3
    }
}
