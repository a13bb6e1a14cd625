//! A Send Data Request on the I/O channel (T.125, 7, SendDataRequest), and the packets of a viewer that are always the same or name a channel.
//!
//! | offset | size | field | value |
//! |---|---|---|---|
//! | 0 | 4 | TPKT header | `03 00`, the packet's length (2) |
//! | 4 | 3 | X.224 Data | `02 F0 80` |
//! | 7 | 1 | Send Data Request | `64` |
//! | 8 | 2 | initiator | the user channel less 1001 |
//! | 10 | 2 | channelId | `03 EB` |
//! | 12 | 1 | dataPriority and segmentation | `70` |
//! | 13 | 1 or 2 | length of the user data | packed |

ghost use Rattle.std.specs.Prelude.{◌≡◌, ◌≤◌, ◌++◌, length, OnOk};
ghost use Rattle.viewer_rules.specs.ClientPackets.{erect_domain, attach_user, channel_join, send_data};
ghost use Rattle.viewer_wire.specs.Writes.{request_headers};

use crate::channels::FIRST_USER;
use byteorder::{BigEndian, ByteOrder};
use wire_num::OutOfMemory;

/// The least length that takes two bytes, and the top bits that mark it (X.691, 10.9.3.7).
const LONG: u16 = 0x80;

const PACKED_LONG: u16 = 0x8000;

/// What stands before a body; the packet's length, the initiator and the body's length are filled in.
const SHORT_HEADERS: [u8; 14] = [3, 0, 0, 0, 2, 0xF0, 0x80, 0x64, 0, 0, 3, 0xEB, 0x70, 0];

const LONG_HEADERS: [u8; 15] = [3, 0, 0, 0, 2, 0xF0, 0x80, 0x64, 0, 0, 3, 0xEB, 0x70, 0, 0];

const SHORT_SIZE: u16 = 14;

const LONG_SIZE: u16 = 15;

/// The places of those three in it.
const PACKET_LENGTH: usize = 2;

const INITIATOR: usize = 8;

const LENGTH: usize = 13;

/// MCS Erect Domain Request and Attach User Request.
const ERECT_AND_ATTACH: [u8; 20] = [
    3, 0, 0, 12, 2, 0xF0, 0x80, 4, 1, 0, 1, 0, // Erect Domain
    3, 0, 0, 8, 2, 0xF0, 0x80, 40, // Attach User
];

/// Writes an Erect Domain Request and an Attach User Request at the end.
pub(crate) fn put_attach(out: &mut Vec<u8>) -> Result<(), OutOfMemory>
    ensures { OnOk result (out.new.items ≡ out.old.items ++ (erect_domain ++ attach_user)) }
{
    out.extend_from_slice(&ERECT_AND_ATTACH)?;
    Ok(())
}

/// Writes a Channel Join Request at the end.
pub(crate) fn put_join(out: &mut Vec<u8>, user: u16, channel: u16) -> Result<(), OutOfMemory>
    ensures { OnOk result (out.new.items ≡ out.old.items ++ channel_join user channel) }
{
    let [u, v] = user.saturating_sub(FIRST_USER).to_be_bytes();
    let [c, d] = channel.to_be_bytes();
    out.extend_from_slice(&[3, 0, 0, 12, 2, 0xF0, 0x80, 56, u, v, c, d])?;
    Ok(())
}

/// Writes a Send Data Request with this user data at the end, as a whole packet.
pub(crate) fn put_data(out: &mut Vec<u8>, user: u16, body: &[u8]) -> Result<(), OutOfMemory>
    requires { length body.now ≤ 16383 }
    ensures { OnOk result (out.new.items ≡ out.old.items ++ send_data user body.now) }
{
    put_headers(out, user, body.len() as u16)?;
    out.extend_from_slice(body)?;
    Ok(())
}

/// Writes what stands before a body of so many bytes.
#[tactic(auto, unfolding(crate::specs::Writes::request_headers))]
fn put_headers(out: &mut Vec<u8>, user: u16, length: u16) -> Result<(), OutOfMemory>
    requires { length ≤ 16383 }
    ensures { OnOk result (out.new.items ≡ out.old.items ++ request_headers user length) }
{
    let initiator = user.saturating_sub(FIRST_USER);
    if length < LONG {
        let mut headers = SHORT_HEADERS;
        BigEndian::write_u16(&mut headers[PACKET_LENGTH..], SHORT_SIZE + length);
        BigEndian::write_u16(&mut headers[INITIATOR..], initiator);
        headers[LENGTH] = length as u8;
        out.extend_from_slice(&headers)?;
    } else {
        let mut headers = LONG_HEADERS;
        BigEndian::write_u16(&mut headers[PACKET_LENGTH..], LONG_SIZE + length);
        BigEndian::write_u16(&mut headers[INITIATOR..], initiator);
        BigEndian::write_u16(&mut headers[LENGTH..], PACKED_LONG + length);
        out.extend_from_slice(&headers)?;
    }
    Ok(())
}
