//! The Send Data Request and Indication (T.125, 7, SendDataRequest and SendDataIndication; MS-RDPBCGR, 2.2.1.11 and later).
//!
//! | offset | size | field | value |
//! |---|---|---|---|
//! | 0 | 1 | choice | request `64`, indication `68` |
//! | 1 | 2 | initiator | the user channel less 1001, big-endian; written `00 01`, the server's 1002 |
//! | 3 | 2 | channelId | big-endian; written `03 EB`, the I/O channel 1003 |
//! | 5 | 1 | dataPriority, segmentation | bits `30` set: begin and end; written `70` |
//! | 6 | 1 or 2 | length of userData | packed; written in the shorter form |
//! | | | userData | to the packet's end |

ghost use Rattle.std.specs.Prelude.{◌≡◌, ◌≤◌, ◌++◌, length, OnOk, OnErr};
ghost use Rattle.wire_num.specs.Field.{map_read};
ghost use Rattle.wire_num.specs.Layout.{fields_at};
ghost use Rattle.wire_num.specs.Cursor.{ReadsFields, rest};
ghost use Rattle.wire_num.specs.Written.{AppendsFront};
ghost use Rattle.mcs_dom.specs.SendData.{send_data_request, send_data_indication, indication_headers, data_of};

use crate::DomainPdu;
use crate::user::{FIRST_USER, MOST_ABOVE};
use byteorder::{BigEndian, ByteOrder};
use wire_num::{Cursor, OutOfMemory, Range, Short};

/// The choice of a Send Data Request.
pub const SEND_DATA_REQUEST: u8 = 0x64;
/// The segmentation bits of data that begin and end in their PDU.
const WHOLE: u8 = 0x30;

/// The least length that takes two bytes, and the top bits that mark it (X.691, 10.9.3.7).
const LONG: u16 = 0x80;

const PACKED_LONG: u16 = 0x8000;
/// What stands before a body: TPKT, X.224, choice, initiator, channel, priority and segmentation, length; both lengths are
/// filled in.
const SHORT_HEADERS: [u8; 14] = [3, 0, 0, 0, 2, 0xF0, 0x80, 0x68, 0, 1, 3, 0xEB, 0x70, 0];

const LONG_HEADERS: [u8; 15] = [3, 0, 0, 0, 2, 0xF0, 0x80, 0x68, 0, 1, 3, 0xEB, 0x70, 0, 0];

const SHORT_SIZE: u16 = 14;

const LONG_SIZE: u16 = 15;
/// The places of the packet's length and the body's length in it.
const PACKET_LENGTH: usize = 2;

const LENGTH: usize = 13;

/// Reads a Send Data Request.
#[tactic(auto, unfolding(crate::specs::SendData::send_data_request, wire_num::specs::FieldValue::passing_at))]
pub fn read_send_data(cursor: &mut Cursor<'_>) -> Result<DomainPdu, Short>
    ensures { ReadsFields (λ bs. map_read (data_of (length cursor.old.bytes)) (fields_at send_data_request bs)) result cursor.old cursor.new }
{
    cursor.expect(&[SEND_DATA_REQUEST])?;
    let above = cursor.u16_be_up_to(MOST_ABOVE)?;
    let channel = cursor.u16_be()?;
    cursor.u8_with(WHOLE)?;
    let length = cursor.per_len()?;
    let from = cursor.at();
    cursor.exactly(length as usize)?;
    let body = Range {
        from,
        to: cursor.at(),
    };
    Ok(DomainPdu::Data {
        user: FIRST_USER + above,
        channel,
        body,
    })
}

/// Writes a Send Data Indication of the server on the I/O channel at the end, as a whole packet. An `Err` leaves a front of
/// it there.
pub fn write_indication(out: &mut Vec<u8>, body: &[u8]) -> Result<(), OutOfMemory>
    requires some { 1 ≤ length body.now }
    requires few { length body.now ≤ 16383 }
    ensures ok { OnOk result (out.new.items ≡ out.old.items ++ send_data_indication body.now) }
    ensures memory { OnErr result (AppendsFront out.old.items (send_data_indication body.now) out.new.items) }
{
    put_indication_headers(out, body.len() as u16)?;
    out.extend_from_slice(body)?;
    Ok(())
}

/// Writes what stands before a body of so many bytes in a Send Data Indication of the server on the I/O channel at the end. An `Err`
/// leaves a front of it there.
#[tactic(auto, unfolding(crate::specs::SendData::indication_headers))]
pub fn put_indication_headers(out: &mut Vec<u8>, length: u16) -> Result<(), OutOfMemory>
    requires { length ≤ 16383 }
    ensures ok { OnOk result (out.new.items ≡ out.old.items ++ indication_headers length) }
    ensures memory { OnErr result (AppendsFront out.old.items (indication_headers length) out.new.items) }
{
    if length < LONG {
        let mut headers = SHORT_HEADERS;
        BigEndian::write_u16(&mut headers[PACKET_LENGTH..], SHORT_SIZE + length);
        headers[LENGTH] = length as u8;
        out.extend_from_slice(&headers)?;
    } else {
        let mut headers = LONG_HEADERS;
        BigEndian::write_u16(&mut headers[PACKET_LENGTH..], LONG_SIZE + length);
        BigEndian::write_u16(&mut headers[LENGTH..], PACKED_LONG + length);
        out.extend_from_slice(&headers)?;
    }
    Ok(())
}
