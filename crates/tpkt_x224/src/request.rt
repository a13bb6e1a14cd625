//! The X.224 Connection Request (X.224, 13.3; MS-RDPBCGR, 2.2.1.1).
//!
//! | offset | size | field | value |
//! |---|---|---|---|
//! | 0 | 4 | TPKT header | not read |
//! | 4 | 1 | length indicator | the bytes after it |
//! | 5 | 1 | code and credit | `E0` |
//! | 6 | 2 | destination reference | not read |
//! | 8 | 2 | source reference | big-endian |
//! | 10 | 1 | class and options | not read |
//! | 11 | | cookie | to the first CR LF, where the next byte isn't `01` |
//! | | 8 | negotiation request | `01`, flags, length, requested protocols (4, little-endian) |

ghost use Rattle.std.specs.Prelude.{◌≡◌, List, [], ◌∷◌};
ghost use Rattle.wire_num.specs.Layout.{fields_at};
ghost use Rattle.wire_num.specs.Cursor.{ReadsFieldsAs, rest};
ghost use Rattle.tpkt_x224.specs.Request.{request_of, request_header, references, asked_protocols, after_cookie, after_line};

use crate::BadTpdu;
use byteorder::{ByteOrder, LittleEndian};
use wire_num::{Cursor, Short};

/// The bytes of a TPKT header.
const TPKT_SIZE: usize = 4;
/// The code of a connection request, with no credit (X.224, 13.3.1).
const CONNECTION_REQUEST: u8 = 0xE0;
/// The bytes of a reference.
const REFERENCE_SIZE: usize = 2;
/// The bytes of the class and options.
const CLASS_SIZE: usize = 1;
/// The bytes of both references and the class.
const REFERENCES_SIZE: usize = 5;
/// The type of a negotiation request (MS-RDPBCGR, 2.2.1.1.1).
const NEGOTIATION_REQUEST: u8 = 1;
/// The end of a cookie.
const CARRIAGE_RETURN: u8 = 13;

const LINE_FEED: u8 = 10;
/// The bytes of a negotiation request.
const NEGOTIATION_SIZE: usize = 8;
/// The offset of the requested protocols in it.
const PROTOCOLS: usize = 4;

/// What a client asks for.
#[derive(Clone, Copy, Debug, PartialEq, Eq)]
pub struct Request {
    /// The client's source reference.
    pub reference: u16,
    /// The requested protocols, where the client sent a negotiation request.
    pub asked: Option<u32>,
}

/// Reads a connection request, which is a whole packet (X.224, 13.3). Its cookie and what follows the negotiation
/// request are dropped.
pub fn read_request(packet: &[u8]) -> Result<Request, BadTpdu>
    ensures { result ≡ request_of packet.now }
{
    let mut cursor = Cursor::new(packet);
    match read_header(&mut cursor) {
        Ok(reference) => {
            let asked = asked_protocols(after_cookie(cursor.rest()));
            Ok(Request { reference, asked })
        }
        Err(_) => Err(BadTpdu { at: cursor.at() }),
    }
}

/// Reads the header, and gives the source reference.
#[tactic(auto, unfolding(crate::specs::Request::request_header))]
fn read_header(cursor: &mut Cursor<'_>) -> Result<u16, Short>
    ensures { ReadsFieldsAs (λ reference. reference ∷ []) (fields_at request_header) result cursor.old cursor.new }
{
    cursor.at_least(TPKT_SIZE)?;
    cursor.bytes(TPKT_SIZE)?;
    cursor.rest_count()?;
    cursor.expect(&[CONNECTION_REQUEST])?;
    read_references(cursor)
}

/// Reads both references and the class, and gives the source reference.
#[tactic(auto, unfolding(crate::specs::Request::references, wire_num::specs::FieldValue::passing_at))]
fn read_references(cursor: &mut Cursor<'_>) -> Result<u16, Short>
    ensures { ReadsFieldsAs (λ reference. reference ∷ []) (fields_at references) result cursor.old cursor.new }
{
    cursor.at_least(REFERENCES_SIZE)?;
    cursor.bytes(REFERENCE_SIZE)?;
    let reference = cursor.u16_be()?;
    cursor.bytes(CLASS_SIZE)?;
    Ok(reference)
}

/// The bytes after the cookie, which is there where the next byte isn't a negotiation request's type.
#[tactic(auto, unfolding(crate::specs::Request::after_cookie))]
fn after_cookie(bytes: &[u8]) -> &[u8]
    ensures { result.now ≡ after_cookie bytes.now }
{
    match bytes {
        [NEGOTIATION_REQUEST, ..] => bytes,
        _ => after_line(bytes),
    }
}

/// The bytes after the first carriage return and line feed.
fn after_line(bytes: &[u8]) -> &[u8]
    ensures { result.now ≡ after_line bytes.now }
{
    let mut left = bytes;
    while let [first, rest @ ..] = left {
        if *first == CARRIAGE_RETURN && !rest.is_empty() && rest[0] == LINE_FEED {
            return &rest[1..];
        }
        left = rest;
    }
    left
}

/// The requested protocols of a negotiation request, where one stands here.
#[tactic(auto, unfolding(crate::specs::Request::asked_protocols))]
fn asked_protocols(bytes: &[u8]) -> Option<u32>
    ensures { result ≡ asked_protocols bytes.now }
{
    if bytes.len() >= NEGOTIATION_SIZE && bytes[0] == NEGOTIATION_REQUEST {
        Some(LittleEndian::read_u32(&bytes[PROTOCOLS..]))
    } else {
        None
    }
}
