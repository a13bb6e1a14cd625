//! The share PDUs of a client ([MS-RDPBCGR] 2.2.8.1.1.1).
//!
//! | offset | size | field | value |
//! |---|---|---|---|
//! | 0 | 2 | totalLength | of the whole PDU, at least 6; bytes behind it are dropped |
//! | 2 | 2 | pduType | low four bits: 3 Confirm Active, 7 data |
//! | 4 | 2 | pduSource | not read |
//!
//! Behind it a Confirm Active has its fields; data have the share data header, and then a body by its kind.
//!
//! | offset | size | field | value |
//! |---|---|---|---|
//! | 6 | 4 | shareId | not read |
//! | 10 | 2 | pad1, streamId | not read |
//! | 12 | 2 | uncompressedLength | not read |
//! | 14 | 1 | pduType2 | the kind; one that isn't known reads as `Other` |
//! | 15 | 1 | compressedType | without `20`, PACKET_COMPRESSED |
//! | 16 | 2 | compressedLength | not read |
//! | 18 | | body | by the kind |

ghost use Rattle.std.specs.Prelude.{◌≡◌, ◌≤◌, ◌∷◌, [], length, IfOk};
ghost use Rattle.wire_num.specs.Field.{map_read};
ghost use Rattle.wire_num.specs.Number.{little_at};
ghost use Rattle.wire_num.specs.FieldValue.{passing_at};
ghost use Rattle.wire_num.specs.Layout.{fields_at};
ghost use Rattle.wire_num.specs.Cursor.{ReadsField, ReadsFields, ReadsFieldsAs, ReadsCaused, rest};
ghost use Rattle.share_pdu.specs.Bodies.{passed_refresh_at};
ghost use Rattle.share_pdu.specs.ClientPdu.{is_client_type, total_length, control_header, data_header, compressed_type_at, last_bytes, data_body_at};
ghost use Rattle.share_pdu.specs.ClientPdu.{data_pdu_at, client_pdu_at, counted_pdu_of, share_pdu_of, LiesWithin, HasBodyWithin};

use crate::bodies::{read_control, read_suppress, read_synchronize};
use crate::kinds::{
    CONTROL, FONT_LIST, INPUT, PERSISTENT_KEY_LIST, REFRESH_RECT, SHUTDOWN_REQUEST,
    SUPPRESS_OUTPUT, SYNCHRONIZE,
};
use crate::refresh::check_areas;
use crate::share_fault::{Cause, ShareFault, fault_of};
use wire_num::{Cursor, Range, Short};

/// The bytes of a share control header.
const CONTROL_HEADER: usize = 6;
/// The low four bits of pduType, and those of a Confirm Active and of data.
const TYPE_BITS: u16 = 16;

const PDUTYPE_CONFIRMACTIVEPDU: u16 = 3;

const PDUTYPE_DATAPDU: u16 = 7;
/// The bit of compressedType that says that the PDU is compressed.
const PACKET_COMPRESSED: u8 = 0x20;
/// The bytes of fields that aren't read.
const SHARE_ID_SIZE: usize = 4;

const PAD_SIZE: usize = 1;

const STREAM_SIZE: usize = 1;

const NUMBER_SIZE: usize = 2;

/// What a client says in a share PDU. A `Range` is where that stands in the slice.
#[derive(Clone, Copy, Debug, PartialEq, Eq)]
pub enum ClientPdu {
    /// Confirm Active, with its fields behind the share control header.
    Confirm(Range),
    Synchronize,
    /// Control with the action cooperate.
    Cooperate,
    /// Control with the action request control.
    Request,
    FontList,
    /// Persistent Key List, which isn't read.
    KeyList,
    /// Input, with its body.
    Input(Range),
    /// Refresh Rect, with its body.
    Refresh(Range),
    /// Suppress Output: whether output stops.
    Suppress(bool),
    /// Shutdown Request.
    Shutdown,
    /// Data of another kind, which aren't read.
    Other,
}

/// Reads the share PDU at the slice's front (MS-RDPBCGR, 2.2.8.1.1.1). What stands behind its total is dropped.
pub fn read_share(body: &[u8]) -> Result<ClientPdu, ShareFault>
    ensures exact { result ≡ share_pdu_of body.now }
    ensures range { IfOk result (HasBodyWithin (length body.now)) }
{
    let mut cursor = Cursor::new(body);
    match read_total(&mut cursor) {
        Ok(total) => read_counted(&body[..total as usize]),
        Err(_) => Err(ShareFault::BadShare { at: 0 }),
    }
}

/// Reads the total of the PDU at the cursor, which ends within what is left.
#[tactic(auto, unfolding(crate::specs::ClientPdu::total_length, wire_num::specs::FieldValue::passing_at))]
fn read_total(cursor: &mut Cursor<'_>) -> Result<u16, Short>
    ensures field { ReadsFieldsAs (λ total. total ∷ []) (fields_at (total_length (length (rest cursor.old)))) result cursor.old cursor.new }
    ensures fits { IfOk result (λ total. total ≤ length (rest cursor.old)) }
{
    let size = cursor.left();
    let at = cursor.at();
    let total = cursor.u16_le()?;
    if (total as usize) < CONTROL_HEADER || total as usize > size {
        cursor.go_to(at);
        return Err(Short { at });
    }
    Ok(total)
}

/// Reads a PDU that is all of the slice.
fn read_counted(pdu: &[u8]) -> Result<ClientPdu, ShareFault>
    ensures exact { result ≡ counted_pdu_of pdu.now }
    ensures range { IfOk result (HasBodyWithin (length pdu.now)) }
{
    let mut cursor = Cursor::new(pdu);
    match read_pdu(pdu.len(), &mut cursor) {
        Ok(pdu) => Ok(pdu),
        Err(cause) => Err(fault_of(cause, cursor.at())),
    }
}

/// Reads the share control header of a PDU of so many bytes, and what is behind it.
#[tactic(auto, unfolding(crate::specs::ClientPdu::client_pdu_at))]
fn read_pdu(total: usize, cursor: &mut Cursor<'_>) -> Result<ClientPdu, Cause>
    requires { total ≡ length cursor.old.bytes }
    ensures read { ReadsCaused (client_pdu_at total) result cursor.old cursor.new }
    ensures range { IfOk result (HasBodyWithin total) }
{
    let pdu_type = read_control_header(cursor)?;
    if pdu_type % TYPE_BITS == PDUTYPE_CONFIRMACTIVEPDU {
        Ok(ClientPdu::Confirm(to_end(total, cursor)))
    } else {
        read_data(total, cursor)
    }
}

/// Where the bytes from the cursor on stand, in a PDU of so many bytes.
fn to_end(total: usize, cursor: &Cursor<'_>) -> Range
    requires { total ≡ length cursor.now.bytes }
    ensures place { result ≡ last_bytes total (rest cursor.now) }
    ensures range { LiesWithin total result }
{
    Range {
        from: cursor.at(),
        to: total,
    }
}

/// Reads the share control header, and gives its type.
#[tactic(auto, unfolding(crate::specs::ClientPdu::control_header))]
fn read_control_header(cursor: &mut Cursor<'_>) -> Result<u16, Short>
    ensures { ReadsFieldsAs (λ pdu_type. pdu_type ∷ []) (fields_at control_header) result cursor.old cursor.new }
{
    cursor.bytes(NUMBER_SIZE)?;
    let pdu_type = read_type(cursor)?;
    cursor.bytes(NUMBER_SIZE)?;
    Ok(pdu_type)
}

/// Reads the type of a PDU, which is one of a client.
#[tactic(auto, unfolding(wire_num::specs::FieldValue::passing_at))]
fn read_type(cursor: &mut Cursor<'_>) -> Result<u16, Short>
    ensures { ReadsField (passing_at is_client_type (little_at 2)) result cursor.old cursor.new }
{
    let at = cursor.at();
    let pdu_type = cursor.u16_le()?;
    let kind = pdu_type % TYPE_BITS;
    if kind != PDUTYPE_CONFIRMACTIVEPDU && kind != PDUTYPE_DATAPDU {
        cursor.go_to(at);
        return Err(Short { at });
    }
    Ok(pdu_type)
}

/// Reads a data PDU behind its share control header.
#[tactic(auto, unfolding(crate::specs::ClientPdu::data_pdu_at))]
fn read_data(total: usize, cursor: &mut Cursor<'_>) -> Result<ClientPdu, Cause>
    requires { total ≡ length cursor.old.bytes }
    ensures read { ReadsCaused (data_pdu_at total) result cursor.old cursor.new }
    ensures range { IfOk result (HasBodyWithin total) }
{
    let kind = read_data_header(cursor)?;
    read_compressed_type(cursor)?;
    cursor.bytes(NUMBER_SIZE)?;
    Ok(read_body(kind, total, cursor)?)
}

/// Reads the share data header as far as pduType2, and gives this.
#[tactic(auto, unfolding(crate::specs::ClientPdu::data_header, wire_num::specs::FieldValue::passing_at))]
fn read_data_header(cursor: &mut Cursor<'_>) -> Result<u8, Short>
    ensures { ReadsFieldsAs (λ kind. kind ∷ []) (fields_at data_header) result cursor.old cursor.new }
{
    cursor.bytes(SHARE_ID_SIZE)?;
    cursor.bytes(PAD_SIZE)?;
    cursor.bytes(STREAM_SIZE)?;
    cursor.bytes(NUMBER_SIZE)?;
    cursor.u8()
}

/// Reads compressedType, which says that the PDU isn't compressed.
#[tactic(auto, unfolding(crate::specs::ClientPdu::compressed_type_at))]
fn read_compressed_type(cursor: &mut Cursor<'_>) -> Result<u8, Cause>
    ensures { ReadsCaused compressed_type_at result cursor.old cursor.new }
{
    let at = cursor.at();
    let compressed_type = cursor.u8()?;
    if compressed_type & PACKET_COMPRESSED == PACKET_COMPRESSED {
        cursor.go_to(at);
        return Err(Cause::Packed);
    }
    Ok(compressed_type)
}

/// Reads the body of data of this kind.
#[tactic(auto, unfolding(crate::specs::ClientPdu::data_body_at))]
fn read_body(kind: u8, total: usize, cursor: &mut Cursor<'_>) -> Result<ClientPdu, Short>
    requires { total ≡ length cursor.old.bytes }
    ensures read { ReadsFields (data_body_at kind total) result cursor.old cursor.new }
    ensures range { IfOk result (HasBodyWithin total) }
{
    match kind {
        CONTROL => read_control(cursor),
        INPUT => Ok(ClientPdu::Input(to_end(total, cursor))),
        SYNCHRONIZE => read_synchronize(cursor),
        REFRESH_RECT => read_refresh(total, cursor),
        SUPPRESS_OUTPUT => read_suppress(cursor),
        SHUTDOWN_REQUEST => Ok(ClientPdu::Shutdown),
        FONT_LIST => Ok(ClientPdu::FontList),
        PERSISTENT_KEY_LIST => Ok(ClientPdu::KeyList),
        _ => Ok(ClientPdu::Other),
    }
}

/// Reads a Refresh Rect, all of whose areas are there, and gives where it stands.
fn read_refresh(total: usize, cursor: &mut Cursor<'_>) -> Result<ClientPdu, Short>
    requires { total ≡ length cursor.old.bytes }
    ensures read { ReadsFields (λ bs. map_read (λ _. ClientPdu.Refresh (last_bytes total bs)) (passed_refresh_at bs)) result cursor.old cursor.new }
    ensures range { IfOk result (HasBodyWithin total) }
{
    let place = to_end(total, cursor);
    check_areas(cursor)?;
    Ok(ClientPdu::Refresh(place))
}
