//! The licence, and the host's PDUs of the finalisation, each in a Send Data Indication ([MS-RDPBCGR] 2.2.1.12 and 2.2.1.19 to 2.2.1.22).
//!
//! | size | field of a share data PDU | value |
//! |---|---|---|
//! | 2 | totalLength | 18 and the body's bytes |
//! | 2 | pduType | `17 00` |
//! | 2 | pduSource | `EA 03` |
//! | 4 | shareId | `EA 03 01 00` |
//! | 1 | pad1 | any |
//! | 1 | streamId | 1 |
//! | 2 | uncompressedLength | 4 and the body's bytes |
//! | 1 | pduType2 | `1F`, `14` or `28` |
//! | 1 | compressedType | 0 |
//! | 2 | compressedLength | 0 |

ghost use Rattle.std.specs.Prelude.{◌≡◌, []};
ghost use Rattle.wire_num.specs.Cursor.{ReadsFieldsAs};
ghost use Rattle.wire_num.specs.Layout.{fields_at};
ghost use Rattle.viewer_rules.specs.HostAnswers.{indication, licence_answer, final_size, final_fields, share_data_answer, final_answer};
ghost use Rattle.share_pdu.specs.Final.{final_kind};
ghost use Rattle.share_pdu.specs.declared.finals.Final.TheVariants.{Synchronize, Cooperate, Granted, FontMap};
ghost use Rattle.viewer_wire.specs.Reads.{ReadsPacket};

use crate::headers::read_indication;
use info_lic::LICENCE;
use share_pdu::Final;
use wire_num::{Cursor, Short};

/// The bytes of the headers before a body, and those from streamId on that uncompressedLength counts.
const HEADERS_SIZE: u8 = 18;

const COUNTED_SIZE: u8 = 4;

/// PDUTYPE2_SYNCHRONIZE, PDUTYPE2_CONTROL and PDUTYPE2_FONTMAP ([MS-RDPBCGR] 2.2.8.1.1.1.2).
const SYNCHRONIZE: u8 = 0x1F;

const CONTROL: u8 = 0x14;

const FONT_MAP: u8 = 0x28;

/// Reads the licence.
pub(crate) fn read_licence(packet: &[u8]) -> Result<(), Short>
    ensures { ReadsPacket (λ _. []) (fields_at (indication licence_answer)) result packet.now }
{
    let mut cursor = Cursor::new(packet);
    match read_licence_packet(&mut cursor) {
        Ok(()) => Ok(()),
        Err(_) => Err(Short { at: cursor.at() }),
    }
}

fn read_licence_packet(cursor: &mut Cursor<'_>) -> Result<(), Short>
    ensures { ReadsFieldsAs (λ _. []) (fields_at (indication licence_answer)) result cursor.old cursor.new }
{
    match read_indication(cursor) {
        Ok(()) => read_licence_fields(cursor),
        Err(short) => Err(short),
    }
}

#[tactic(auto, unfolding(viewer_rules::specs::HostAnswers::licence_answer))]
fn read_licence_fields(cursor: &mut Cursor<'_>) -> Result<(), Short>
    ensures { ReadsFieldsAs (λ _. []) (fields_at licence_answer) result cursor.old cursor.new }
{
    cursor.expect(&LICENCE)?;
    cursor.end()
}

/// Reads a PDU of the finalisation.
pub(crate) fn read_final(packet: &[u8], which: Final, user: u16) -> Result<(), Short>
    ensures { ReadsPacket (λ _. []) (fields_at (indication (final_answer which user))) result packet.now }
{
    let mut cursor = Cursor::new(packet);
    match read_final_packet(&mut cursor, which, user) {
        Ok(()) => Ok(()),
        Err(_) => Err(Short { at: cursor.at() }),
    }
}

fn read_final_packet(cursor: &mut Cursor<'_>, which: Final, user: u16) -> Result<(), Short>
    ensures { ReadsFieldsAs (λ _. []) (fields_at (indication (final_answer which user))) result cursor.old cursor.new }
{
    match read_indication(cursor) {
        Ok(()) => read_final_answer(cursor, which, user),
        Err(short) => Err(short),
    }
}

/// totalLength; pduType; pduSource; shareId; pad1.
#[tactic(auto, unfolding(viewer_rules::specs::HostAnswers::final_answer))]
fn read_final_answer(cursor: &mut Cursor<'_>, which: Final, user: u16) -> Result<(), Short>
    ensures { ReadsFieldsAs (λ _. []) (fields_at (final_answer which user)) result cursor.old cursor.new }
{
    cursor.expect(&[HEADERS_SIZE + final_size(which), 0])?;
    cursor.expect(&[23, 0])?;
    cursor.expect(&[0xEA, 3])?;
    cursor.expect(&[0xEA, 3, 1, 0])?;
    cursor.bytes(1)?;
    read_share_data(cursor, which, user)
}

/// streamId; uncompressedLength; pduType2; compressedType; compressedLength.
#[tactic(auto, unfolding(viewer_rules::specs::HostAnswers::share_data_answer))]
fn read_share_data(cursor: &mut Cursor<'_>, which: Final, user: u16) -> Result<(), Short>
    ensures { ReadsFieldsAs (λ _. []) (fields_at (share_data_answer which user)) result cursor.old cursor.new }
{
    cursor.expect(&[1])?;
    cursor.expect(&[COUNTED_SIZE + final_size(which), 0])?;
    cursor.expect(&[final_kind(which)])?;
    cursor.expect(&[0])?;
    cursor.expect(&[0, 0])?;
    read_final_fields(cursor, which, user)
}

/// The bytes of a body.
fn final_size(which: Final) -> u8
    ensures { result ≡ final_size which }
{
    match which {
        Final::Synchronize => 4,
        Final::Cooperate | Final::Granted | Final::FontMap => 8,
    }
}

/// pduType2.
fn final_kind(which: Final) -> u8
    ensures { result ≡ final_kind which }
{
    match which {
        Final::Synchronize => SYNCHRONIZE,
        Final::Cooperate | Final::Granted => CONTROL,
        Final::FontMap => FONT_MAP,
    }
}

/// The body.
fn read_final_fields(cursor: &mut Cursor<'_>, which: Final, user: u16) -> Result<(), Short>
    ensures { ReadsFieldsAs (λ _. []) (fields_at (final_fields which user)) result cursor.old cursor.new }
{
    match which {
        Final::Synchronize => read_synchronize(cursor, user),
        Final::Cooperate => read_cooperate(cursor, user),
        Final::Granted => read_granted(cursor, user),
        Final::FontMap => read_font_map(cursor, user),
    }
}

/// messageType; targetUser.
fn read_synchronize(cursor: &mut Cursor<'_>, user: u16) -> Result<(), Short>
    ensures { ReadsFieldsAs (λ _. []) (fields_at (final_fields Synchronize user)) result cursor.old cursor.new }
{
    cursor.expect(&[1, 0])?;
    cursor.expect(&user.to_le_bytes())?;
    cursor.end()
}

/// action; grantId and controlId.
fn read_cooperate(cursor: &mut Cursor<'_>, user: u16) -> Result<(), Short>
    ensures { ReadsFieldsAs (λ _. []) (fields_at (final_fields Cooperate user)) result cursor.old cursor.new }
{
    cursor.expect(&[4, 0])?;
    cursor.expect(&[0; 6])?;
    cursor.end()
}

/// action; grantId; controlId.
fn read_granted(cursor: &mut Cursor<'_>, user: u16) -> Result<(), Short>
    ensures { ReadsFieldsAs (λ _. []) (fields_at (final_fields Granted user)) result cursor.old cursor.new }
{
    cursor.expect(&[2, 0])?;
    cursor.expect(&user.to_le_bytes())?;
    cursor.expect(&[0xEA, 3, 0, 0])?;
    cursor.end()
}

/// numberEntries, totalNumEntries, mapFlags and entrySize.
fn read_font_map(cursor: &mut Cursor<'_>, user: u16) -> Result<(), Short>
    ensures { ReadsFieldsAs (λ _. []) (fields_at (final_fields FontMap user)) result cursor.old cursor.new }
{
    cursor.expect(&[0, 0, 0, 0, 3, 0, 4, 0])?;
    cursor.end()
}
