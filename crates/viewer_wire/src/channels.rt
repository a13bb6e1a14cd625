//! MCS Attach User Confirm, Channel Join Confirm and Disconnect Provider Ultimatum ([MS-RDPBCGR] 2.2.1.7, 2.2.1.9 and 2.2.2.3).
//!
//! | PDU | fields behind the X.224 Data header |
//! |---|---|
//! | Attach User Confirm | `2E 00`, initiator: the user channel less 1001 (2, big-endian) |
//! | Channel Join Confirm | `3E 00`, initiator (2), requested (2), channelId (2) |
//! | Disconnect Provider Ultimatum | `20 80` or `21 80` |

ghost use Rattle.std.specs.Prelude.{◌≡◌, [], ◌∷◌, IfOk, ◌≤◌, is_ok};
ghost use Rattle.wire_num.specs.Cursor.{ReadsField, ReadsFieldsAs};
ghost use Rattle.wire_num.specs.Number.{big_at};
ghost use Rattle.wire_num.specs.FieldValue.{passing_at};
ghost use Rattle.wire_num.specs.Layout.{fields_at};
ghost use Rattle.viewer_rules.specs.HostAnswers.{attach_answer, join_answer, is_reason, farewell};
ghost use Rattle.viewer_rules.specs.ViewerHandshake.{is_farewell};
ghost use Rattle.viewer_wire.specs.Reads.{ReadsPacket};

use crate::headers::{TPKT_SIZE, X224_DATA};
use fast_path::is_fast;
use wire_num::{Cursor, Short};

/// The lowest user channel (T.125, 7, UserId).
pub(crate) const FIRST_USER: u16 = 1001;

/// The most that stands above it.
const MOST_ABOVE: u16 = 64_534;

/// Reads an Attach User Confirm, and gives the user channel less 1001.
pub(crate) fn read_attach(packet: &[u8]) -> Result<u16, Short>
    ensures read { ReadsPacket (λ above. above ∷ []) (fields_at attach_answer) result packet.now }
    ensures most { IfOk result (λ above. above ≤ 64534) }
{
    let mut cursor = Cursor::new(packet);
    match read_attach_packet(&mut cursor) {
        Ok(read) => Ok(read),
        Err(_) => Err(Short { at: cursor.at() }),
    }
}

#[tactic(auto, unfolding(viewer_rules::specs::HostAnswers::attach_answer, wire_num::specs::FieldValue::passing_at))]
fn read_attach_packet(cursor: &mut Cursor<'_>) -> Result<u16, Short>
    ensures read { ReadsFieldsAs (λ above. above ∷ []) (fields_at attach_answer) result cursor.old cursor.new }
    ensures most { IfOk result (λ above. above ≤ 64534) }
{
    cursor.bytes(TPKT_SIZE)?;
    cursor.expect(&X224_DATA)?;
    cursor.expect(&[0x2E, 0])?;
    let above = cursor.u16_be_up_to(MOST_ABOVE)?;
    cursor.end()?;
    Ok(above)
}

/// Reads a Channel Join Confirm of this user channel and channel.
pub(crate) fn read_join(packet: &[u8], user: u16, channel: u16) -> Result<(), Short>
    ensures { ReadsPacket (λ _. []) (fields_at (join_answer user channel)) result packet.now }
{
    let mut cursor = Cursor::new(packet);
    match read_join_packet(&mut cursor, user, channel) {
        Ok(()) => Ok(()),
        Err(_) => Err(Short { at: cursor.at() }),
    }
}

#[tactic(auto, unfolding(viewer_rules::specs::HostAnswers::join_answer))]
fn read_join_packet(cursor: &mut Cursor<'_>, user: u16, channel: u16) -> Result<(), Short>
    ensures { ReadsFieldsAs (λ _. []) (fields_at (join_answer user channel)) result cursor.old cursor.new }
{
    cursor.bytes(TPKT_SIZE)?;
    cursor.expect(&X224_DATA)?;
    cursor.expect(&[0x3E, 0])?;
    cursor.expect(&user.saturating_sub(FIRST_USER).to_be_bytes())?;
    cursor.expect(&channel.to_be_bytes())?;
    cursor.expect(&channel.to_be_bytes())?;
    cursor.end()
}

/// Whether a packet is the host's Disconnect Provider Ultimatum, which is no packet of the fast path.
pub fn is_farewell(packet: &[u8]) -> bool
    ensures { result ≡ is_farewell packet.now }
{
    !is_fast(packet) && is_ultimatum(packet)
}

/// Whether a packet has the fields of an ultimatum.
fn is_ultimatum(packet: &[u8]) -> bool
    ensures { result ≡ is_ok (fields_at farewell packet.now) }
{
    let mut cursor = Cursor::new(packet);
    read_farewell(&mut cursor).is_ok()
}

/// Reads an ultimatum: its reason is rn-provider-initiated or rn-user-requested.
#[tactic(auto, unfolding(viewer_rules::specs::HostAnswers::farewell, wire_num::specs::FieldValue::passing_at))]
fn read_farewell(cursor: &mut Cursor<'_>) -> Result<u8, Short>
    ensures { ReadsFieldsAs (λ reason. reason ∷ []) (fields_at farewell) result cursor.old cursor.new }
{
    cursor.bytes(TPKT_SIZE)?;
    cursor.expect(&X224_DATA)?;
    let reason = read_reason(cursor)?;
    cursor.expect(&[0x80])?;
    cursor.end()?;
    Ok(reason)
}

/// The choice of an ultimatum, and the reason's first bits.
#[tactic(auto, unfolding(wire_num::specs::FieldValue::passing_at))]
fn read_reason(cursor: &mut Cursor<'_>) -> Result<u8, Short>
    ensures { ReadsField (passing_at is_reason (big_at 1)) result cursor.old cursor.new }
{
    let at = cursor.at();
    let first = cursor.u8()?;
    if !is_reason(first) {
        cursor.go_to(at);
        return Err(Short { at });
    }
    Ok(first)
}

/// rn-provider-initiated, 1, or rn-user-requested, 3.
fn is_reason(first: u8) -> bool
    ensures { result ≡ is_reason first }
{
    first == 0x20 || first == 0x21
}
