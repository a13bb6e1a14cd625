//! The bodies of a client's Synchronize, Control and Suppress Output ([MS-RDPBCGR] 2.2.1.14, 2.2.1.15 and 2.2.11.3), each behind
//! the share data header. What follows these fields isn't read.
//!
//! | offset | size | field of Synchronize | value |
//! |---|---|---|---|
//! | 0 | 2 | messageType | `01 00` |
//! | 2 | 2 | targetUser | not read |
//!
//! | offset | size | field of Control | value |
//! |---|---|---|---|
//! | 0 | 2 | action | 1 request control, 4 cooperate |
//! | 2 | 2 | grantId | not read |
//! | 4 | 4 | controlId | not read |
//!
//! | offset | size | field of Suppress Output | value |
//! |---|---|---|---|
//! | 0 | 1 | allowDisplayUpdates | 0 suppresses |
//! | 1 | 3 | pad3Octets | not read |

ghost use Rattle.std.specs.Prelude.{◌≡◌, slice_index};
ghost use Rattle.wire_num.specs.Field.{map_read};
ghost use Rattle.wire_num.specs.Number.{little_at};
ghost use Rattle.wire_num.specs.FieldValue.{passing_at};
ghost use Rattle.wire_num.specs.Layout.{fields_at};
ghost use Rattle.wire_num.specs.Cursor.{ReadsField, ReadsFields, rest};
ghost use Rattle.share_pdu.specs.Bodies.{synchronize_body, is_client_action, control_body, pdu_of_action, suppress_body, is_stop};

use crate::ClientPdu;
use wire_num::{Cursor, Short};

/// The messageType of a Synchronize, SYNCMSGTYPE_SYNC.
const SYNCMSGTYPE_SYNC: [u8; 2] = [1, 0];
/// The actions of a client's Control.
const CTRLACTION_REQUEST_CONTROL: u16 = 1;

const CTRLACTION_COOPERATE: u16 = 4;
/// What allowDisplayUpdates is where output stops.
const SUPPRESS_DISPLAY_UPDATES: u8 = 0;
/// The bytes of fields that aren't read.
const TARGET_SIZE: usize = 2;

const GRANT_SIZE: usize = 2;

const CONTROL_ID_SIZE: usize = 4;

const PAD_SIZE: usize = 3;

/// Reads a Synchronize.
#[tactic(auto, unfolding(crate::specs::Bodies::synchronize_body))]
pub fn read_synchronize(cursor: &mut Cursor<'_>) -> Result<ClientPdu, Short>
    ensures { ReadsFields (λ bs. map_read (λ _. ClientPdu.Synchronize) (fields_at synchronize_body bs)) result cursor.old cursor.new }
{
    cursor.expect(&SYNCMSGTYPE_SYNC)?;
    cursor.bytes(TARGET_SIZE)?;
    Ok(ClientPdu::Synchronize)
}

/// Reads a Control.
#[tactic(auto, unfolding(crate::specs::Bodies::control_body))]
pub fn read_control(cursor: &mut Cursor<'_>) -> Result<ClientPdu, Short>
    ensures { ReadsFields (λ bs. map_read (λ values. pdu_of_action (slice_index values 0)) (fields_at control_body bs)) result cursor.old cursor.new }
{
    let action = read_action(cursor)?;
    cursor.bytes(GRANT_SIZE)?;
    cursor.bytes(CONTROL_ID_SIZE)?;
    if action == CTRLACTION_COOPERATE {
        Ok(ClientPdu::Cooperate)
    } else {
        Ok(ClientPdu::Request)
    }
}

/// Reads the action of a client's Control.
#[tactic(auto, unfolding(wire_num::specs::FieldValue::passing_at))]
fn read_action(cursor: &mut Cursor<'_>) -> Result<u16, Short>
    ensures { ReadsField (passing_at is_client_action (little_at 2)) result cursor.old cursor.new }
{
    let at = cursor.at();
    let action = cursor.u16_le()?;
    if !is_client_action(action) {
        cursor.go_to(at);
        return Err(Short { at });
    }
    Ok(action)
}

/// Whether a client sends this action.
fn is_client_action(action: u16) -> bool
    ensures { result ≡ is_client_action action }
{
    action == CTRLACTION_REQUEST_CONTROL || action == CTRLACTION_COOPERATE
}

/// Reads a Suppress Output.
#[tactic(auto, unfolding(crate::specs::Bodies::suppress_body, wire_num::specs::FieldValue::passing_at))]
pub fn read_suppress(cursor: &mut Cursor<'_>) -> Result<ClientPdu, Short>
    ensures { ReadsFields (λ bs. map_read (λ values. ClientPdu.Suppress (is_stop values)) (fields_at suppress_body bs)) result cursor.old cursor.new }
{
    let allow = cursor.u8()?;
    cursor.bytes(PAD_SIZE)?;
    Ok(ClientPdu::Suppress(allow == SUPPRESS_DISPLAY_UPDATES))
}
