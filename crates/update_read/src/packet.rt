//! A packet up to its share data PDU: X.224 data with a Send Data Indication on channel 1003.
//!
//! | offset | size | field | value |
//! |---|---|---|---|
//! | 0 | 3 | X.224 data | `02 F0 80` |
//! | 3 | 1 | Send Data Indication | `68` |
//! | 4 | 2 | initiator | `00 01` |
//! | 6 | 2 | channelId | `03 EB` |
//! | 8 | 1 | dataPriority and segmentation | `70` |
//! | 9 | 1 or 2 | length of the user data | of all that is left |
//! | | | the share data PDU | |

ghost use Rattle.std.specs.Prelude.{◌≡◌, []};
ghost use Rattle.wire_num.specs.Cursor.{ReadsFieldsAs};
ghost use Rattle.share_pdu.specs.Packet.{indication_at};
ghost use Rattle.order_means.specs.PointerPackets.{mcs_at};
ghost use Rattle.update_read.specs.PacketParts.{ReadsBody, count_at, front_at};

use crate::share::read_share;
use wire_num::{Cursor, Range, Short};

const X224_DATA: [u8; 3] = [0x02, 0xF0, 0x80];

const SEND_DATA_INDICATION: [u8; 1] = [0x68];

const INITIATOR: [u8; 2] = [0x00, 0x01];

const CHANNEL: [u8; 2] = [0x03, 0xEB];

const PRIORITY: [u8; 1] = [0x70];

/// The bytes of all these.
const MCS_SIZE: usize = 9;

/// Reads the headers up to the length. Where all stand there, they are one comparison.
#[tactic(auto, using(crate::proofs::McsThere::mcs_there))]
fn read_mcs(cursor: &mut Cursor<'_>) -> Result<(), Short>
    ensures { ReadsFieldsAs (λ _. []) mcs_at result cursor.old cursor.new }
{
    match cursor.rest() {
        [0x02, 0xF0, 0x80, 0x68, 0x00, 0x01, 0x03, 0xEB, 0x70, ..] => {
            cursor.bytes(MCS_SIZE)?;
            Ok(())
        }
        _ => read_mcs_fields(cursor),
    }
}

/// Reads the headers up to the length, field by field.
fn read_mcs_fields(cursor: &mut Cursor<'_>) -> Result<(), Short>
    ensures { ReadsFieldsAs (λ _. []) mcs_at result cursor.old cursor.new }
{
    cursor.expect(&X224_DATA)?;
    cursor.expect(&SEND_DATA_INDICATION)?;
    cursor.expect(&INITIATOR)?;
    cursor.expect(&CHANNEL)?;
    cursor.expect(&PRIORITY)
}

/// Reads the length, which counts all that is left.
fn read_count(cursor: &mut Cursor<'_>) -> Result<(), Short>
    ensures { ReadsFieldsAs (λ _. []) count_at result cursor.old cursor.new }
{
    let count = cursor.per_len()?;
    if cursor.left() != usize::from(count) {
        return Err(Short { at: cursor.at() });
    }
    Ok(())
}

/// Reads a packet behind its four header bytes, up to the share data PDU.
pub fn read_front(cursor: &mut Cursor<'_>) -> Result<(), Short>
    ensures { ReadsFieldsAs (λ _. []) front_at result cursor.old cursor.new }
{
    read_mcs(cursor)?;
    read_count(cursor)
}

/// Reads a packet behind its four header bytes, and gives the part of the slice that is the update's body.
#[tactic(auto, using(crate::proofs::Headers::behind_front))]
pub fn read_indication(cursor: &mut Cursor<'_>) -> Result<Range, Short>
    ensures { ReadsBody indication_at result cursor.old cursor.new }
{
    read_front(cursor)?;
    read_share(cursor)
}
