//! What stands before the host's fields: the X.224 Data header, and a Send Data Indication on the I/O channel (T.125, 7, SendDataIndication).
//!
//! | offset | size | field | value |
//! |---|---|---|---|
//! | 0 | 4 | TPKT header | any here |
//! | 4 | 3 | X.224 Data | `02 F0 80` |
//! | 7 | 1 | Send Data Indication | `68` |
//! | 8 | 2 | initiator | `00 01` |
//! | 10 | 2 | channelId | `03 EB` |
//! | 12 | 1 | dataPriority and segmentation | `70` |
//! | 13 | 1 or 2 | length of the user data | of all that is left |

ghost use Rattle.wire_num.specs.Cursor.{ReadsRows};
ghost use Rattle.wire_num.specs.Layout.{Exactly, Packed};
ghost use Rattle.viewer_rules.specs.HostAnswers.{indication_rows, indication};

use wire_num::{Cursor, Short};

/// The bytes of a TPKT header.
pub(crate) const TPKT_SIZE: usize = 4;

/// The X.224 Data header.
pub(crate) const X224_DATA: [u8; 3] = [2, 0xF0, 0x80];

/// The choice of a Send Data Indication.
const SEND_DATA_INDICATION: u8 = 0x68;

/// The server's user channel, less 1001.
const INITIATOR: [u8; 2] = [0, 1];

/// The I/O channel.
const CHANNEL: [u8; 2] = [3, 0xEB];

const PRIORITY: u8 = 0x70;

/// Reads up to user data whose length counts all that is left; another length is refused at their first byte.
pub(crate) fn read_indication(cursor: &mut Cursor<'_>) -> Result<(), Short>
    ensures { ReadsRows indication result cursor.old cursor.new }
{
    match read_start(cursor) {
        Ok(()) => read_length(cursor),
        Err(short) => Err(short),
    }
}

/// Reads up to the length of the user data.
fn read_start(cursor: &mut Cursor<'_>) -> Result<(), Short>
    ensures { ReadsRows indication_rows result cursor.old cursor.new }
{
    cursor.bytes(TPKT_SIZE)?;
    cursor.expect(&X224_DATA)?;
    cursor.expect(&[SEND_DATA_INDICATION])?;
    cursor.expect(&INITIATOR)?;
    cursor.expect(&CHANNEL)?;
    cursor.expect(&[PRIORITY])?;
    Ok(())
}

/// Reads a length that counts all that is left.
#[tactic(auto, unfolding(wire_num::specs::Layout::exactly_at))]
fn read_length(cursor: &mut Cursor<'_>) -> Result<(), Short>
    ensures { ReadsRows (Exactly Packed) result cursor.old cursor.new }
{
    let length = cursor.per_len()?;
    if cursor.left() != length as usize {
        return Err(Short { at: cursor.at() });
    }
    Ok(())
}
