//! The Channel Join Request and Confirm (T.125, 7, ChannelJoinRequest and ChannelJoinConfirm; MS-RDPBCGR, 2.2.1.8 and 2.2.1.9).
//!
//! | offset | size | field | value |
//! |---|---|---|---|
//! | 0 | 1 | choice of the request | `38` |
//! | 1 | 2 | initiator | the user channel less 1001, big-endian |
//! | 3 | 2 | channelId | big-endian |
//!
//! | offset | size | field | value |
//! |---|---|---|---|
//! | 0 | 1 | choice of the confirm, with a channel | `3E` |
//! | 1 | 1 | result | 0, rt-successful |
//! | 2 | 2 | initiator | the user channel less 1001, big-endian |
//! | 4 | 2 | requested | the channel, big-endian |
//! | 6 | 2 | channelId | the same |

ghost use Rattle.std.specs.Prelude.{◌≡◌, ◌≤◌, ◌++◌, OnOk, OnErr};
ghost use Rattle.wire_num.specs.Field.{map_read};
ghost use Rattle.wire_num.specs.Layout.{fields_at};
ghost use Rattle.wire_num.specs.Cursor.{ReadsFields, rest};
ghost use Rattle.wire_num.specs.Written.{AppendsFront};
ghost use Rattle.mcs_dom.specs.ChannelJoin.{channel_join_request, channel_join_confirm, join_of};

use crate::DomainPdu;
use crate::user::{FIRST_USER, MOST_ABOVE, high, low};
use wire_num::{Cursor, OutOfMemory, Short};

/// The choice of a Channel Join Request.
pub const CHANNEL_JOIN_REQUEST: u8 = 0x38;

/// Reads a Channel Join Request.
#[tactic(auto, unfolding(crate::specs::ChannelJoin::channel_join_request, wire_num::specs::FieldValue::passing_at))]
pub fn read_channel_join(cursor: &mut Cursor<'_>) -> Result<DomainPdu, Short>
    ensures { ReadsFields (λ bs. map_read join_of (fields_at channel_join_request bs)) result cursor.old cursor.new }
{
    cursor.expect(&[CHANNEL_JOIN_REQUEST])?;
    let above = cursor.u16_be_up_to(MOST_ABOVE)?;
    let channel = cursor.u16_be()?;
    cursor.end()?;
    Ok(DomainPdu::Join {
        user: FIRST_USER + above,
        channel,
    })
}

/// Writes a Channel Join Confirm of this user channel and channel at the end, as a whole packet. An `Err` leaves a front of
/// it there.
pub fn write_join(out: &mut Vec<u8>, user: u16, channel: u16) -> Result<(), OutOfMemory>
    requires { 1001 ≤ user }
    ensures ok { OnOk result (out.new.items ≡ out.old.items ++ channel_join_confirm user channel) }
    ensures memory { OnErr result (AppendsFront out.old.items (channel_join_confirm user channel) out.new.items) }
{
    let user = user - FIRST_USER;
    let packet = [
        3,
        0,
        0,
        15,
        2,
        0xF0,
        0x80,
        0x3E,
        0,
        high(user),
        low(user),
        high(channel),
        low(channel),
        high(channel),
        low(channel),
    ];
    out.extend_from_slice(&packet)?;
    Ok(())
}
