//! The Attach User Request and Confirm (T.125, 7, AttachUserRequest and AttachUserConfirm; MS-RDPBCGR, 2.2.1.6 and 2.2.1.7).
//!
//! | offset | size | field | value |
//! |---|---|---|---|
//! | 0 | 1 | choice of the request | `28` |
//!
//! | offset | size | field | value |
//! |---|---|---|---|
//! | 0 | 1 | choice of the confirm, with an initiator | `2E` |
//! | 1 | 1 | result | 0, rt-successful |
//! | 2 | 2 | initiator | the user channel less 1001, big-endian |

ghost use Rattle.std.specs.Prelude.{◌≡◌, ◌≤◌, ◌++◌, OnOk, OnErr};
ghost use Rattle.wire_num.specs.Field.{map_read};
ghost use Rattle.wire_num.specs.Layout.{fields_at};
ghost use Rattle.wire_num.specs.Cursor.{ReadsFields, rest};
ghost use Rattle.wire_num.specs.Written.{AppendsFront};
ghost use Rattle.mcs_dom.specs.AttachUser.{attach_user_request, attach_user_confirm};

use crate::DomainPdu;
use crate::user::FIRST_USER;
use byteorder::{BigEndian, ByteOrder};
use wire_num::{Cursor, OutOfMemory, Short};

/// The choice of an Attach User Request.
pub const ATTACH_USER_REQUEST: u8 = 0x28;

/// A whole packet: TPKT, X.224, choice, result; the initiator is filled in.
const CONFIRM: [u8; 11] = [3, 0, 0, 11, 2, 0xF0, 0x80, 0x2E, 0, 0, 0];
/// The place of the initiator in it.
const INITIATOR: usize = 9;

/// Reads an Attach User Request.
#[tactic(auto, unfolding(crate::specs::AttachUser::attach_user_request))]
pub fn read_attach_user(cursor: &mut Cursor<'_>) -> Result<DomainPdu, Short>
    ensures { ReadsFields (λ bs. map_read (λ _. DomainPdu.Attach) (fields_at attach_user_request bs)) result cursor.old cursor.new }
{
    cursor.expect(&[ATTACH_USER_REQUEST])?;
    cursor.end()?;
    Ok(DomainPdu::Attach)
}

/// Writes an Attach User Confirm of this user channel at the end, as a whole packet. An `Err` leaves a front of it there.
pub fn write_attach(out: &mut Vec<u8>, user: u16) -> Result<(), OutOfMemory>
    requires { 1001 ≤ user }
    ensures ok { OnOk result (out.new.items ≡ out.old.items ++ attach_user_confirm user) }
    ensures memory { OnErr result (AppendsFront out.old.items (attach_user_confirm user) out.new.items) }
{
    let mut packet = CONFIRM;
    BigEndian::write_u16(&mut packet[INITIATOR..], user - FIRST_USER);
    out.extend_from_slice(&packet)?;
    Ok(())
}
