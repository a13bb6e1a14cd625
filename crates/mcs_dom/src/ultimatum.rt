//! The Disconnect Provider Ultimatum (T.125, 7, DisconnectProviderUltimatum; MS-RDPBCGR, 2.2.2.1).
//!
//! | offset | size | field | value |
//! |---|---|---|---|
//! | 0 | 1 | choice, and the reason's two high bits | `20`, `21` or `22` |
//! | 1 | 1 | the reason's low bit, and padding | the bit is the top one |
//!
//! One client in use writes it by the basic encoding rules, with reason 3 (profile):
//!
//! | offset | size | field | value |
//! |---|---|---|---|
//! | 0 | 8 | a sequence of the reason and of an empty sequence | `30 06 02 02 00 03 30 00` |

ghost use Rattle.std.specs.Prelude.{◌≡◌, ◌<◌, ◌++◌, OnOk, OnErr};
ghost use Rattle.wire_num.specs.FieldValue.{passing_at};
ghost use Rattle.wire_num.specs.Field.{map_read};
ghost use Rattle.wire_num.specs.Number.{big_at};
ghost use Rattle.wire_num.specs.Layout.{fields_at};
ghost use Rattle.wire_num.specs.Cursor.{ReadsFields, ReadsField, rest};
ghost use Rattle.wire_num.specs.Written.{AppendsFront};
ghost use Rattle.mcs_dom.specs.Ultimatum.{ultimatum, ultimatum_packet, basic_ultimatum, bye_of, has_reason, reason_of};

use crate::DomainPdu;
use wire_num::{Cursor, OutOfMemory, Short};

/// The choice, with a reason below 2.
pub const FIRST_ULTIMATUM: u8 = 0x20;
/// The choice, with the reason 4 or 5.
pub const LAST_ULTIMATUM: u8 = 0x22;
/// The first byte by the basic encoding rules: a sequence.
pub const BASIC_SEQUENCE: u8 = 0x30;
/// The whole of it.
const BASIC_ULTIMATUM: [u8; 8] = [0x30, 6, 2, 2, 0, 3, 0x30, 0];
/// Its reason, rn-user-requested.
const USER_REQUESTED: u8 = 3;
/// The greatest reason, rn-channel-purged.
const MOST_REASON: u8 = 4;

/// Reads a Disconnect Provider Ultimatum that begins with this byte.
#[tactic(auto, unfolding(crate::specs::Ultimatum::ultimatum))]
pub fn read_ultimatum(first: u8, cursor: &mut Cursor<'_>) -> Result<DomainPdu, Short>
    ensures { ReadsFields (λ bs. map_read (bye_of first) (fields_at (ultimatum first) bs)) result cursor.old cursor.new }
{
    cursor.expect(&[first])?;
    let second = read_second(first, cursor)?;
    cursor.end()?;
    Ok(DomainPdu::Bye {
        reason: reason_of(first, second),
    })
}

/// The byte with the reason's last bit, behind this first byte.
#[tactic(auto, using(wire_num::proofs::Numbers::big_at_is), unfolding(wire_num::specs::FieldValue::passing_at))]
fn read_second(first: u8, cursor: &mut Cursor<'_>) -> Result<u8, Short>
    ensures { ReadsField (passing_at (has_reason first) (big_at 1)) result cursor.old cursor.new }
{
    match cursor.rest() {
        [second, ..] if reason_of(first, *second) <= MOST_REASON => cursor.u8(),
        _ => Err(Short { at: cursor.at() }),
    }
}

/// The two low bits of the first byte and the top bit of the second.
fn reason_of(first: u8, second: u8) -> u8
    ensures { result ≡ reason_of first second }
{
    2 * (first % 4) + second / 128
}

/// Reads what stands for a Disconnect Provider Ultimatum of reason 3 by the basic encoding rules.
#[tactic(auto, unfolding(crate::specs::Ultimatum::basic_ultimatum))]
pub fn read_basic_ultimatum(cursor: &mut Cursor<'_>) -> Result<DomainPdu, Short>
    ensures { ReadsFields (λ bs. map_read (λ _. DomainPdu.Bye 3) (fields_at basic_ultimatum bs)) result cursor.old cursor.new }
{
    cursor.expect(&BASIC_ULTIMATUM)?;
    cursor.end()?;
    Ok(DomainPdu::Bye {
        reason: USER_REQUESTED,
    })
}

/// Writes a Disconnect Provider Ultimatum with this reason at the end, as a whole packet. An `Err` leaves a front of it there.
pub fn write_end(out: &mut Vec<u8>, reason: u8) -> Result<(), OutOfMemory>
    requires { reason < 5 }
    ensures ok { OnOk result (out.new.items ≡ out.old.items ++ ultimatum_packet reason) }
    ensures memory { OnErr result (AppendsFront out.old.items (ultimatum_packet reason) out.new.items) }
{
    let choice = FIRST_ULTIMATUM + reason / 2;
    let low_bit = reason % 2 * 128;
    let packet = [3, 0, 0, 9, 2, 0xF0, 0x80, choice, low_bit];
    out.extend_from_slice(&packet)?;
    Ok(())
}
