//! The Erect Domain Request (T.125, 7, ErectDomainRequest; MS-RDPBCGR, 2.2.1.5).
//!
//! | offset | size | field | value |
//! |---|---|---|---|
//! | 0 | 1 | choice | `04` |
//! | 1 | 1 + n | subHeight | a byte that counts n bytes, and the bytes, not read |
//! | 2 + n | 1 + m | subInterval | the same |
//! | 3 + n + m | | | any bytes to the end, not read |
//!
//! One client in use writes two plain numbers of two bytes, `00 01 00 01`. By the packed encoding these are an empty integer,
//! an integer of one byte, and a byte that is left over.

ghost use Rattle.std.specs.Prelude.{◌≡◌, []};
ghost use Rattle.wire_num.specs.Field.{map_read};
ghost use Rattle.wire_num.specs.Layout.{Rest, fields_at};
ghost use Rattle.wire_num.specs.Cursor.{ReadsFields, ReadsFieldsAs, rest};
ghost use Rattle.mcs_dom.specs.ErectDomain.{erect_domain_request};

use crate::DomainPdu;
use wire_num::{Cursor, Short};

/// The choice of an Erect Domain Request.
pub const ERECT_DOMAIN_REQUEST: u8 = 0x04;

/// Reads an Erect Domain Request. What follows its integers is dropped.
#[tactic(auto, unfolding(crate::specs::ErectDomain::erect_domain_request, wire_num::specs::FieldValue::passing_at))]
pub fn read_erect_domain(cursor: &mut Cursor<'_>) -> Result<DomainPdu, Short>
    ensures { ReadsFields (λ bs. map_read (λ _. DomainPdu.Erect) (fields_at erect_domain_request bs)) result cursor.old cursor.new }
{
    cursor.expect(&[ERECT_DOMAIN_REQUEST])?;
    let height = cursor.u8()?;
    cursor.bytes(height as usize)?;
    let interval = cursor.u8()?;
    cursor.bytes(interval as usize)?;
    read_rest(cursor)?;
    Ok(DomainPdu::Erect)
}

/// Reads the bytes that are left, whatever they are.
#[tactic(auto, using(wire_num::proofs::Bytes::bytes_at_is))]
fn read_rest(cursor: &mut Cursor<'_>) -> Result<(), Short>
    ensures { ReadsFieldsAs (λ _. []) (fields_at Rest) result cursor.old cursor.new }
{
    let left = cursor.left();
    cursor.bytes(left)?;
    Ok(())
}
