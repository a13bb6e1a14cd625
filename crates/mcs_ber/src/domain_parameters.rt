//! Domain parameters (T.125, 7, DomainParameters): a sequence of eight integers (X.690, 8.3 and 8.9).
//!
//! | size | field | value |
//! |---|---|---|
//! | 1 | tag | `30` |
//! | 1 to 3 | length | of the integers |
//! | 8 times 1, 1 to 3, 1 to 4 | integer | `02`, length 1 to 4, that many bytes of any value |

ghost use Rattle.std.specs.Prelude.{◌≡◌, [], OnOk};
ghost use Rattle.wire_num.specs.FieldValue.{passing_at};
ghost use Rattle.wire_num.specs.Length.{ber_len_at};
ghost use Rattle.wire_num.specs.Layout.{fields_at};
ghost use Rattle.wire_num.specs.Cursor.{ReadsField, ReadsFieldsAs, ReadsRows, rest};
ghost use Rattle.mcs_ber.specs.DomainParameters.{integer, integers, domain_parameters, is_integer_size};

use wire_num::{Cursor, Short};

/// The tag of a sequence (X.690, 8.9).
const SEQUENCE: u8 = 0x30;
/// The tag of an integer (X.690, 8.3).
const INTEGER: u8 = 2;
/// The most bytes of an integer here.
const MOST_BYTES: u16 = 4;
/// The integers of domain parameters.
const INTEGERS: u8 = 8;

/// Reads domain parameters, whose values aren't compared.
pub fn read_domain_parameters(cursor: &mut Cursor<'_>) -> Result<(), Short>
    ensures { ReadsRows domain_parameters result cursor.old cursor.new }
{
    cursor.expect(&[SEQUENCE])?;
    let length = cursor.ber_len()?;
    let mut content = cursor.within(length as usize)?;
    match read_integers(&mut content) {
        Ok(()) => Ok(()),
        Err(short) => {
            cursor.go_to(content.at());
            Err(short)
        }
    }
}

/// Reads eight integers, and nothing after them.
fn read_integers(cursor: &mut Cursor<'_>) -> Result<(), Short>
    ensures fields { ReadsFieldsAs (λ _. []) (fields_at (integers 8)) result cursor.old cursor.new }
    ensures end { OnOk result (rest cursor.new ≡ []) }
{
    for _ in 0..INTEGERS {
        read_integer(cursor)?;
    }
    cursor.end()
}

/// Reads an integer of one to four bytes.
#[tactic(auto, unfolding(wire_num::specs::FieldValue::passing_at))]
fn read_integer(cursor: &mut Cursor<'_>) -> Result<(), Short>
    ensures { ReadsRows integer result cursor.old cursor.new }
{
    cursor.expect(&[INTEGER])?;
    let size = read_size(cursor)?;
    cursor.bytes(size as usize)?;
    Ok(())
}

/// Reads the length of an integer.
#[tactic(auto, unfolding(wire_num::specs::FieldValue::passing_at))]
fn read_size(cursor: &mut Cursor<'_>) -> Result<u16, Short>
    ensures { ReadsField (passing_at is_integer_size ber_len_at) result cursor.old cursor.new }
{
    let at = cursor.at();
    let size = cursor.ber_len()?;
    if !is_integer_size(size) {
        cursor.go_to(at);
        return Err(Short { at });
    }
    Ok(size)
}

/// Whether an integer may have so many bytes.
fn is_integer_size(size: u16) -> bool
    ensures { result ≡ is_integer_size size }
{
    (1..=MOST_BYTES).contains(&size)
}
