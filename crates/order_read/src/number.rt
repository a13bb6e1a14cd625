//! Numbers of fields.

ghost use Rattle.std.specs.Prelude.{◌≡◌, ◌≤◌, ◌<◌, ◌^◌, length, pos, true, IfOk};
ghost use Rattle.wire_num.specs.Field.{map_read};
ghost use Rattle.wire_num.specs.Number.{little_at, big_at, little_signed_at, little_value, big_value};
ghost use Rattle.byteorder.specs.Endian.{twos_complement};
ghost use Rattle.wire_num.specs.Cursor.{ReadsField};
ghost use Rattle.order_fields.specs.OrderTable.{fits_coordinate, IsBelow};
ghost use Rattle.order_fields.specs.OrderStream.{moved_at};

use byteorder::{BigEndian, ByteOrder, LittleEndian};
use wire_num::{Cursor, Short};

/// The bytes of a colour: red, green, blue.
const COLOR_SIZE: usize = 3;

/// Reads a byte.
#[tactic(auto, using(crate::proofs::NumberBytes::one_byte))]
pub fn read_byte(cursor: &mut Cursor<'_>) -> Result<u8, Short>
    ensures { ReadsField (little_at 1) result cursor.old cursor.new }
{
    cursor.u8()
}

/// Reads a number of so many bytes, the lowest first.
#[tactic(auto, using(crate::proofs::NumberBytes::counted))]
pub fn read_number(cursor: &mut Cursor<'_>, size: usize) -> Result<u64, Short>
    requires { size ≤ 8 }
    ensures read { ReadsField (little_at size) result cursor.old cursor.new }
    ensures fits { IfOk result (λ n. n < 256 ^ size) }
{
    match size {
        0 => Ok(0),
        1 => Ok(u64::from(read_byte(cursor)?)),
        _ => Ok(low_number(cursor.bytes(size)?)),
    }
}

/// Reads a number of at most seven bytes, which is a signed one too.
pub fn read_short(cursor: &mut Cursor<'_>, size: u8) -> Result<i64, Short>
    requires { size ≤ 7 }
    ensures read { ReadsField (λ bs. map_read pos (little_at size bs)) result cursor.old cursor.new }
    ensures fits { IfOk result (IsBelow (256 ^ size)) }
{
    let number = read_number(cursor, usize::from(size))?;
    Ok(number as i64)
}

/// The number in bytes, the lowest first.
fn low_number(bytes: &[u8]) -> u64
    requires some { 1 ≤ length bytes.now }
    requires few { length bytes.now ≤ 8 }
    ensures value { result ≡ little_value bytes.now }
    ensures fits { result < 256 ^ length bytes.now }
{
    LittleEndian::read_uint(bytes, bytes.len())
}

/// Reads a colour: red, green, blue.
pub fn read_color(cursor: &mut Cursor<'_>) -> Result<u32, Short>
    ensures read { ReadsField (big_at 3) result cursor.old cursor.new }
    ensures fits { IfOk result (λ color. color < 16777216) }
{
    Ok(color_of(cursor.bytes(COLOR_SIZE)?))
}

/// The colour in three bytes: red, green, blue.
fn color_of(bytes: &[u8]) -> u32
    requires { length bytes.now ≡ 3 }
    ensures value { result ≡ big_value bytes.now }
    ensures fits { result < 16777216 }
{
    BigEndian::read_u24(bytes)
}

/// Reads a signed number of one byte or two, the lowest first.
#[tactic(auto, using(crate::proofs::NumberBytes::counted))]
pub fn read_signed(cursor: &mut Cursor<'_>, size: usize) -> Result<i64, Short>
    requires some { 1 ≤ size }
    requires few { size ≤ 2 }
    ensures read { ReadsField (little_signed_at size) result cursor.old cursor.new }
    ensures fits { IfOk result (λ z. fits_coordinate z ≡ true) }
{
    Ok(signed_number(cursor.bytes(size)?))
}

/// The signed number in one byte or two, the lowest first.
fn signed_number(bytes: &[u8]) -> i64
    requires some { 1 ≤ length bytes.now }
    requires few { length bytes.now ≤ 2 }
    ensures value { result ≡ twos_complement (length bytes.now) (little_value bytes.now) }
    ensures fits { fits_coordinate result ≡ true }
{
    LittleEndian::read_int(bytes, bytes.len())
}

/// Reads a signed number of one byte.
fn read_signed_byte(cursor: &mut Cursor<'_>) -> Result<i64, Short>
    ensures read { ReadsField (little_signed_at 1) result cursor.old cursor.new }
    ensures fits { IfOk result (λ z. fits_coordinate z ≡ true) }
{
    Ok(signed_byte(read_byte(cursor)?))
}

/// The signed number in one byte.
fn signed_byte(byte: u8) -> i64
    ensures value { result ≡ twos_complement 1 byte }
    ensures fits { fits_coordinate result ≡ true }
{
    i64::from(byte.cast_signed())
}

/// Whether a signed number has two bytes.
fn is_coordinate(number: i64) -> bool
    ensures { result ≡ fits_coordinate number }
{
    -0x8000 <= number && number <= 0x7FFF
}

/// Reads a signed byte that is added to the last value.
pub fn read_moved(cursor: &mut Cursor<'_>, last: i64) -> Result<i64, Short>
    requires { fits_coordinate last ≡ true }
    ensures read { ReadsField (moved_at last) result cursor.old cursor.new }
    ensures fits { IfOk result (λ z. fits_coordinate z ≡ true) }
{
    let at = cursor.at();
    let moved = last + read_signed_byte(cursor)?;
    if !is_coordinate(moved) {
        cursor.go_to(at);
        return Err(Short { at });
    }
    Ok(moved)
}
