//! Fields of an entry, read one after the other. Numbers stand lowest byte first, a colour as red, green, blue.

ghost use Rattle.std.specs.Prelude.{◌≡◌, ◌≤◌, ◌<◌, ◌^◌, ◌∷◌, [], length, true, IfOk};
ghost use Rattle.byteorder.specs.Endian.{twos_complement};
ghost use Rattle.wire_num.specs.Cursor.{ReadsField, ReadsFields};
ghost use Rattle.wire_num.specs.FieldValue.{passing_at, is_at_most};
ghost use Rattle.wire_num.specs.Number.{big_value};
ghost use Rattle.px_core.specs.Colors.{is_color, are_colors};
ghost use Rattle.record_rules.specs.Reading.{byte_up_to, short_at, signed_byte_at, signed_short_at, color_at, colors_in, colors_at, pairs_in, pairs_at, point_at, rect_at};
ghost use Rattle.record_file.specs.Reads.{ReadsOr};

use crate::OutOfMemory;
use crate::read_fault::BodyFault;
use byteorder::{BigEndian, ByteOrder};
use px_core::Rect;
use std::alloc::Global;
use wire_num::{Cursor, Short};

/// How many bytes a colour has.
const COLOR_SIZE: usize = 3;

/// How many bytes a pair of a run has.
const PAIR_SIZE: usize = 2;

/// Reads a byte that is at most `most`.
#[tactic(auto, unfolding(wire_num::specs::FieldValue::passing_at))]
pub fn read_byte_up_to(cursor: &mut Cursor<'_>, most: u8) -> Result<u8, Short>
    ensures read { ReadsField (byte_up_to most) result cursor.old cursor.new }
    ensures most { IfOk result (λ n. n ≤ most) }
{
    let at = cursor.at();
    let byte = cursor.u8()?;
    if byte > most {
        cursor.go_to(at);
        return Err(Short { at });
    }
    Ok(byte)
}

/// Reads a number of two bytes that is at most `most`.
#[tactic(auto, unfolding(wire_num::specs::FieldValue::passing_at))]
pub fn read_short_up_to(cursor: &mut Cursor<'_>, most: u16) -> Result<u16, Short>
    ensures { ReadsField (passing_at (is_at_most most) short_at) result cursor.old cursor.new }
{
    let at = cursor.at();
    let number = cursor.u16_le()?;
    if number > most {
        cursor.go_to(at);
        return Err(Short { at });
    }
    Ok(number)
}

/// The signed number in one byte.
fn signed_byte(byte: u8) -> i32
    ensures { result ≡ twos_complement 1 byte }
{
    if byte < 0x80 {
        i32::from(byte)
    } else {
        i32::from(byte) - 0x100
    }
}

/// The signed number in two bytes.
fn signed_short(number: u16) -> i32
    ensures { result ≡ twos_complement 2 number }
{
    if number < 0x8000 {
        i32::from(number)
    } else {
        i32::from(number) - 0x1_0000
    }
}

/// Reads a signed number of one byte.
pub fn read_signed_byte(cursor: &mut Cursor<'_>) -> Result<i32, Short>
    ensures { ReadsField signed_byte_at result cursor.old cursor.new }
{
    Ok(signed_byte(cursor.u8()?))
}

/// Reads a signed number of two bytes.
pub fn read_signed_short(cursor: &mut Cursor<'_>) -> Result<i32, Short>
    ensures { ReadsField signed_short_at result cursor.old cursor.new }
{
    Ok(signed_short(cursor.u16_le()?))
}

/// Reads a point: x and y.
#[tactic(auto, unfolding(record_rules::specs::Reading::point_at))]
pub fn read_point(cursor: &mut Cursor<'_>) -> Result<(i32, i32), Short>
    ensures { ReadsFields point_at result cursor.old cursor.new }
{
    let x = read_signed_short(cursor)?;
    let y = read_signed_short(cursor)?;
    Ok((x, y))
}

/// Reads a rectangle: x and y, which are signed, w and h.
#[tactic(auto, unfolding(record_rules::specs::Reading::rect_at))]
pub fn read_rect(cursor: &mut Cursor<'_>) -> Result<Rect, Short>
    ensures { ReadsFields rect_at result cursor.old cursor.new }
{
    let x = read_signed_short(cursor)?;
    let y = read_signed_short(cursor)?;
    let w = cursor.u16_le()?;
    let h = cursor.u16_le()?;
    Ok(Rect {
        x,
        y,
        w: u32::from(w),
        h: u32::from(h),
    })
}

/// The colour of these bytes.
fn color_of(red: u8, green: u8, blue: u8) -> u32
    ensures value { result ≡ big_value (red ∷ green ∷ blue ∷ []) }
    ensures fits { result < 2 ^ 24 }
{
    BigEndian::read_u24(&[red, green, blue])
}

/// Reads a colour: red, green, blue.
#[tactic(auto, using(px_core::proofs::Colors::color_is))]
pub fn read_color(cursor: &mut Cursor<'_>) -> Result<u32, Short>
    ensures read { ReadsField color_at result cursor.old cursor.new }
    ensures color { IfOk result (λ color. is_color color ≡ true) }
{
    let bytes = cursor.bytes(COLOR_SIZE)?;
    Ok(color_of(bytes[0], bytes[1], bytes[2]))
}

/// The colours of bytes, three each; one or two bytes at their end are none.
fn colors_in(alloc: Global, bytes: &[u8]) -> Result<Vec<u32>, OutOfMemory>
    ensures value { IfOk result (λ colors. colors.items ≡ colors_in bytes.now) }
    ensures colors { IfOk result (λ colors. are_colors colors.items ≡ true) }
{
    let mut colors = Vec::with_capacity(alloc, bytes.len() / COLOR_SIZE)?;
    let mut rest = bytes;
    while let [red, green, blue, others @ ..] = rest {
        colors.push(color_of(*red, *green, *blue))?;
        rest = others;
    }
    Ok(colors)
}

/// Reads so many colours, as one field.
pub fn read_colors(
    alloc: Global,
    cursor: &mut Cursor<'_>,
    count: u16,
) -> Result<Vec<u32>, BodyFault>
    ensures read { ReadsOr (λ colors. colors.items) (colors_at count) result cursor.old cursor.new }
    ensures colors { IfOk result (λ colors. are_colors colors.items ≡ true) }
    ensures number { IfOk result (λ colors. length colors.items ≡ count) }
{
    let bytes = cursor.bytes(COLOR_SIZE * usize::from(count))?;
    Ok(colors_in(alloc, bytes)?)
}

/// The pairs of bytes, code and delta; one byte at their end is none.
fn pairs_in(alloc: Global, bytes: &[u8]) -> Result<Vec<(u8, u8)>, OutOfMemory>
    ensures { IfOk result (λ pairs. pairs.items ≡ pairs_in bytes.now) }
{
    let mut pairs = Vec::with_capacity(alloc, bytes.len() / PAIR_SIZE)?;
    let mut rest = bytes;
    while let [code, delta, others @ ..] = rest {
        pairs.push((*code, *delta))?;
        rest = others;
    }
    Ok(pairs)
}

/// Reads so many pairs, as one field.
pub fn read_pairs(
    alloc: Global,
    cursor: &mut Cursor<'_>,
    count: u8,
) -> Result<Vec<(u8, u8)>, BodyFault>
    ensures { ReadsOr (λ pairs. pairs.items) (pairs_at count) result cursor.old cursor.new }
{
    let bytes = cursor.bytes(PAIR_SIZE * usize::from(count))?;
    Ok(pairs_in(alloc, bytes)?)
}
