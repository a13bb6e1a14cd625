//! The fields of a primary order, read over the last ones of its type ([MS-RDPEGDI] 2.2.2.2.1.1.2).

ghost use Rattle.std.specs.Prelude.{◌≡◌, ◌<◌, ◌≤◌, length, [], true, is_some, IfOk, OnOk};
ghost use Rattle.wire_num.specs.Cursor.{ReadsField, ReadsFieldAs};
ghost use Rattle.order_fields.specs.OrderTable.{FitsKind, FitKinds, row_of, last_values, AreRegisters, field_list, IsFieldList};
ghost use Rattle.order_fields.specs.Kept.{optional_bytes, IsLayoutOf};
ghost use Rattle.order_fields.specs.OrderStream.{value_at, field_at, counted_at};
ghost use Rattle.order_read.specs.Reading.{ReadsOr};
ghost use Rattle.order_read.specs.Parts.{IsShort, AreShort, ReadsNumbers, fields_at};

use crate::OrderFault;
use crate::number::{read_byte, read_color, read_moved, read_short, read_signed};
use order_fields::{FieldKind, Layout, Regs};
use std::alloc::Global;
use wire_num::{Cursor, OutOfMemory, Short};

/// The bytes of a signed number that isn't in the delta form.
const SIGNED_SIZE: usize = 2;

/// Reads the value of a field that stands there; `delta` says whether coordinates are in the delta form.
fn read_value(
    cursor: &mut Cursor<'_>,
    kind: FieldKind,
    delta: bool,
    last: i64,
) -> Result<i64, Short>
    requires size { IsShort kind }
    requires last { FitsKind kind last }
    ensures read { ReadsField (value_at kind delta last) result cursor.old cursor.new }
    ensures fits { IfOk result (FitsKind kind) }
{
    match kind {
        FieldKind::Number(1) => Ok(i64::from(read_byte(cursor)?)),
        FieldKind::Coordinate if delta => read_moved(cursor, last),
        FieldKind::Coordinate | FieldKind::Signed => read_signed(cursor, SIGNED_SIZE),
        FieldKind::Number(size) => read_short(cursor, size),
        FieldKind::Color => Ok(i64::from(read_color(cursor)?)),
    }
}

/// Reads a field in the place of its last value, which stays where the field doesn't stand there.
fn read_field(
    cursor: &mut Cursor<'_>,
    present: bool,
    kind: FieldKind,
    delta: bool,
    value: &mut i64,
) -> Result<(), Short>
    requires size { IsShort kind }
    requires last { FitsKind kind value.old }
    ensures read { ReadsFieldAs (λ _. value.new) (field_at present kind delta value.old) result cursor.old cursor.new }
    ensures fits { OnOk result (FitsKind kind value.new) }
{
    if present {
        *value = read_value(cursor, kind, delta, *value)?;
    }
    Ok(())
}

/// Reads the fields over their last values, and gives the flags that are left.
fn read_values(
    cursor: &mut Cursor<'_>,
    kinds: &[FieldKind],
    flags: u32,
    delta: bool,
    values: &mut [i64],
) -> Result<u32, Short>
    requires count { length values.old ≡ length kinds.now }
    requires sized { AreShort kinds.now }
    requires fits { FitKinds kinds.now values.old }
    ensures read { ReadsNumbers kinds.now flags delta values.old values.new result cursor.old cursor.new }
    ensures fits { OnOk result (FitKinds kinds.now values.new) }
{
    let mut left = flags;
    for i in 0..kinds.len() {
        read_field(cursor, left % 2 == 1, kinds[i], delta, &mut values[i])?;
        left /= 2;
    }
    Ok(left)
}

/// Reads counted bytes, which are one field: a count byte and that many bytes.
fn read_counted<'a>(cursor: &mut Cursor<'a>) -> Result<&'a [u8], Short>
    ensures read { ReadsFieldAs (λ bytes. bytes.now) (counted_at true []) result cursor.old cursor.new }
    ensures fits { IfOk result (λ bytes. length bytes.now < 256) }
{
    let at = cursor.at();
    let count = read_byte(cursor)?;
    match cursor.bytes(usize::from(count)) {
        Ok(bytes) => Ok(bytes),
        Err(_) => {
            cursor.go_to(at);
            Err(Short { at })
        }
    }
}

/// A vector of these bytes.
fn copied(alloc: Global, bytes: &[u8]) -> Result<Vec<u8>, OutOfMemory>
    ensures { IfOk result (λ v. v.items ≡ bytes.now) }
{
    Ok(Vec::from_slice(alloc, bytes)?)
}

/// Reads all fields of an order of a type over its last values; the result is its counted bytes, where the type has such a field.
pub fn read_fields(
    alloc: Global,
    cursor: &mut Cursor<'_>,
    kind: u8,
    layout: Layout,
    flags: u32,
    delta: bool,
    regs: &Regs,
    values: &mut [i64],
) -> Result<Option<Vec<u8>>, OrderFault>
    requires kind { is_some (row_of kind) ≡ true }
    requires layout { IsLayoutOf (row_of kind) layout }
    requires sound { AreRegisters regs.now }
    requires last { values.old ≡ (last_values regs.now kind).numbers }
    ensures read { ReadsOr (λ counted. field_list kind values.new (optional_bytes counted)) (fields_at kind flags delta regs.now) result cursor.old cursor.new }
    ensures fits { IfOk result (λ counted. IsFieldList (field_list kind values.new (optional_bytes counted))) }
{
    let left = read_values(cursor, layout.kinds, flags, delta, values)?;
    if !layout.counted {
        return Ok(None);
    }
    let bytes = if left % 2 == 1 {
        read_counted(cursor)?
    } else {
        regs.last_bytes(kind)
    };
    Ok(Some(copied(alloc, bytes)?))
}
