//! A primary order ([MS-RDPEGDI] 2.2.2.2.1.1.2).
//!
//! | size | part | there |
//! |---|---|---|
//! | 1 | controlFlags: standard 01, bounds 04, type change 08, delta coordinates 10, zero bounds deltas 20, and how many flag bytes are omitted in the two top bits | always |
//! | 1 | orderType | where its bit is set |
//! | 0 to 3 | fieldFlags, the lowest byte first | as many as aren't omitted |
//! | 0 to 9 | bounds | where the order has some and they aren't the last ones |
//! | | the fields | each where its flag is set |

ghost use Rattle.std.specs.Prelude.{◌≡◌, ◌≤◌, ◌<◌, ◌∷◌, true, is_some, drop, length, vec_len, vec_capacity, IfOk, OnOk};
ghost use Rattle.wire_num.specs.Cursor.{ReadsField, rest};
ghost use Rattle.order_fields.specs.OrderTable.{row_of, last_values, field_list, IsFieldList, AreRegisters, FitBounds};
ghost use Rattle.order_fields.specs.OrderStream.{type_at, primary_at};
ghost use Rattle.order_fields.specs.Kept.{optional_bytes, optional_edges, IsLayoutOf};
ghost use Rattle.order_read.specs.Reading.{ReadsOr};
ghost use Rattle.order_read.specs.Parts.{list_and_bounds_at};
ghost use Rattle.order_read.specs.Primary.{DrawsPrimary, DrawsTyped};
ghost use Rattle.order_read.specs.Told.{optional_rect};

use crate::bits::has_bit;
use crate::edges::{optional_rect_of, read_bounds};
use crate::fields::read_fields;
use crate::number::{read_byte, read_number};
use crate::{OrderFault, Read};
use order_fields::{Bounds, Fields, Layout, Regs, layout_of};
use px_core::Rect;
use std::alloc::Global;
use wire_num::{Cursor, OutOfMemory, Short};

/// The most values that an order has: those of GlyphIndex.
const MOST_VALUES: usize = 21;

/// The bits of the control byte: TS_BOUNDS, TS_TYPE_CHANGE, TS_DELTA_COORDINATES, TS_ZERO_BOUNDS_DELTAS, and the first of the two that count omitted flag bytes.
const BOUNDS: u8 = 0x04;

const TYPE_CHANGE: u8 = 0x08;

const DELTA_COORDINATES: u8 = 0x10;

const ZERO_BOUNDS_DELTAS: u8 = 0x20;

const ZERO_FIELD_BYTE: u8 = 0x40;

/// Reads the order's type, where it stands there; else it is the last one.
fn read_type(cursor: &mut Cursor<'_>, changed: bool, last: u8) -> Result<u8, Short>
    ensures { ReadsField (type_at changed last) result cursor.old cursor.new }
{
    if changed { read_byte(cursor) } else { Ok(last) }
}

/// Reads an order's flags, so many bytes, its bounds, and its fields over their last values; the result is its counted bytes, where the type has such a field, the bounds, and their rectangle.
fn read_list(
    alloc: Global,
    cursor: &mut Cursor<'_>,
    kind: u8,
    layout: Layout,
    size: u8,
    control: u8,
    regs: &Regs,
    values: &mut [i64],
) -> Result<(Option<Vec<u8>>, Option<Bounds>, Option<Rect>), OrderFault>
    requires kind { is_some (row_of kind) ≡ true }
    requires layout { IsLayoutOf (row_of kind) layout }
    requires size { size ≤ 3 }
    requires sound { AreRegisters regs.now }
    requires last { values.old ≡ (last_values regs.now kind).numbers }
    ensures read { ReadsOr (λ p. (field_list kind values.new (optional_bytes p.0), optional_edges p.1)) (list_and_bounds_at kind size control regs.now) result cursor.old cursor.new }
    ensures list { IfOk result (λ p. IsFieldList (field_list kind values.new (optional_bytes p.0))) }
    ensures fits { IfOk result (λ p. FitBounds (optional_edges p.1)) }
    ensures rect { IfOk result (λ p. p.2 ≡ optional_rect (optional_edges p.1)) }
{
    let flags = read_number(cursor, usize::from(size))? as u32;
    let same = has_bit(control, ZERO_BOUNDS_DELTAS);
    let bounds = read_bounds(cursor, has_bit(control, BOUNDS), same, regs.last_bounds())?;
    let rect = optional_rect_of(bounds);
    let delta = has_bit(control, DELTA_COORDINATES);
    let counted = read_fields(alloc, cursor, kind, layout, flags, delta, regs, values)?;
    Ok((counted, bounds, rect))
}

/// The counted bytes; none where there is no such field.
fn bytes_in(counted: &Option<Vec<u8>>) -> &[u8]
    ensures { result.now ≡ optional_bytes counted.now }
{
    match counted {
        None => &[],
        Some(bytes) => bytes,
    }
}

/// Makes room for one more order, which is then put in its place at once.
fn make_room(out: &mut Vec<Read>) -> Result<(), OutOfMemory>
    ensures same { out.new.items ≡ out.old.items }
    ensures room { OnOk result (vec_len out.new < vec_capacity out.new) }
{
    out.reserve(1)?;
    Ok(())
}

/// Reads an order of a type behind its type, keeps it in the registers and appends it. An `Err` leaves the registers as they were.
fn read_typed(
    alloc: Global,
    cursor: &mut Cursor<'_>,
    kind: u8,
    layout: Layout,
    size: u8,
    control: u8,
    regs: &mut Regs,
    out: &mut Vec<Read>,
) -> Result<(), OrderFault>
    requires kind { is_some (row_of kind) ≡ true }
    requires layout { IsLayoutOf (row_of kind) layout }
    requires size { size ≤ 3 }
    ensures { DrawsTyped kind size control regs.old regs.new result cursor.old cursor.new out.old.items out.new.items }
{
    make_room(out)?;
    let mut values = [0; MOST_VALUES];
    let count = regs.put_last_values(kind, &mut values);
    let (counted, bounds, rect) = read_list(
        alloc,
        cursor,
        kind,
        layout,
        size,
        control,
        regs,
        &mut values[..count],
    )?;
    regs.keep_values(kind, &values[..count], bytes_in(&counted), bounds);
    out.push_reserved(Read::Primary {
        fields: Fields::of_front(kind, values, count, counted),
        bounds: rect,
    });
    Ok(())
}

/// Reads the order behind its control byte, which stands at `first`, keeps it in the registers and appends it. An `Err` leaves the registers as they were.
pub fn read_primary(
    alloc: Global,
    cursor: &mut Cursor<'_>,
    first: usize,
    control: u8,
    regs: &mut Regs,
    out: &mut Vec<Read>,
) -> Result<(), OrderFault>
    requires place { first ≤ length cursor.old.bytes }
    requires control { drop first cursor.old.bytes ≡ control ∷ rest cursor.old }
    ensures { DrawsPrimary control regs.old regs.new result cursor.old cursor.new out.old.items out.new.items }
{
    let typed = cursor.at();
    let kind = read_type(cursor, has_bit(control, TYPE_CHANGE), regs.last_kind())?;
    let Some(layout) = layout_of(kind) else {
        cursor.go_to(typed);
        return Err(OrderFault::BadOrder { at: typed });
    };
    let omitted = control / ZERO_FIELD_BYTE;
    if layout.flag_bytes < omitted {
        cursor.go_to(first);
        return Err(OrderFault::BadOrder { at: first });
    }
    let size = layout.flag_bytes - omitted;
    read_typed(alloc, cursor, kind, layout, size, control, regs, out)
}
