//! A primary order's bytes against the registers ([MS-RDPEGDI] 2.2.2.2.1.1.2).
//!
//! | size | part | there |
//! |---|---|---|
//! | 1 | controlFlags: standard 01, bounds 04, type change 08, delta coordinates 10, zero bounds deltas 20, and how many flag bytes are omitted in the two top bits | always |
//! | 1 | orderType | where it changed |
//! | 0 to 3 | fieldFlags, the lowest byte first, without zero bytes at the end | as many as are left |
//! | 0 to 9 | bounds | where the order has some and they aren't the last ones |
//! | | the fields | each where its value changed |

ghost use Rattle.std.specs.Prelude.{◌≡◌, ◌≤◌, ◌<◌, ◌+◌, ◌/◌, ◌^◌, suc, ◌++◌, ◌∷◌, [], length, not, ◌==◌, OnOk, OnErr, IfSome, None, true, false};
ghost use Rattle.wire_num.specs.Written.{AppendsFront};
ghost use Rattle.byteorder.specs.Endian.{little_bytes, big_bytes};
ghost use Rattle.order_fields.specs.Kept.{IsSized, AreSized, edges_in, optional_edges, lasts_of, registers_of, is_row_counted};
ghost use Rattle.order_fields.specs.OrderTable.{row_of, values_in, FitKinds, FitsKind, FitEdges, FitBounds, AreRegisters, IsFieldList};
ghost use Rattle.order_fields.specs.OrderDelta.{Field, fields_of, is_coordinate, is_near as near_field, value_bytes, field_bytes, present_bytes, counted_bytes, any_coordinate, all_near, takes_deltas, flags_of, keeps_bytes, control_byte as control_of, has_bounds, order_bytes, type_bytes, shown as shown_of, bounds_bytes};

use crate::bounds::{Bounds, keeps_bounds, put_bounds};
use crate::delta::{Changes, are_equal, changed_flag, either, is_byte_apart, shown};
use crate::lasts::Lasts;
use crate::number::{difference_byte, signed_two_bytes};
use crate::table::{is_counted, kinds_of};
use crate::tail::Tail;
use crate::{FieldKind, Fields};
use wire_num::OutOfMemory;

/// The bits of the control byte ([MS-RDPEGDI] 2.2.2.2.1.1.2): TS_STANDARD, TS_BOUNDS, TS_TYPE_CHANGE, TS_DELTA_COORDINATES, TS_ZERO_BOUNDS_DELTAS, and the first of the two that count omitted flag bytes.
const STANDARD: u8 = 0x01;

const BOUNDS: u8 = 0x04;

const TYPE_CHANGE: u8 = 0x08;

const DELTA_COORDINATES: u8 = 0x10;

const ZERO_BOUNDS_DELTAS: u8 = 0x20;

const ZERO_FIELD_BYTE: u8 = 0x40;

/// How many flags a byte has.
const FLAGS_IN_BYTE: usize = 8;

/// Puts the value of a field before a tail.
fn put_value(tail: &mut Tail, kind: FieldKind, delta: bool, last: i64, value: i64)
    requires last { FitsKind kind last }
    requires value { FitsKind kind value }
    requires size { IsSized kind }
    requires near { delta ≡ true → near_field (record { kind = kind; last = last; value = value }) ≡ true }
    requires room { length tail.old ≤ 174 }
    ensures bytes { tail.new ≡ value_bytes kind delta last value ++ tail.old }
    ensures few { length tail.new ≤ 8 + length tail.old }
{
    match kind {
        FieldKind::Coordinate if delta => tail.put_low(1, difference_byte(last, value)),
        FieldKind::Coordinate | FieldKind::Signed => tail.put_low(2, signed_two_bytes(value)),
        FieldKind::Number(size) => tail.put_low(usize::from(size), value as u64),
        FieldKind::Color => put_color(tail, value as u32),
    }
}

/// Puts a colour before a tail: red, green, blue.
fn put_color(tail: &mut Tail, color: u32)
    requires color { color < 16777216 }
    requires room { length tail.old ≤ 174 }
    ensures { tail.new ≡ big_bytes 3 color ++ tail.old }
{
    let [_, red, green, blue] = color.to_be_bytes();
    tail.put_bytes(&[red, green, blue]);
}

/// Puts a field before a tail, where its value changed.
fn put_field(tail: &mut Tail, kind: FieldKind, delta: bool, last: i64, value: i64)
    requires last { FitsKind kind last }
    requires value { FitsKind kind value }
    requires size { IsSized kind }
    requires near { delta ≡ true → near_field (record { kind = kind; last = last; value = value }) ≡ true }
    requires room { length tail.old ≤ 174 }
    ensures bytes { tail.new ≡ field_bytes delta (record { kind = kind; last = last; value = value }) ++ tail.old }
    ensures few { length tail.new ≤ 8 + length tail.old }
{
    if last != value {
        put_value(tail, kind, delta, last, value);
    }
}

/// Puts the value of a field before a tail in the delta form, and answers whether it's a coordinate; `None` where it's one that is too far for it.
fn put_near(tail: &mut Tail, kind: FieldKind, last: i64, value: i64) -> Option<bool>
    requires last { FitsKind kind last }
    requires value { FitsKind kind value }
    requires size { IsSized kind }
    requires room { length tail.old ≤ 174 }
    ensures far { result ≡ None → near_field (record { kind = kind; last = last; value = value }) ≡ false }
    ensures near { IfSome result (λ coordinate. near_field (record { kind = kind; last = last; value = value }) ≡ true) }
    ensures coordinate { IfSome result (λ coordinate. coordinate ≡ is_coordinate kind) }
    ensures bytes { IfSome result (λ coordinate. tail.new ≡ value_bytes kind true last value ++ tail.old) }
    ensures few { length tail.new ≤ 8 + length tail.old }
{
    match kind {
        FieldKind::Coordinate => {
            if is_byte_apart(last, value) {
                tail.put_low(1, difference_byte(last, value));
                Some(true)
            } else {
                None
            }
        }
        FieldKind::Number(1) => {
            tail.put(value as u8);
            Some(false)
        }
        _ => {
            put_value(tail, kind, true, last, value);
            Some(false)
        }
    }
}

/// Puts the fields that changed into an empty tail in the delta form, and answers their flags and whether a coordinate is among them; `None` where a
/// coordinate is too far for it.
fn put_deltas(
    tail: &mut Tail,
    kinds: &[FieldKind],
    last: &[i64],
    values: &[i64],
    keeps: bool,
) -> Option<Changes>
    requires empty { tail.old ≡ [] }
    requires lasts { length last.now ≡ length kinds.now }
    requires count { length values.now ≡ length kinds.now }
    requires few { length kinds.now ≤ 21 }
    requires sized { AreSized kinds.now }
    requires last { FitKinds kinds.now last.now }
    requires values { FitKinds kinds.now values.now }
    ensures far { result ≡ None → all_near (fields_of kinds.now last.now values.now) ≡ false }
    ensures near { IfSome result (λ changes. all_near (fields_of kinds.now last.now values.now) ≡ true) }
    ensures flags { IfSome result (λ changes. changes.flags ≡ flags_of (fields_of kinds.now last.now values.now) keeps) }
    ensures bound { IfSome result (λ changes. changes.flags < 2 ^ suc (length kinds.now)) }
    ensures coordinate { IfSome result (λ changes. changes.delta ≡ any_coordinate (fields_of kinds.now last.now values.now)) }
    ensures bytes { IfSome result (λ changes. tail.new ≡ present_bytes (fields_of kinds.now last.now values.now) true true []) }
    ensures few { IfSome result (λ changes. length tail.new ≤ 168) }
{
    let mut flags = u32::from(!keeps);
    let mut any = false;
    for i in (0..kinds.len()).rev() {
        let (kind, last, value) = (kinds[i], last[i], values[i]);
        flags *= 2;
        if last != value {
            match put_near(tail, kind, last, value) {
                None => return None,
                Some(coordinate) => any = either(coordinate, any),
            }
            flags += 1;
        }
    }
    Some(Changes { flags, delta: any })
}

/// Puts the fields that changed into an empty tail, not in the delta form, and answers their flags.
fn put_whole(tail: &mut Tail, kinds: &[FieldKind], last: &[i64], values: &[i64], keeps: bool) -> u32
    requires empty { tail.old ≡ [] }
    requires lasts { length last.now ≡ length kinds.now }
    requires count { length values.now ≡ length kinds.now }
    requires few { length kinds.now ≤ 21 }
    requires sized { AreSized kinds.now }
    requires last { FitKinds kinds.now last.now }
    requires values { FitKinds kinds.now values.now }
    ensures flags { result ≡ flags_of (fields_of kinds.now last.now values.now) keeps }
    ensures bound { result < 2 ^ suc (length kinds.now) }
    ensures bytes { tail.new ≡ present_bytes (fields_of kinds.now last.now values.now) false true [] }
    ensures few { length tail.new ≤ 168 }
{
    let mut flags = u32::from(!keeps);
    for i in (0..kinds.len()).rev() {
        let (kind, last, value) = (kinds[i], last[i], values[i]);
        flags = 2 * flags + changed_flag(last, value);
        put_field(tail, kind, false, last, value);
    }
    flags
}

/// Puts the fields that changed into an empty tail, in the delta form where they take it, and answers what they come to.
fn put_fields(
    tail: &mut Tail,
    kinds: &[FieldKind],
    last: &[i64],
    values: &[i64],
    keeps: bool,
) -> Changes
    requires empty { tail.old ≡ [] }
    requires lasts { length last.now ≡ length kinds.now }
    requires count { length values.now ≡ length kinds.now }
    requires few { length kinds.now ≤ 21 }
    requires sized { AreSized kinds.now }
    requires last { FitKinds kinds.now last.now }
    requires values { FitKinds kinds.now values.now }
    ensures flags { result.flags ≡ flags_of (fields_of kinds.now last.now values.now) keeps }
    ensures bound { result.flags < 2 ^ suc (length kinds.now) }
    ensures delta { result.delta ≡ takes_deltas (fields_of kinds.now last.now values.now) }
    ensures bytes { tail.new ≡ present_bytes (fields_of kinds.now last.now values.now) (takes_deltas (fields_of kinds.now last.now values.now)) true [] }
    ensures few { length tail.new ≤ 168 }
{
    match put_deltas(tail, kinds, last, values, keeps) {
        Some(changes) => changes,
        None => {
            tail.clear();
            let flags = put_whole(tail, kinds, last, values, keeps);
            Changes {
                flags,
                delta: false,
            }
        }
    }
}

/// Writes the bytes of a slice.
pub fn put_bytes(out: &mut Vec<u8>, bytes: &[u8]) -> Result<(), OutOfMemory>
    ensures ok { OnOk result (out.new.items ≡ out.old.items ++ bytes.now) }
    ensures memory { OnErr result (AppendsFront out.old.items bytes.now out.new.items) }
{
    out.extend_from_slice(bytes)?;
    Ok(())
}

/// Writes counted bytes, where they changed.
fn put_counted(out: &mut Vec<u8>, keeps: bool, bytes: &[u8]) -> Result<(), OutOfMemory>
    requires { length bytes.now < 256 }
    ensures ok { OnOk result (out.new.items ≡ out.old.items ++ counted_bytes keeps bytes.now) }
    ensures memory { OnErr result (AppendsFront out.old.items (counted_bytes keeps bytes.now) out.new.items) }
{
    if !keeps {
        out.push(bytes.len() as u8)?;
        out.extend_from_slice(bytes)?;
    }
    Ok(())
}

/// The control byte of an order.
fn control_byte(bounded: bool, typed: bool, delta: bool, keeps: bool, omitted: u8) -> u8
    requires { omitted ≤ 3 }
    ensures { result ≡ control_of bounded typed delta keeps omitted }
{
    STANDARD
        + BOUNDS * u8::from(bounded)
        + TYPE_CHANGE * u8::from(typed)
        + DELTA_COORDINATES * u8::from(delta)
        + ZERO_BOUNDS_DELTAS * u8::from(keeps)
        + ZERO_FIELD_BYTE * omitted
}

/// Puts the control byte, and behind it the type where it changed, before a tail.
fn put_head(tail: &mut Tail, control: u8, typed: bool, kind: u8)
    requires { length tail.old ≤ 180 }
    ensures { tail.new ≡ (control ∷ type_bytes typed kind) ++ tail.old }
{
    if typed {
        tail.put(kind);
    }
    tail.put(control);
}

/// Whether the type of an order must stand there.
fn is_typed(last: u8, kind: u8) -> bool
    ensures { result ≡ not (last == kind) }
{
    last != kind
}

/// Whether an order has bounds.
fn is_bounded(bounds: Option<Bounds>) -> bool
    ensures { result ≡ has_bounds (optional_edges bounds) }
{
    match bounds {
        None => false,
        Some(_) => true,
    }
}

/// How many flag bytes an order of so many fields has: a bit for each field, and one more.
fn flag_bytes_for(fields: usize) -> u8
    requires { fields ≤ 21 }
    ensures { result ≡ suc (fields / 8) }
{
    (fields / FLAGS_IN_BYTE + 1) as u8
}

/// Puts the flags of an order's fields before a tail, without their zero bytes at the end.
fn put_flags(tail: &mut Tail, flags: u32)
    requires { length tail.old ≤ 179 }
    ensures { tail.new ≡ little_bytes (shown_of flags) flags ++ tail.old }
{
    match flags {
        0 => {}
        0x1..=0xFF => tail.put_low(1, u64::from(flags)),
        _ => tail.put_low(usize::from(shown(flags)), u64::from(flags)),
    }
}

/// Whether the counted bytes of an order needn't stand there.
fn keeps_counted(kind: u8, lasts: &Lasts, o: &Fields) -> bool
    requires { lasts.now.glyph_count ≤ 255 }
    ensures { result ≡ keeps_bytes (is_row_counted (row_of kind)) (values_in (lasts_of lasts.now) kind).bytes o.now.values.bytes }
{
    !is_counted(kind) || are_equal(lasts.bytes(kind), o.bytes())
}

/// Puts an order but its counted bytes into an empty tail, and answers whether these needn't stand there.
fn put_uncounted(
    tail: &mut Tail,
    last_kind: u8,
    lasts: &Lasts,
    old: &Bounds,
    o: &Fields,
    new: Option<Bounds>,
    confirmed: bool,
) -> bool
    requires empty { tail.old ≡ [] }
    requires registers { AreRegisters (registers_of last_kind lasts.now old.now) }
    requires room { lasts.now.glyph_count ≤ 255 }
    requires fits { IsFieldList o.now }
    requires new { FitBounds (optional_edges new) }
    ensures { order_bytes (registers_of last_kind lasts.now old.now) confirmed o.now (optional_edges new) ≡ tail.new ++ counted_bytes result o.now.values.bytes }
{
    let kind = o.kind();
    let kinds = kinds_of(kind);
    let last = lasts.values(kind);
    let values = o.values();
    let keeps = keeps_counted(kind, lasts, o);
    let typed = is_typed(last_kind, kind);
    let keeps_edges = keeps_bounds(confirmed, old, new);
    let changes = put_fields(tail, kinds, last, values, keeps);
    let omitted = flag_bytes_for(kinds.len()) - shown(changes.flags);
    let bounded = is_bounded(new);
    let control = control_byte(bounded, typed, changes.delta, keeps_edges, omitted);
    put_bounds(tail, keeps_edges, old, new);
    put_flags(tail, changes.flags);
    put_head(tail, control, typed, kind);
    keeps
}

/// Writes an order against the last type, the last fields of each type and the last bounds.
pub fn put_order(
    out: &mut Vec<u8>,
    last_kind: u8,
    lasts: &Lasts,
    old: &Bounds,
    o: &Fields,
    new: Option<Bounds>,
    confirmed: bool,
) -> Result<(), OutOfMemory>
    requires registers { AreRegisters (registers_of last_kind lasts.now old.now) }
    requires room { lasts.now.glyph_count ≤ 255 }
    requires fits { IsFieldList o.now }
    requires new { FitBounds (optional_edges new) }
    ensures ok { OnOk result (out.new.items ≡ out.old.items ++ order_bytes (registers_of last_kind lasts.now old.now) confirmed o.now (optional_edges new)) }
    ensures memory { OnErr result (AppendsFront out.old.items (order_bytes (registers_of last_kind lasts.now old.now) confirmed o.now (optional_edges new)) out.new.items) }
{
    let mut tail = Tail::new();
    let keeps = put_uncounted(&mut tail, last_kind, lasts, old, o, new, confirmed);
    put_bytes(out, tail.bytes())?;
    put_counted(out, keeps, o.bytes())
}
