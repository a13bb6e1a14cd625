//! The values of an order's fields, as the numbers that they are.

ghost use Rattle.std.specs.Prelude.{◌≡◌, ◌≤◌, true};
ghost use Rattle.std.specs.Ordering.{int_eq};
ghost use Rattle.px_core.specs.Picture.{nat_of};
ghost use Rattle.order_fields.specs.OrderTable.{fits_coordinate};
ghost use Rattle.order_fields.specs.NamedDrawing.{value, number, rect_at, closed_rect_at, side_between, color_said, is_cached_brush, is_black, is_cached_run, are_zero};
ghost use Rattle.client_caches.specs.Named.{FitsAt, FitBox, IsNumberAt};

use client_picture::Color;
use px_core::{Depth, Rect, cached_brush_style};

/// The value at a place.
pub fn value(values: &[i64], place: usize) -> i64
    ensures { result ≡ value values.now place }
{
    match values.get(place) {
        Some(z) => *z,
        None => 0,
    }
}

/// The coordinate at a place.
pub fn coordinate(values: &[i64], place: usize) -> i32
    ensures { FitsAt values.now place → result ≡ value values.now place }
{
    i32::try_from(value(values, place)).unwrap_or(0)
}

/// The number at a place.
pub fn number(values: &[i64], place: usize) -> u32
    ensures { IsNumberAt 4294967296 values.now place → result ≡ number values.now place }
{
    u32::try_from(value(values, place)).unwrap_or(0)
}

/// The number of two bytes at a place.
pub fn short(values: &[i64], place: usize) -> u16
    ensures { IsNumberAt 65536 values.now place → result ≡ number values.now place }
{
    u16::try_from(value(values, place)).unwrap_or(0)
}

/// The number of one byte at a place.
pub fn byte(values: &[i64], place: usize) -> u8
    ensures { IsNumberAt 256 values.now place → result ≡ number values.now place }
{
    u8::try_from(value(values, place)).unwrap_or(0)
}

/// A side, which is 0 where its value is negative.
pub fn side_of(value: i64) -> u32
    requires { fits_coordinate value ≡ true }
    ensures { result ≡ nat_of value }
{
    if value < 0 { 0 } else { value as u32 }
}

/// The side at a place, which is 0 where the value is negative.
fn side(values: &[i64], place: usize) -> u32
    ensures { FitsAt values.now place → result ≡ number values.now place }
{
    u32::try_from(value(values, place)).unwrap_or(0)
}

/// How many numbers a stretch has from its first to its last.
fn side_between(first: i64, last: i64) -> u32
    requires first { fits_coordinate first ≡ true }
    requires last { fits_coordinate last ≡ true }
    ensures { result ≡ side_between first last }
{
    if last < first {
        0
    } else {
        (last + 1 - first) as u32
    }
}

/// Left, top, width and height from a place on.
pub fn rect_at(values: &[i64], place: usize) -> Rect
    requires { place ≤ 16 }
    ensures { FitBox values.now place → result ≡ rect_at values.now place }
{
    Rect {
        x: coordinate(values, place),
        y: coordinate(values, 1 + place),
        w: side(values, 2 + place),
        h: side(values, 3 + place),
    }
}

/// Left, top, right and bottom, inclusive, from a place on.
pub fn closed_rect_at(values: &[i64], place: usize) -> Rect
    requires place { place ≤ 16 }
    requires fits { FitBox values.now place }
    ensures { result ≡ closed_rect_at values.now place }
{
    Rect {
        x: coordinate(values, place),
        y: coordinate(values, 1 + place),
        w: side_between(value(values, place), value(values, 2 + place)),
        h: side_between(value(values, 1 + place), value(values, 3 + place)),
    }
}

/// Whether the brush from a place on is an entry of the brush cache: its origin is 0, and its style that of the depth.
pub fn is_cached_brush(values: &[i64], place: usize, depth: Depth) -> bool
    requires { place ≤ 16 }
    ensures { result ≡ is_cached_brush depth values.now place }
{
    is_value(values, place, 0)
        && is_value(values, 1 + place, 0)
        && is_value(values, 2 + place, i64::from(cached_brush_style(depth)))
}

/// Whether the value at a place is this one.
fn is_value(values: &[i64], place: usize, z: i64) -> bool
    ensures { result ≡ int_eq (value values.now place) z }
{
    value(values, place) == z
}

/// Whether so many values from a place on are 0.
fn are_zero(values: &[i64], place: usize, count: usize) -> bool
    requires place { place ≤ 16 }
    requires count { count ≤ 16 }
    ensures { result ≡ are_zero values.now place count }
{
    for k in 0..count {
        if !is_value(values, place + k, 0) {
            return false;
        }
    }
    true
}

/// The colour that three bytes say, which are those of a colour of 24 bits; at 16 bits the first byte is the low one and the third isn't read.
#[inline(always)]
pub fn color_said(bytes: Color, depth: Depth) -> Color
    ensures { result ≡ color_said depth bytes }
{
    match depth {
        Depth::Bits24 => bytes,
        Depth::Bits16 => {
            let number = bytes.number();
            Color::low(number / 0x1_0000 + 0x100 * (number / 0x100 % 0x100))
        }
    }
}

/// Whether the three bytes of the value at a place say black.
fn is_black(values: &[i64], place: usize, depth: Depth) -> bool
    ensures { IsNumberAt 16777216 values.now place → result ≡ is_black depth values.now place }
{
    match depth {
        Depth::Bits24 => is_value(values, place, 0),
        Depth::Bits16 => color_said(Color::low(number(values, place)), depth).number() == 0,
    }
}

/// Whether a run is one of cached glyphs: flAccel 3, ulCharInc 0, fOpRedundant 1, foreColor 0, and the edges op and the brush 0.
pub fn is_cached_run(values: &[i64], depth: Depth) -> bool
    ensures { IsNumberAt 16777216 values.now 5 → result ≡ is_cached_run depth values.now }
{
    is_value(values, 1, 3)
        && is_value(values, 2, 0)
        && is_value(values, 3, 1)
        && is_black(values, 5, depth)
        && are_zero(values, 10, 9)
}
