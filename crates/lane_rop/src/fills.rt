//! Rows of one colour, and rows that are copied.
ghost use Rattle.std.specs.Prelude.{◌≡◌, ℕ, ◌<◌, ◌≤◌, length, slice_index};

use crate::lanes::{LANES, load};
use std::simd::prelude::*;

/// How many pixels are left to the library's copy, whose call costs less then than lanes do.
const LONG: usize = 32;

/// Gives each pixel of a row one colour.
#[inline(always)]
pub fn fill_lanes(row: &mut [u32], color: u32)
    ensures { (k : ℕ) → k < length row.old → slice_index row.new k ≡ color }
{
    if row.len() < LANES {
        fill_few(row, color);
    } else {
        fill_blocks(row, color);
    }
}

/// Copies the pixels of a row.
#[inline(always)]
pub fn copy_lanes(from: &[u32], to: &mut [u32])
    requires { length from.now ≡ length to.old }
    ensures { (k : ℕ) → k < length to.old → slice_index to.new k ≡ slice_index from.now k }
{
    if to.len() < LANES {
        copy_few(from, to);
    } else if to.len() < LONG {
        copy_blocks(from, to);
    } else {
        to.copy_from_slice(from);
    }
}

/// One colour for fewer pixels: eight or four at once, which overlap where they don't come out even, or pixel by pixel.
#[inline(always)]
fn fill_few(row: &mut [u32], color: u32)
    requires { length row.old ≤ 16 }
    ensures { (k : ℕ) → k < length row.old → slice_index row.new k ≡ color }
{
    if row.len() >= 8 {
        let last = row.len() - 8;
        u32x8::splat(color).copy_to_slice(&mut row[0..]);
        u32x8::splat(color).copy_to_slice(&mut row[last..]);
    } else if row.len() >= 4 {
        let last = row.len() - 4;
        u32x4::splat(color).copy_to_slice(&mut row[0..]);
        u32x4::splat(color).copy_to_slice(&mut row[last..]);
    } else {
        fill_singly(row, color);
    }
}

/// One colour, pixel by pixel.
#[inline(always)]
fn fill_singly(row: &mut [u32], color: u32)
    ensures { (k : ℕ) → k < length row.old → slice_index row.new k ≡ color }
{
    for k in 0..row.len() {
        row[k] = color;
    }
}

/// One colour by lanes; the last ones are also those before them where they don't come out even.
#[inline(always)]
fn fill_blocks(row: &mut [u32], color: u32)
    requires { 16 ≤ length row.old }
    ensures { (k : ℕ) → k < length row.old → slice_index row.new k ≡ color }
{
    let lanes = u32x16::splat(color);
    let last = row.len() - LANES;
    let mut at = 0;
    while at < last {
        lanes.copy_to_slice(&mut row[at..]);
        at += LANES;
    }
    lanes.copy_to_slice(&mut row[last..]);
}

/// A copy of fewer pixels: eight or four at once, which overlap where they don't come out even, or pixel by pixel.
#[inline(always)]
fn copy_few(from: &[u32], to: &mut [u32])
    requires few { length to.old ≤ 16 }
    requires same { length from.now ≡ length to.old }
    ensures { (k : ℕ) → k < length to.old → slice_index to.new k ≡ slice_index from.now k }
{
    if to.len() >= 8 {
        let last = to.len() - 8;
        u32x8::from_slice(&from[0..]).copy_to_slice(&mut to[0..]);
        u32x8::from_slice(&from[last..]).copy_to_slice(&mut to[last..]);
    } else if to.len() >= 4 {
        let last = to.len() - 4;
        u32x4::from_slice(&from[0..]).copy_to_slice(&mut to[0..]);
        u32x4::from_slice(&from[last..]).copy_to_slice(&mut to[last..]);
    } else {
        copy_singly(from, to);
    }
}

/// A copy, pixel by pixel.
#[inline(always)]
fn copy_singly(from: &[u32], to: &mut [u32])
    requires { length from.now ≡ length to.old }
    ensures { (k : ℕ) → k < length to.old → slice_index to.new k ≡ slice_index from.now k }
{
    for k in 0..to.len() {
        to[k] = from[k];
    }
}

/// A copy by lanes; the last ones are also those before them where they don't come out even.
#[inline(always)]
fn copy_blocks(from: &[u32], to: &mut [u32])
    requires long { 16 ≤ length to.old }
    requires same { length from.now ≡ length to.old }
    ensures { (k : ℕ) → k < length to.old → slice_index to.new k ≡ slice_index from.now k }
{
    let last = to.len() - LANES;
    let mut at = 0;
    while at < last {
        load(from, at).copy_to_slice(&mut to[at..]);
        at += LANES;
    }
    load(from, last).copy_to_slice(&mut to[last..]);
}
