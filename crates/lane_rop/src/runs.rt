//! How long runs are.
ghost use Rattle.std.specs.Prelude.{◌≡◌, ℕ, ◌+◌, ◌<◌, ◌≤◌, ◌==◌, drop, if◌then◌else◌, length, slice_index};
ghost use Rattle.std.specs.Int.{bit_at};
ghost use Rattle.std.specs.List.{common_prefix_len, prefix_len};
ghost use Rattle.std.specs.Simd.Lanes.{chunk};

use crate::lanes::LANES;
use std::simd::prelude::*;

/// The colour whose runs `zero_run` finds.
const BLACK: u32 = 0;

/// How many pixels from a place on have the first one's colour.
pub fn same_run(pixels: &[u32], from: usize) -> usize
    requires { from < length pixels.now }
    ensures { result ≡ prefix_len (λ x. x == slice_index pixels.now from) (drop from pixels.now) }
{
    color_run(pixels, from, pixels[from])
}

/// How many pixels from a place on are 0.
pub fn zero_run(pixels: &[u32], from: usize) -> usize
    requires { from < length pixels.now }
    ensures { result ≡ prefix_len (λ x. x == 0) (drop from pixels.now) }
{
    color_run(pixels, from, BLACK)
}

/// How many pixels from a place on are those above them.
pub fn back_run(pixels: &[u32], above: &[u32], from: usize) -> usize
    requires above { length above.now ≡ length pixels.now }
    requires from { from < length pixels.now }
    ensures { result ≡ common_prefix_len (λ x y. x == y) (drop from pixels.now) (drop from above.now) }
{
    let mut at = back_blocks(pixels, above, from);
    while at < pixels.len() && pixels[at] == above[at] {
        at += 1;
    }
    at - from
}

/// A word with a one at each of the first 64 places where both have the same pixel.
#[inline(always)]
pub fn equal_word(pixels: &[u32], others: &[u32]) -> u64
    requires pixels { 64 ≤ length pixels.now }
    requires others { 64 ≤ length others.now }
    ensures { (k : ℕ) → k < 64 → bit_at result k ≡ (if slice_index pixels.now k == slice_index others.now k then 1 else 0) }
{
    u32x64::from_slice(pixels)
        .simd_eq(u32x64::from_slice(others))
        .to_bitmask()
}

/// How many pixels from a place on have a colour.
fn color_run(pixels: &[u32], from: usize, color: u32) -> usize
    requires { from < length pixels.now }
    ensures { result ≡ prefix_len (λ x. x == color) (drop from pixels.now) }
{
    let mut at = color_blocks(pixels, from, color);
    while at < pixels.len() && pixels[at] == color {
        at += 1;
    }
    at - from
}

/// A place that the run of a colour reaches by lanes: where it ends, or where fewer pixels are left than there are lanes.
fn color_blocks(pixels: &[u32], from: usize, color: u32) -> usize
    requires { from < length pixels.now }
    ensures from { from ≤ result }
    ensures within { result ≤ length pixels.now }
    ensures reached { from + prefix_len (λ x. x == color) (drop from pixels.now) ≡ result + prefix_len (λ x. x == color) (drop result pixels.now) }
{
    let mut at = from;
    while pixels.len() - at >= LANES {
        let n = first_other(pixels, at, color);
        at += n;
        if n < LANES {
            return at;
        }
    }
    at
}

/// The same of the run of pixels that are those above them.
fn back_blocks(pixels: &[u32], above: &[u32], from: usize) -> usize
    requires above { length above.now ≡ length pixels.now }
    requires from { from < length pixels.now }
    ensures from { from ≤ result }
    ensures within { result ≤ length pixels.now }
    ensures reached { from + common_prefix_len (λ x y. x == y) (drop from pixels.now) (drop from above.now) ≡ result + common_prefix_len (λ x y. x == y)
        (drop result pixels.now) (drop result above.now) }
{
    let mut at = from;
    while pixels.len() - at >= LANES {
        let n = first_changed(pixels, above, at);
        at += n;
        if n < LANES {
            return at;
        }
    }
    at
}

/// How many of sixteen pixels from a place on come before the first of another colour.
#[inline(always)]
fn first_other(pixels: &[u32], at: usize, color: u32) -> usize
    requires { at + 16 ≤ length pixels.now }
    ensures { result ≡ prefix_len (λ x. x == color) (chunk at 16 pixels.now) }
{
    let lanes = u32x16::from_slice(&pixels[at..]);
    lanes
        .simd_eq(u32x16::splat(color))
        .to_bitmask()
        .trailing_ones() as usize
}

/// How many of sixteen pixels from a place on come before the first that isn't the one above it.
#[inline(always)]
fn first_changed(pixels: &[u32], above: &[u32], at: usize) -> usize
    requires pixels { at + 16 ≤ length pixels.now }
    requires above { at + 16 ≤ length above.now }
    ensures { result ≡ common_prefix_len (λ x y. x == y) (chunk at 16 pixels.now) (chunk at 16 above.now) }
{
    let lanes = u32x16::from_slice(&pixels[at..]);
    lanes
        .simd_eq(u32x16::from_slice(&above[at..]))
        .to_bitmask()
        .trailing_ones() as usize
}
