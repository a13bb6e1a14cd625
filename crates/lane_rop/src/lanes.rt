//! Vectors of sixteen pixels.
ghost use Rattle.std.specs.Prelude.{◌≡◌, ◌+◌, ◌≤◌, length, slice_index};
ghost use Rattle.lane_rop.specs.Sums.{added, sum_of_two};
ghost use Rattle.lane_rop.specs.Lanes.{HasLanes};

use std::simd::prelude::*;

/// How many pixels a vector has.
pub(crate) const LANES: usize = 16;

/// The pixels from a place on.
#[inline(always)]
pub(crate) fn load(pixels: &[u32], at: usize) -> u32x16
    requires { at + 16 ≤ length pixels.now }
    ensures { HasLanes result (λ k. slice_index pixels.now (at + k)) }
{
    u32x16::from_slice(&pixels[at..])
}

/// In each lane `one`, and `more` added where `bits` has a one.
#[inline(always)]
pub(crate) fn added_lanes(bits: u32x16, one: u32x16, more: u32x16) -> u32x16
    requires bits { length bits ≡ 16 }
    requires one { length one ≡ 16 }
    requires more { length more ≡ 16 }
    ensures { HasLanes result (λ k. added (slice_index bits k) (slice_index one k) (slice_index more k)) }
{
    one ^ (bits & more)
}

/// The same of two words, for all lanes.
#[inline(always)]
pub(crate) fn added_words(bits: u32x16, one: u32, more: u32) -> u32x16
    requires { length bits ≡ 16 }
    ensures { HasLanes result (λ k. added (slice_index bits k) one more) }
{
    added_lanes(bits, u32x16::splat(one), u32x16::splat(more))
}

/// In each lane the sum of products of two operands.
#[inline(always)]
pub(crate) fn sum_lanes(words: &[u32; 4], x: u32x16, d: u32x16) -> u32x16
    requires operand { length x ≡ 16 }
    requires destination { length d ≡ 16 }
    ensures { HasLanes result (λ k. sum_of_two words.now (slice_index x k) (slice_index d k)) }
{
    let one = added_words(d, words[0], words[1]);
    let more = added_words(d, words[2], words[3]);
    added_lanes(x, one, more)
}
