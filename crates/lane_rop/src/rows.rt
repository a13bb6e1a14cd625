//! The raster operation of a row.
ghost use Rattle.std.specs.Prelude.{◌≡◌, ℕ, false, ◌<◌, ◌≤◌, length, slice_index};
ghost use Rattle.rop3_core.specs.Rop3.{ternary_raster};
ghost use Rattle.lane_rop.specs.Sums.{added, sum_of_two};
ghost use Rattle.lane_rop.specs.Rows.{AreMade, AreMixed};

use crate::lanes::{LANES, added_lanes, added_words, load, sum_lanes};
use crate::sums::Sums;
use rop3_core::{needs_pattern, needs_source, rop_row};

/// `SRCCOPY`: the source.
const SRCCOPY: u8 = 0xCC;
/// `PATCOPY`: the pattern.
const PATCOPY: u8 = 0xF0;
/// `SRCINVERT`: source and destination, exclusive or.
const SRCINVERT: u8 = 0x66;

/// Makes each pixel of `d` what the operation of this code makes of the pixels at its place.
///
/// The code is looked at once a row; no memory is taken.
pub fn rop_lanes(code: u8, p: &[u32], s: &[u32], d: &mut [u32])
    requires pattern { length p.now ≡ length d.old }
    requires source { length s.now ≡ length d.old }
    ensures { (k : ℕ) → k < length d.old → slice_index d.new k ≡ ternary_raster code (slice_index p.now k) (slice_index s.now k) (slice_index d.old k) }
{
    match code {
        SRCCOPY | PATCOPY | SRCINVERT => rop_row(code, p, s, d),
        _ => mix_row(&Sums::new(code), p, s, d),
    }
}

/// The operation of any code.
fn mix_row(sums: &Sums, p: &[u32], s: &[u32], d: &mut [u32])
    requires pattern { length p.now ≡ length d.old }
    requires source { length s.now ≡ length d.old }
    ensures { AreMixed sums.now.code p.now s.now 0 (length d.old) d.old d.new }
{
    let done = mix_blocks(sums, p, s, d);
    mix_rest(sums, p, s, d, done);
}

/// The operation by lanes as far as they go, by the kernel of the operands that the code needs; how many pixels were done.
fn mix_blocks(sums: &Sums, p: &[u32], s: &[u32], d: &mut [u32]) -> usize
    requires pattern { length p.now ≡ length d.old }
    requires source { length s.now ≡ length d.old }
    ensures mixed { AreMixed sums.now.code p.now s.now 0 result d.old d.new }
    ensures within { result ≤ length d.old }
{
    let (low, high) = (&sums.low, &sums.high);
    match (needs_pattern(sums.code), needs_source(sums.code)) {
        (true, true) => three_blocks(sums, p, s, d),
        (true, false) => two_blocks(&[low[0], low[1], high[0], high[1]], p, d),
        (false, true) => two_blocks(low, s, d),
        (false, false) => one_blocks(low[0], low[1], d),
    }
}

/// The kernel of pattern, source and destination.
fn three_blocks(sums: &Sums, p: &[u32], s: &[u32], d: &mut [u32]) -> usize
    requires pattern { length p.now ≡ length d.old }
    requires source { length s.now ≡ length d.old }
    ensures mixed { AreMixed sums.now.code p.now s.now 0 result d.old d.new }
    ensures within { result ≤ length d.old }
{
    let mut i = 0;
    while d.len() - i >= LANES {
        let (source, destination) = (load(s, i), load(d, i));
        let low = sum_lanes(&sums.low, source, destination);
        let high = sum_lanes(&sums.high, source, destination);
        added_lanes(load(p, i), low, high).copy_to_slice(&mut d[i..]);
        i += LANES;
    }
    i
}

/// The kernel of one operand and the destination.
fn two_blocks(words: &[u32; 4], x: &[u32], d: &mut [u32]) -> usize
    requires { length x.now ≡ length d.old }
    ensures made { AreMade (λ k. sum_of_two words.now (slice_index x.now k) (slice_index d.old k)) 0 result d.old d.new }
    ensures within { result ≤ length d.old }
{
    let mut i = 0;
    while d.len() - i >= LANES {
        sum_lanes(words, load(x, i), load(d, i)).copy_to_slice(&mut d[i..]);
        i += LANES;
    }
    i
}

/// The kernel of the destination alone.
fn one_blocks(one: u32, more: u32, d: &mut [u32]) -> usize
    ensures made { AreMade (λ k. added (slice_index d.old k) one more) 0 result d.old d.new }
    ensures within { result ≤ length d.old }
{
    let mut i = 0;
    while d.len() - i >= LANES {
        added_words(load(d, i), one, more).copy_to_slice(&mut d[i..]);
        i += LANES;
    }
    i
}

/// The operation on each pixel from a place on.
fn mix_rest(sums: &Sums, p: &[u32], s: &[u32], d: &mut [u32], from: usize)
    requires pattern { length p.now ≡ length d.old }
    requires source { length s.now ≡ length d.old }
    requires from { from ≤ length d.old }
    ensures { AreMixed sums.now.code p.now s.now from (length d.old) d.old d.new }
{
    for k in from..d.len() {
        d[k] = sums.mixed(p[k], s[k], d[k]);
    }
}
