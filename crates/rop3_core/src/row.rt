//! The raster operation of a row of pixels.

ghost use Rattle.std.specs.Prelude.{◌≡◌, ℕ, ◌<◌, length, slice_index, bit_and, bit_xor};
ghost use Rattle.rop3_core.specs.Rop3.{ternary_raster};

use crate::masks::{COLOR_BITS, Masks};

/// `SRCCOPY`: the source.
const SRCCOPY: u8 = 0xCC;
/// `PATCOPY`: the pattern.
const PATCOPY: u8 = 0xF0;
/// `SRCINVERT`: source and destination, exclusive or.
const SRCINVERT: u8 = 0x66;

/// Makes each pixel of `d` what the operation of this code makes of the pixels at its place.
///
/// The code is looked at once a row; no memory is taken.
pub fn rop_row(code: u8, p: &[u32], s: &[u32], d: &mut [u32])
    requires pattern { length p.now ≡ length d.old }
    requires source { length s.now ≡ length d.old }
    ensures { (k : ℕ) → k < length d.old → slice_index d.new k ≡ ternary_raster code (slice_index p.now k) (slice_index s.now k) (slice_index d.old k) }
{
    match code {
        SRCCOPY => copy_row(s, d),
        PATCOPY => copy_row(p, d),
        SRCINVERT => invert_row(s, d),
        _ => mix_row(&Masks::new(code), p, s, d),
    }
}

/// Copies a row of colours.
fn copy_row(from: &[u32], to: &mut [u32])
    requires { length from.now ≡ length to.old }
    ensures { (k : ℕ) → k < length to.old → slice_index to.new k ≡ bit_and (slice_index from.now k) COLOR_BITS }
{
    for i in 0..to.len() {
        to[i] = from[i] & COLOR_BITS;
    }
}

/// Inverts the bits of a row where the source has ones.
fn invert_row(s: &[u32], d: &mut [u32])
    requires { length s.now ≡ length d.old }
    ensures { (k : ℕ) → k < length d.old → slice_index d.new k ≡ bit_and (bit_xor (slice_index s.now k) (slice_index d.old k)) COLOR_BITS }
{
    for i in 0..d.len() {
        d[i] = (s[i] ^ d[i]) & COLOR_BITS;
    }
}

/// The operation of any code.
fn mix_row(masks: &Masks, p: &[u32], s: &[u32], d: &mut [u32])
    requires pattern { length p.now ≡ length d.old }
    requires source { length s.now ≡ length d.old }
    ensures { (k : ℕ) → k < length d.old → slice_index d.new k ≡ ternary_raster masks.now.code (slice_index p.now k) (slice_index s.now k) (slice_index d.old k) }
{
    for i in 0..d.len() {
        d[i] = masks.mixed(p[i], s[i], d[i]);
    }
}
