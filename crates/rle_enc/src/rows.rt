//! The rows of pixels: padded to a width of a multiple of four, and from the bottom up.

ghost use Rattle.std.specs.Prelude.{◌≡◌, ◌≤◌, ◌*◌, ◌++◌, length, map, OnOk, IfOk, IsTrue};
ghost use Rattle.px_core.specs.Picture.{rows_of, turned_over, joined};
ghost use Rattle.px_core.specs.Colors.{are_colors};
ghost use Rattle.run_lengths.specs.WirePixels.{padded, padded_row};

use crate::OutOfMemory;
use std::alloc::Global;

/// A width on the wire is a multiple of this.
const WIDTH_STEP: usize = 4;

/// The width that a row has on the wire.
pub fn padded_width(w: usize) -> usize
    requires { w ≤ 64 }
    ensures { result ≡ padded w }
{
    WIDTH_STEP * ((w + 3) / WIDTH_STEP)
}

/// Puts a row at the end, with its last pixel repeated up to the padded width (profile).
fn put_padded_row(out: &mut Vec<u32>, row: &[u32]) -> Result<(), OutOfMemory>
    requires some { 1 ≤ length row.now }
    requires few { length row.now ≤ 64 }
    ensures { OnOk result (out.new.items ≡ out.old.items ++ padded_row (length row.now) row.now) }
{
    let added = padded_width(row.len()) - row.len();
    let last = row[row.len() - 1];
    out.extend_from_slice(row)?;
    out.extend_from_slice(&[last; 3][..added])?;
    Ok(())
}

/// The rows of `w` by `h` pixels, each with its last pixel repeated up to the padded width (profile).
pub fn pad_rows(alloc: Global, pixels: &[u32], w: usize, h: usize) -> Result<Vec<u32>, OutOfMemory>
    requires some { 1 ≤ w }
    requires few { w ≤ 64 }
    requires number { length pixels.now ≡ w * h }
    ensures value { IfOk result (λ rows. rows.items ≡ joined (map (padded_row w) (rows_of w h pixels.now))) }
    ensures number { IfOk result (λ rows. length rows.items ≡ padded w * h) }
    ensures colors { IsTrue (are_colors pixels.now) → IfOk result (λ rows. IsTrue (are_colors rows.items)) }
{
    let mut out = Vec::new(alloc);
    let mut below = pixels;
    for y in 0..h {
        let (row, rest) = below.split_at(w);
        put_padded_row(&mut out, row)?;
        below = rest;
    }
    Ok(out)
}

/// The rows of `w` by `h` pixels in the other order: of rows from the top those from the bottom up.
pub fn turn_over(alloc: Global, pixels: &[u32], w: usize, h: usize) -> Result<Vec<u32>, OutOfMemory>
    requires { length pixels.now ≡ w * h }
    ensures value { IfOk result (λ rows. rows.items ≡ turned_over w h pixels.now) }
    ensures number { IfOk result (λ rows. length rows.items ≡ w * h) }
    ensures colors { IsTrue (are_colors pixels.now) → IfOk result (λ rows. IsTrue (are_colors rows.items)) }
{
    let mut out = Vec::with_capacity(alloc, pixels.len())?;
    let mut above = pixels;
    for y in 0..h {
        let (rest, row) = above.split_at(above.len() - w);
        out.extend_from_slice(row)?;
        above = rest;
    }
    Ok(out)
}
