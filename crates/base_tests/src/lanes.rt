//! Rows of pixels around the lengths of a vector and of four.
ghost use Rattle.std.specs.Prelude.{◌≡◌, length};

use lane_rop::{back_run, rop_lanes, same_run, zero_run};
use std::alloc::{AllocError, Global};
use std::process::Abort;
use std::test::Fail;

/// The bits of a colour.
const COLOR_BITS: u32 = 0x00FF_FFFF;

/// A code for each set of operands, and those that copy and invert ([MS-RDPEGDI] 2.2.2.2.1.1.1.7).
const CODES: [u8; 11] = [
    0x00, 0x55, 0x5A, 0x66, 0x88, 0xA0, 0xB8, 0xCC, 0xE2, 0xF0, 0xFF,
];

/// What a code makes of one pixel, by its name there: `PSDPxax` is P ^ (S & (D ^ P)).
fn result_of(code: u8, p: u32, s: u32, d: u32) -> Option<u32> {
    match code {
        0x00 => Some(0),
        0x55 => Some(!d & COLOR_BITS),
        0x5A => Some(p ^ d),
        0x66 => Some(s ^ d),
        0x88 => Some(s & d),
        0xA0 => Some(p & d),
        0xB8 => Some(p ^ (s & (d ^ p))),
        0xCC => Some(s),
        0xE2 => Some(d ^ (s & (p ^ d))),
        0xF0 => Some(p),
        0xFF => Some(COLOR_BITS),
        _ => None,
    }
}

/// So many colours without a pattern that the eye sees.
fn colors(alloc: Global, n: u32, seed: u32) -> Result<Vec<u32>, AllocError> {
    let mut row = Vec::new(alloc);
    for k in 0..n {
        row.push((k ^ seed).wrapping_mul(0x9E37_79B1) & COLOR_BITS)?;
    }
    Ok(row)
}

/// Asserts the pixels of a row, in one function, so that the proof of the assertion is made once.
fn are_pixels(rt: &impl Abort, row: &[u32], wanted: &[u32]) {
    assert_eq!(rt; row, wanted);
}

/// Asserts a count.
fn is_count(rt: &impl Abort, count: usize, wanted: usize) {
    assert_eq!(rt; count, wanted);
}

/// Asserts what a code makes of rows of so many pixels.
fn mixes(rt: &impl Abort, alloc: Global, code: u8, n: u32) -> Result<(), Fail> {
    let pattern = colors(alloc, n, 0x5000)?;
    let source = colors(alloc, n, 0x70000)?;
    let mut row = colors(alloc, n, 0x900000)?;
    let mut wanted = Vec::new(alloc);
    for ((p, s), d) in pattern.iter().zip(source.iter()).zip(row.iter()) {
        match result_of(code, *p, *s, *d) {
            Some(result) => wanted.push(result)?,
            None => panic!(rt; "code {code} has no result here"),
        }
    }
    assert!(rt; pattern.len() == row.len() && source.len() == row.len());
    rop_lanes(code, &pattern, &source, &mut row);
    are_pixels(rt, row.as_slice(), wanted.as_slice());
    Ok(())
}

/// Asserts the three runs of a row that begins with so many black pixels.
fn run_to(rt: &impl Abort, row: &[u32], above: &[u32], n: usize) {
    assert!(rt; 0 < row.len() && row.len() == above.len());
    is_count(rt, zero_run(row, 0), n);
    is_count(rt, same_run(row, 0), n);
    is_count(rt, back_run(row, above, 0), n);
}

#[test]
fn each_code_mixes_each_pixel_of_a_row(rt: HostRuntime) -> Result<(), Fail> {
    for n in [0, 15, 16, 17, 64] {
        for code in CODES {
            mixes(&rt, rt.alloc(), code, n)?;
        }
    }
    Ok(())
}

#[test]
fn a_run_ends_with_its_row_or_at_another_pixel(rt: HostRuntime) -> Result<(), Fail> {
    for n in [1, 15, 16, 17, 64] {
        let mut row = vec![in rt.alloc(); 0u32; n]?;
        run_to(&rt, row.as_slice(), row.as_slice(), n);
        let mut above = vec![in rt.alloc(); 0u32; n]?;
        row.extend_from_slice(&[7; 20])?;
        above.extend_from_slice(&[8; 20])?;
        run_to(&rt, row.as_slice(), above.as_slice(), n);
    }
    Ok(())
}
