//! Streams of run lengths and their pixels, by hand: each row of the code table in each form of its length, and refusals.

use rle_dec::{RleFault, unpack};
use std::alloc::Global;
use std::process::Abort;
use std::test::Fail;

const WHITES: [u32; 32] = [0xFFFFFF; 32];

const COLORS: [u32; 64] = [0x030201; 64];

const FIRST_32: [u32; 32] = [
    0, 1, 2, 3, 4, 5, 6, 7, 8, 9, 10, 11, 12, 13, 14, 15, 16, 17, 18, 19, 20, 21, 22, 23, 24, 25,
    26, 27, 28, 29, 30, 31,
];

const DITHERED: [u32; 32] = [
    1, 2, 1, 2, 1, 2, 1, 2, 1, 2, 1, 2, 1, 2, 1, 2, 1, 2, 1, 2, 1, 2, 1, 2, 1, 2, 1, 2, 1, 2, 1, 2,
];

// Each row of the code table: lengths stand in the code's low bits, in the next byte, in two bytes.

/// Background and foreground runs.
const PLAIN_RUNS: [Good; 6] = [
    // Background runs below an image, a colour run and an image: the pixels one row earlier.
    (
        &[0x82, 0x01, 0x02, 0x03, 0x04, 0x05, 0x06, 0x02],
        2,
        2,
        &[0x030201, 0x060504, 0x030201, 0x060504],
    ),
    (&[0x60, 0x00, 0x01, 0x02, 0x03, 0x00, 0x00], 32, 2, &COLORS),
    (
        &[0x82, 0x01, 0x02, 0x03, 0x04, 0x05, 0x06, 0xF0, 0x02, 0x00],
        2,
        2,
        &[0x030201, 0x060504, 0x030201, 0x060504],
    ),
    // Foreground runs: white in the first row, crossed with the row before in the second.
    (&[0x22, 0x22], 2, 2, &[0xFFFFFF, 0xFFFFFF, 0, 0]),
    (&[0x20, 0x00], 32, 1, &WHITES),
    (&[0xF1, 0x02, 0x00], 1, 2, &[0xFFFFFF, 0xFFFFFF]),
];

/// Mask images and colour runs.
const MASKS_AND_COLOR_RUNS: [Good; 6] = [
    // Mask images: eight pixels a step, one more than the next byte, as many as two bytes say; the lowest bit first.
    (
        &[0x41, 0x0F],
        4,
        2,
        &[0xFFFFFF, 0xFFFFFF, 0xFFFFFF, 0xFFFFFF, 0, 0, 0, 0],
    ),
    (
        &[0x40, 0x05, 0x2D],
        3,
        2,
        &[0xFFFFFF, 0, 0xFFFFFF, 0xFFFFFF, 0, 0xFFFFFF],
    ),
    (
        &[0xF2, 0x09, 0x00, 0xC3, 0x01],
        3,
        3,
        &[0xFFFFFF, 0xFFFFFF, 0, 0, 0, 0, 0xFFFFFF, 0xFFFFFF, 0xFFFFFF],
    ),
    // Colour runs.
    (&[0x62, 0x01, 0x02, 0x03], 2, 1, &[0x030201, 0x030201]),
    (&[0x60, 0x20, 0x01, 0x02, 0x03], 32, 2, &COLORS),
    (
        &[0xF3, 0x02, 0x00, 0x01, 0x02, 0x03],
        1,
        2,
        &[0x030201, 0x030201],
    ),
];

/// Colour images.
const COLOR_IMAGES: [Good; 3] = [
    // Colour images.
    (
        &[0x82, 0x01, 0x02, 0x03, 0x04, 0x05, 0x06],
        2,
        1,
        &[0x030201, 0x060504],
    ),
    (
        &[
            0x80, 0x00, 0x00, 0x00, 0x00, 0x01, 0x00, 0x00, 0x02, 0x00, 0x00, 0x03, 0x00, 0x00,
            0x04, 0x00, 0x00, 0x05, 0x00, 0x00, 0x06, 0x00, 0x00, 0x07, 0x00, 0x00, 0x08, 0x00,
            0x00, 0x09, 0x00, 0x00, 0x0A, 0x00, 0x00, 0x0B, 0x00, 0x00, 0x0C, 0x00, 0x00, 0x0D,
            0x00, 0x00, 0x0E, 0x00, 0x00, 0x0F, 0x00, 0x00, 0x10, 0x00, 0x00, 0x11, 0x00, 0x00,
            0x12, 0x00, 0x00, 0x13, 0x00, 0x00, 0x14, 0x00, 0x00, 0x15, 0x00, 0x00, 0x16, 0x00,
            0x00, 0x17, 0x00, 0x00, 0x18, 0x00, 0x00, 0x19, 0x00, 0x00, 0x1A, 0x00, 0x00, 0x1B,
            0x00, 0x00, 0x1C, 0x00, 0x00, 0x1D, 0x00, 0x00, 0x1E, 0x00, 0x00, 0x1F, 0x00, 0x00,
        ],
        8,
        4,
        &FIRST_32,
    ),
    (
        &[0xF4, 0x02, 0x00, 0x01, 0x02, 0x03, 0x04, 0x05, 0x06],
        1,
        2,
        &[0x030201, 0x060504],
    ),
];

/// Runs and mask images in a new foreground.
const NEW_FOREGROUNDS: [Good; 6] = [
    // A foreground pixel and a foreground run: the next byte and sixteen.
    (&[0xC3, 0x01, 0x00, 0x00], 3, 1, &[1, 1, 1]),
    (
        &[0xC0, 0x01, 0x01, 0x00, 0x00],
        17,
        1,
        &[1, 1, 1, 1, 1, 1, 1, 1, 1, 1, 1, 1, 1, 1, 1, 1, 1],
    ),
    (
        &[0xF6, 0x02, 0x00, 0x01, 0x02, 0x03],
        2,
        1,
        &[0x030201, 0x030201],
    ),
    // A foreground pixel and a mask image.
    (
        &[0xD1, 0x05, 0x00, 0x00, 0x5A],
        4,
        2,
        &[0, 5, 0, 5, 5, 0, 5, 0],
    ),
    (&[0xD0, 0x02, 0x05, 0x00, 0x00, 0x05], 3, 1, &[5, 0, 5]),
    (
        &[0xF7, 0x03, 0x00, 0x05, 0x00, 0x00, 0x06],
        3,
        1,
        &[0, 5, 5],
    ),
];

/// Dithered runs, masks of eight pixels and single pixels.
const PAIRS_AND_MARKS: [Good; 7] = [
    // Dithered runs: two pixels as often as the length.
    (
        &[0xE2, 0x01, 0x00, 0x00, 0x02, 0x00, 0x00],
        4,
        1,
        &[1, 2, 1, 2],
    ),
    (
        &[0xE0, 0x00, 0x01, 0x00, 0x00, 0x02, 0x00, 0x00],
        8,
        4,
        &DITHERED,
    ),
    (
        &[0xF8, 0x02, 0x00, 0x01, 0x00, 0x00, 0x02, 0x00, 0x00],
        2,
        2,
        &[1, 2, 1, 2],
    ),
    // The masks 03 and 05 of eight pixels.
    (&[0xF9], 4, 2, &[0xFFFFFF, 0xFFFFFF, 0, 0, 0, 0, 0, 0]),
    (&[0xFA], 4, 2, &[0xFFFFFF, 0, 0xFFFFFF, 0, 0, 0, 0, 0]),
    // One white pixel, one black one.
    (&[0xFD], 1, 1, &[0xFFFFFF]),
    (&[0xFE], 1, 1, &[0]),
];

/// Streams that are refused.
const BAD: [Refused; 9] = [
    // A pixel that is cut short.
    (&[0x60, 0x20, 0x00, 0x00], 64, 64, 2),
    // An unknown code.
    (&[0x01, 0xA0], 2, 2, 1),
    // A length of 0.
    (&[0x01, 0xF0, 0x00, 0x00], 2, 2, 2),
    // Past the last pixel: the length in the code, in the next byte, in two bytes.
    (&[0x01, 0x04], 2, 2, 1),
    (&[0x60, 0x00, 0x01, 0x02, 0x03], 2, 2, 1),
    (&[0xF3, 0x05, 0x00, 0x01, 0x02, 0x03], 2, 2, 1),
    // No order where pixels are left.
    (&[0x03], 2, 2, 1),
    // A mask that is cut short.
    (&[0x40, 0x08, 0x01], 3, 3, 2),
    // A byte after the last pixel.
    (&[0x04, 0x04], 2, 2, 1),
];

/// A stream that is refused, its sides, and the place.
type Refused = (&'static [u8], usize, usize, usize);

/// A stream, its sides, and its pixels.
type Good = (&'static [u8], usize, usize, &'static [u32]);

/// Reads a stream for sides up to 64.
fn read(
    rt: &impl Abort,
    alloc: Global,
    stream: &[u8],
    w: usize,
    h: usize,
) -> Result<Vec<u32>, RleFault> {
    assert!(rt; 1 <= w);
    assert!(rt; w <= 64);
    assert!(rt; 1 <= h);
    assert!(rt; h <= 64);
    unpack(alloc, stream, w, h)
}

/// Asserts the pixels of a stream.
fn pixels_are_read(
    rt: &impl Abort,
    alloc: Global,
    stream: &[u8],
    w: usize,
    h: usize,
    wanted: &[u32],
) -> Result<(), Fail> {
    let pixels = read(rt, alloc, stream, w, h)?;
    assert_eq!(rt; pixels.as_slice(), wanted, "{w} by {h} pixels");
    Ok(())
}

/// Asserts the pixels of streams.
fn rows_are_read(rt: &impl Abort, alloc: Global, rows: &[Good]) -> Result<(), Fail> {
    for (stream, w, h, wanted) in rows {
        pixels_are_read(rt, alloc, stream, *w, *h, wanted)?;
    }
    Ok(())
}

#[test]
fn each_row_of_the_table_is_read_in_each_form_of_its_length(rt: HostRuntime) -> Result<(), Fail> {
    rows_are_read(&rt, rt.alloc(), &PLAIN_RUNS)?;
    rows_are_read(&rt, rt.alloc(), &MASKS_AND_COLOR_RUNS)?;
    rows_are_read(&rt, rt.alloc(), &COLOR_IMAGES)?;
    rows_are_read(&rt, rt.alloc(), &NEW_FOREGROUNDS)?;
    rows_are_read(&rt, rt.alloc(), &PAIRS_AND_MARKS)
}

/// Asserts that a stream is refused at its first bad field.
fn is_refused(rt: &impl Abort, alloc: Global, refused: Refused) {
    let (stream, w, h, at) = refused;
    match read(rt, alloc, stream, w, h) {
        Ok(_) => panic!(rt; "a bad stream is read"),
        Err(fault) => assert_eq!(rt; fault, RleFault::BadRle { at }),
    }
}

#[test]
fn bad_streams_are_refused_at_their_first_bad_field(rt: HostRuntime) -> Result<(), Fail> {
    for refused in BAD {
        is_refused(&rt, rt.alloc(), refused);
    }
    Ok(())
}
