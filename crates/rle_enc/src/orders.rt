//! Writes the orders of the packer: background runs, colour runs and colour images.
ghost use Rattle.std.specs.Prelude.{◌≡◌, ◌/◌, ◌%◌, ◌<◌, ◌≤◌, [], ◌∷◌, ◌++◌, OnOk, length, take};
ghost use Rattle.run_lengths.specs.Packer.{length_bytes, run_bytes};
ghost use Rattle.px_core.specs.declared.depth.Depth.TheVariants.{Bits24};
ghost use Rattle.px_core.specs.Pixels.{pixel_bytes, pixels_bytes};
ghost use Rattle.rle_enc.specs.Stretch.{literal_bytes};
ghost use Rattle.run_lengths.specs.RunLength as runs;

use px_core::Depth;
use std::alloc::AllocError;
use std::simd::prelude::*;

const BACKGROUND_RUN: u8 = 0x00;

const LONG_BACKGROUND_RUN: u8 = 0xF0;

const COLOR_RUN: u8 = 0x60;

const LONG_COLOR_RUN: u8 = 0xF3;

const COLOR_IMAGE: u8 = 0x80;

const LONG_COLOR_IMAGE: u8 = 0xF4;

/// The first length that doesn't stand in the code, and the first that needs two bytes.
const NEXT_BYTE: usize = 32;

const NEXT_TWO_BYTES: usize = 288;

/// How many pixels are read at once.
const FOUR: usize = 4;

/// The places of the lowest three bytes of each of four words, and four places more.
const LOWEST_THREE: [usize; 16] = [0, 1, 2, 4, 5, 6, 8, 9, 10, 12, 13, 14, 0, 0, 0, 0];

/// The same behind a first place, and three places more.
const BEHIND_ONE: [usize; 16] = [0, 0, 1, 2, 4, 5, 6, 8, 9, 10, 12, 13, 14, 0, 0, 0];

/// A code and a length, in the shortest of its three forms.
#[inline(always)]
fn write_length(out: &mut Vec<u8>, code: u8, long_code: u8, n: usize) -> Result<(), AllocError>
    requires code { code < 224 }
    requires length { n < 65536 }
    ensures { OnOk result (out.new.items ≡ out.old.items ++ length_bytes code long_code n) }
{
    if n < NEXT_BYTE {
        out.extend_from_slice(&[code + n as u8])
    } else {
        write_far_length(out, code, long_code, n)
    }
}

/// A code and a length that doesn't stand in it, in the next byte or, after a code of their own, in two.
#[inline(never)]
fn write_far_length(out: &mut Vec<u8>, code: u8, long_code: u8, n: usize) -> Result<(), AllocError>
    requires far { NEXT_BYTE ≤ n }
    requires length { n < 65536 }
    ensures { OnOk result (out.new.items ≡ out.old.items ++ length_bytes code long_code n) }
{
    if n < NEXT_TWO_BYTES {
        out.extend_from_slice(&[code, (n - NEXT_BYTE) as u8])
    } else {
        out.extend_from_slice(&[long_code, (n % 256) as u8, (n / 256 % 256) as u8])
    }
}

/// The first byte of a pixel.
fn first_byte(color: u32) -> u8
    ensures { result ≡ color % 256 }
{
    (color % 256) as u8
}

/// The second byte of a pixel.
fn second_byte(color: u32) -> u8
    ensures { result ≡ color / 256 % 256 }
{
    (color / 256 % 256) as u8
}

/// The third byte of a pixel.
fn third_byte(color: u32) -> u8
    ensures { result ≡ color / 65536 % 256 }
{
    (color / 65536 % 256) as u8
}

/// A pixel.
#[inline(always)]
fn write_pixel(out: &mut Vec<u8>, color: u32, depth: Depth) -> Result<(), AllocError>
    ensures { OnOk result (out.new.items ≡ out.old.items ++ pixel_bytes depth color) }
{
    match depth {
        Depth::Bits24 => {
            out.extend_from_slice(&[first_byte(color), second_byte(color), third_byte(color)])
        }
        Depth::Bits16 => out.extend_from_slice(&[first_byte(color), second_byte(color)]),
    }
}

/// A code and a pixel.
#[inline(always)]
fn write_coded(out: &mut Vec<u8>, code: u8, color: u32, depth: Depth) -> Result<(), AllocError>
    ensures { OnOk result (out.new.items ≡ out.old.items ++ code ∷ pixel_bytes depth color) }
{
    match depth {
        Depth::Bits24 => out.extend_from_slice(&[
            code,
            first_byte(color),
            second_byte(color),
            third_byte(color),
        ]),
        Depth::Bits16 => out.extend_from_slice(&[code, first_byte(color), second_byte(color)]),
    }
}

/// A background run, which is the same at each depth.
#[inline(always)]
pub fn write_background(out: &mut Vec<u8>, n: usize) -> Result<(), AllocError>
    requires { n < 65536 }
    ensures { OnOk result (out.new.items ≡ out.old.items ++ length_bytes 0x00 0xF0 n) }
{
    write_length(out, BACKGROUND_RUN, LONG_BACKGROUND_RUN, n)
}

/// A colour run.
#[inline(always)]
pub fn write_color(out: &mut Vec<u8>, n: usize, color: u32, depth: Depth) -> Result<(), AllocError>
    requires { n < 65536 }
    ensures { OnOk result (out.new.items ≡ out.old.items ++ run_bytes depth (runs.Run.Color n color)) }
{
    if n < NEXT_BYTE {
        return write_coded(out, COLOR_RUN + n as u8, color, depth);
    }
    write_length(out, COLOR_RUN, LONG_COLOR_RUN, n)?;
    write_pixel(out, color, depth)
}

/// A colour image of pixels, or nothing where there are none; one of few pixels, as most are, is appended at once.
#[inline(always)]
pub fn write_literals(out: &mut Vec<u8>, pixels: &[u32], depth: Depth) -> Result<(), AllocError>
    requires { length pixels.now < 65536 }
    ensures { OnOk result (out.new.items ≡ out.old.items ++ literal_bytes depth pixels.now) }
{
    match pixels {
        [] => Ok(()),
        [a] => write_coded(out, COLOR_IMAGE + 1, *a, depth),
        [a, b] => write_two(out, *a, *b, depth),
        [a, b, c] => write_three(out, *a, *b, *c, depth),
        _ => write_image(out, pixels, depth),
    }
}

/// The same of the first pixels of a slice of four at least, so many.
#[inline(always)]
pub fn write_first(
    out: &mut Vec<u8>,
    pixels: &[u32],
    n: usize,
    depth: Depth,
) -> Result<(), AllocError>
    requires within { n ≤ length pixels.now }
    requires four { 4 ≤ length pixels.now }
    requires few { length pixels.now < 65536 }
    ensures { OnOk result (out.new.items ≡ out.old.items ++ literal_bytes depth (take n pixels.now)) }
{
    if n == 0 {
        return Ok(());
    }
    match depth {
        Depth::Bits24 => write_colors(out, pixels, n),
        Depth::Bits16 => write_literals(out, &pixels[..n], depth),
    }
}

/// The same of 24 bits, where there are any.
#[inline(always)]
fn write_colors(out: &mut Vec<u8>, pixels: &[u32], n: usize) -> Result<(), AllocError>
    requires some { 1 ≤ n }
    requires within { n ≤ length pixels.now }
    requires four { 4 ≤ length pixels.now }
    requires few { length pixels.now < 65536 }
    ensures { OnOk result (out.new.items ≡ out.old.items ++ literal_bytes Bits24 (take n pixels.now)) }
{
    if n <= FOUR {
        write_some_of_four(out, pixels, n)
    } else {
        write_image(out, &pixels[..n], Depth::Bits24)
    }
}

/// The same of four at most: the bytes of all four are written, and what is too much is dropped.
#[inline(always)]
fn write_some_of_four(out: &mut Vec<u8>, pixels: &[u32], n: usize) -> Result<(), AllocError>
    requires some { 1 ≤ n }
    requires few { n ≤ 4 }
    requires four { 4 ≤ length pixels.now }
    ensures { OnOk result (out.new.items ≡ out.old.items ++ literal_bytes Bits24 (take n pixels.now)) }
{
    let coded = coded_lowest_three(
        COLOR_IMAGE + n as u8,
        pixels[0],
        pixels[1],
        pixels[2],
        pixels[3],
    );
    out.extend_from_slice(&coded)?;
    out.truncate(out.len() - (15 - 3 * n));
    Ok(())
}

/// A colour image of two pixels.
#[inline(always)]
fn write_two(out: &mut Vec<u8>, a: u32, b: u32, depth: Depth) -> Result<(), AllocError>
    ensures { OnOk result (out.new.items ≡ out.old.items ++ literal_bytes depth (a ∷ b ∷ [])) }
{
    match depth {
        Depth::Bits24 => out.extend_from_slice(&[
            COLOR_IMAGE + 2,
            first_byte(a),
            second_byte(a),
            third_byte(a),
            first_byte(b),
            second_byte(b),
            third_byte(b),
        ]),
        Depth::Bits16 => out.extend_from_slice(&[
            COLOR_IMAGE + 2,
            first_byte(a),
            second_byte(a),
            first_byte(b),
            second_byte(b),
        ]),
    }
}

/// A colour image of three pixels.
#[inline(always)]
fn write_three(out: &mut Vec<u8>, a: u32, b: u32, c: u32, depth: Depth) -> Result<(), AllocError>
    ensures { OnOk result (out.new.items ≡ out.old.items ++ literal_bytes depth (a ∷ b ∷ c ∷ [])) }
{
    match depth {
        Depth::Bits24 => out.extend_from_slice(&[
            COLOR_IMAGE + 3,
            first_byte(a),
            second_byte(a),
            third_byte(a),
            first_byte(b),
            second_byte(b),
            third_byte(b),
            first_byte(c),
            second_byte(c),
            third_byte(c),
        ]),
        Depth::Bits16 => out.extend_from_slice(&[
            COLOR_IMAGE + 3,
            first_byte(a),
            second_byte(a),
            first_byte(b),
            second_byte(b),
            first_byte(c),
            second_byte(c),
        ]),
    }
}

/// A colour image of pixels.
#[inline(never)]
fn write_image(out: &mut Vec<u8>, pixels: &[u32], depth: Depth) -> Result<(), AllocError>
    requires some { 0 < length pixels.now }
    requires few { length pixels.now < 65536 }
    ensures { OnOk result (out.new.items ≡ out.old.items ++ literal_bytes depth pixels.now) }
{
    write_length(out, COLOR_IMAGE, LONG_COLOR_IMAGE, pixels.len())?;
    write_pixels(out, pixels, depth)
}

/// Pixels one after the other; four at once while there are so many.
fn write_pixels(out: &mut Vec<u8>, pixels: &[u32], depth: Depth) -> Result<(), AllocError>
    ensures { OnOk result (out.new.items ≡ out.old.items ++ pixels_bytes depth pixels.now) }
{
    let mut rest = pixels;
    while let [a, b, c, d, others @ ..] = rest {
        write_four(out, *a, *b, *c, *d, depth)?;
        rest = others;
    }
    write_each(out, rest, depth)
}

/// Pixels one after the other, one by one.
fn write_each(out: &mut Vec<u8>, pixels: &[u32], depth: Depth) -> Result<(), AllocError>
    ensures { OnOk result (out.new.items ≡ out.old.items ++ pixels_bytes depth pixels.now) }
{
    for pixel in pixels {
        write_pixel(out, *pixel, depth)?;
    }
    Ok(())
}

/// Four pixels.
fn write_four(
    out: &mut Vec<u8>,
    a: u32,
    b: u32,
    c: u32,
    d: u32,
    depth: Depth,
) -> Result<(), AllocError>
    ensures { OnOk result (out.new.items ≡ out.old.items ++ (pixel_bytes depth a ++ pixel_bytes depth b ++ pixel_bytes depth c ++ pixel_bytes depth d)) }
{
    match depth {
        Depth::Bits24 => out.extend_from_slice(&lowest_three(a, b, c, d)[..12]),
        Depth::Bits16 => out.extend_from_slice(&[
            first_byte(a),
            second_byte(a),
            first_byte(b),
            second_byte(b),
            first_byte(c),
            second_byte(c),
            first_byte(d),
            second_byte(d),
        ]),
    }
}

/// A code and the bytes of four pixels of 24 bits, and three bytes more.
#[inline(always)]
fn coded_lowest_three(code: u8, a: u32, b: u32, c: u32, d: u32) -> [u8; 16]
    ensures long { length result ≡ 16 }
    ensures bytes { take 13 result ≡ code ∷ (pixel_bytes Bits24 a ++ pixel_bytes Bits24 b ++ pixel_bytes Bits24 c ++ pixel_bytes Bits24 d) }
{
    let mut bytes = [0; 16];
    u32x4::from_array([a, b, c, d])
        .to_le_bytes()
        .swizzle(BEHIND_ONE)
        .copy_to_slice(&mut bytes);
    bytes[0] = code;
    bytes
}

/// The bytes of four pixels of 24 bits, and four bytes more.
#[inline(always)]
fn lowest_three(a: u32, b: u32, c: u32, d: u32) -> [u8; 16]
    ensures long { length result ≡ 16 }
    ensures bytes { take 12 result ≡ pixel_bytes Bits24 a ++ pixel_bytes Bits24 b ++ pixel_bytes Bits24 c ++ pixel_bytes Bits24 d }
{
    let mut bytes = [0; 16];
    u32x4::from_array([a, b, c, d])
        .to_le_bytes()
        .swizzle(LOWEST_THREE)
        .copy_to_slice(&mut bytes);
    bytes
}
