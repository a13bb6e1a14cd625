//! Pixels of as many bytes as the depth has, the lowest first, and rows in the other order.

ghost use Rattle.std.specs.Prelude.{◌≡◌, ◌≤◌, ◌<◌, ◌*◌, ◌/◌, ◌^◌, length, IfOk, IsTrue};
ghost use Rattle.byteorder.specs.Endian.{little_number};
ghost use Rattle.px_core.specs.Depth.{bytes_in};
ghost use Rattle.px_core.specs.Pixels.{pixels_of, pixels_of_2, pixels_of_3};
ghost use Rattle.px_core.specs.Picture.{turned_over};
ghost use Rattle.px_core.specs.Colors.{are_colors};

use byteorder::{ByteOrder, LittleEndian};
use px_core::Depth;
use std::alloc::Global;
use wire_num::OutOfMemory;

/// The bytes of a pixel of 24 bits.
const SIZE_24: usize = 3;

/// The bytes of a pixel of 16 bits.
const SIZE_16: usize = 2;

/// The pixel in the first three bytes.
fn pixel_24(bytes: &[u8]) -> u32
    requires { 3 ≤ length bytes.now }
    ensures value { result ≡ little_number 3 bytes.now }
    ensures fits { result < 2 ^ 24 }
{
    LittleEndian::read_u24(bytes)
}

/// The pixel in the first two bytes.
fn pixel_16(bytes: &[u8]) -> u32
    requires { 2 ≤ length bytes.now }
    ensures value { result ≡ little_number 2 bytes.now }
    ensures fits { result < 2 ^ 24 }
{
    u32::from(LittleEndian::read_u16(bytes))
}

/// The pixels of bytes; bytes at their end that make no pixel are none.
pub fn pixels_of(alloc: Global, bytes: &[u8], depth: Depth) -> Result<Vec<u32>, OutOfMemory>
    ensures value { IfOk result (λ pixels. pixels.items ≡ pixels_of depth bytes.now) }
    ensures number { IfOk result (λ pixels. length pixels.items ≡ length bytes.now / bytes_in depth) }
    ensures colors { IfOk result (λ pixels. IsTrue (are_colors pixels.items)) }
{
    match depth {
        Depth::Bits24 => pixels_24(alloc, bytes),
        Depth::Bits16 => pixels_16(alloc, bytes),
    }
}

/// The pixels of 24 bits.
fn pixels_24(alloc: Global, bytes: &[u8]) -> Result<Vec<u32>, OutOfMemory>
    ensures value { IfOk result (λ pixels. pixels.items ≡ pixels_of_3 bytes.now) }
    ensures number { IfOk result (λ pixels. length pixels.items ≡ length bytes.now / 3) }
    ensures colors { IfOk result (λ pixels. IsTrue (are_colors pixels.items)) }
{
    let count = bytes.len() / SIZE_24;
    let mut pixels = Vec::with_capacity(alloc, count)?;
    for k in 0..count {
        pixels.push(pixel_24(&bytes[SIZE_24 * k..]))?;
    }
    Ok(pixels)
}

/// The pixels of 16 bits.
fn pixels_16(alloc: Global, bytes: &[u8]) -> Result<Vec<u32>, OutOfMemory>
    ensures value { IfOk result (λ pixels. pixels.items ≡ pixels_of_2 bytes.now) }
    ensures number { IfOk result (λ pixels. length pixels.items ≡ length bytes.now / 2) }
    ensures colors { IfOk result (λ pixels. IsTrue (are_colors pixels.items)) }
{
    let count = bytes.len() / SIZE_16;
    let mut pixels = Vec::with_capacity(alloc, count)?;
    for k in 0..count {
        pixels.push(pixel_16(&bytes[SIZE_16 * k..]))?;
    }
    Ok(pixels)
}

/// The rows of `w` by `h` pixels in the other order: of rows from the bottom up those from the top.
pub fn turned_over(
    alloc: Global,
    pixels: &[u32],
    w: usize,
    h: usize,
) -> Result<Vec<u32>, OutOfMemory>
    requires { length pixels.now ≡ w * h }
    ensures value { IfOk result (λ rows. rows.items ≡ turned_over w h pixels.now) }
    ensures number { IfOk result (λ rows. length rows.items ≡ w * h) }
    ensures colors { IsTrue (are_colors pixels.now) → IfOk result (λ rows. IsTrue (are_colors rows.items)) }
{
    let mut out = Vec::with_capacity(alloc, pixels.len())?;
    let mut above = pixels;
    for y in 0..h {
        let (rest, row) = above.split_at(above.len() - w);
        out.extend_from_slice(row)?;
        above = rest;
    }
    Ok(out)
}
