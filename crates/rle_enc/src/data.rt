//! The bytes of pixels: packed where the viewer takes that and it is shorter, else the bytes of its depth for each, three or two.
//!
//! | depth | offset | size | field | value |
//! |---|---|---|---|---|
//! | 24 | 3 * k | 1 | blue | of pixel k, from the bottom row up |
//! | 24 | 3 * k + 1 | 1 | green | |
//! | 24 | 3 * k + 2 | 1 | red | |
//! | 16 | 2 * k | 2 | pixel | 2048 * red + 32 * green + blue, of 5, 6 and 5 bits |

ghost use Rattle.std.specs.Prelude.{◌≡◌, ◌≤◌, ◌*◌, ◌%◌, ◌++◌, [], length, OnOk, OnErr, IfOk, IsTrue, false};
ghost use Rattle.wire_num.specs.Written.{AppendsFront};
ghost use Rattle.px_core.specs.declared.depth.Depth.TheVariants.{Bits24, Bits16};
ghost use Rattle.px_core.specs.Depth.{bytes_in, shown_colors};
ghost use Rattle.px_core.specs.Pixels.{are_pixels, pixel_bytes, pixels_bytes};
ghost use Rattle.px_core.specs.Picture.{turned_over};
ghost use Rattle.run_lengths.specs.WirePixels.{data_of, pixel_data};
ghost use Rattle.rle_enc.specs.Packed.{data_with};

use crate::OutOfMemory;
use crate::bitmap::{Packed, pack_at};
use px_core::{Depth, bytes_in, cut_color};
use std::alloc::Global;
use std::marker::Model;

/// The bytes of pixels, and whether they are packed.
#[derive(Drop)]
pub struct PixelBytes {
    is_packed: bool,
    bytes: Vec<u8>,
}

impl Model for PixelBytes {
    ghost use Rattle.run_lengths.specs.WirePixels.{PixelData, pixel_data};

    ghost Value = { PixelData };

    ghost view = { λ d. pixel_data d.is_packed d.bytes.items };
}

impl PixelBytes {
    /// Whether the bytes are packed.
    pub fn is_packed(&self) -> bool
        ensures { result ≡ self.now.is_packed }
    {
        self.is_packed
    }

    /// The bytes.
    pub fn bytes(&self) -> &[u8]
        ensures { result.now ≡ self.now.bytes }
    {
        self.bytes.as_slice()
    }
}

/// Puts a pixel of 24 bits at the end: blue, green, red.
fn put_three(out: &mut Vec<u8>, pixel: u32) -> Result<(), OutOfMemory>
    ensures ok { OnOk result (out.new.items ≡ out.old.items ++ pixel_bytes Bits24 pixel) }
    ensures memory { OnErr result (AppendsFront out.old.items (pixel_bytes Bits24 pixel) out.new.items) }
{
    let [blue, green, red, _] = pixel.to_le_bytes();
    out.extend_from_slice(&[blue, green, red])?;
    Ok(())
}

/// Puts a pixel of 16 bits at the end, its lowest byte first.
fn put_two(out: &mut Vec<u8>, pixel: u32) -> Result<(), OutOfMemory>
    ensures ok { OnOk result (out.new.items ≡ out.old.items ++ pixel_bytes Bits16 pixel) }
    ensures memory { OnErr result (AppendsFront out.old.items (pixel_bytes Bits16 pixel) out.new.items) }
{
    let [low, high, _, _] = pixel.to_le_bytes();
    out.extend_from_slice(&[low, high])?;
    Ok(())
}

/// Puts a pixel of a depth at the end.
fn put_pixel(out: &mut Vec<u8>, pixel: u32, depth: Depth) -> Result<(), OutOfMemory>
    ensures ok { OnOk result (out.new.items ≡ out.old.items ++ pixel_bytes depth pixel) }
    ensures memory { OnErr result (AppendsFront out.old.items (pixel_bytes depth pixel) out.new.items) }
{
    match depth {
        Depth::Bits24 => put_three(out, pixel),
        Depth::Bits16 => put_two(out, pixel),
    }
}

/// Puts four pixels of 24 bits at the end.
fn put_four(out: &mut Vec<u8>, a: u32, b: u32, c: u32, d: u32) -> Result<(), OutOfMemory>
    ensures ok { OnOk result (out.new.items ≡ out.old.items ++ (pixel_bytes Bits24 a ++ pixel_bytes Bits24 b ++ pixel_bytes Bits24 c ++ pixel_bytes Bits24 d)) }
    ensures memory { OnErr result (AppendsFront out.old.items
        (pixel_bytes Bits24 a ++ pixel_bytes Bits24 b ++ pixel_bytes Bits24 c ++ pixel_bytes Bits24 d) out.new.items) }
{
    let [a_blue, a_green, a_red, _] = a.to_le_bytes();
    let [b_blue, b_green, b_red, _] = b.to_le_bytes();
    let [c_blue, c_green, c_red, _] = c.to_le_bytes();
    let [d_blue, d_green, d_red, _] = d.to_le_bytes();
    out.extend_from_slice(&[
        a_blue, a_green, a_red, b_blue, b_green, b_red, c_blue, c_green, c_red, d_blue, d_green,
        d_red,
    ])?;
    Ok(())
}

/// Puts pixels of a depth at the end, one by one. An `Err` leaves a front of them there.
fn put_each(out: &mut Vec<u8>, pixels: &[u32], depth: Depth) -> Result<(), OutOfMemory>
    ensures ok { OnOk result (out.new.items ≡ out.old.items ++ pixels_bytes depth pixels.now) }
    ensures memory { OnErr result (AppendsFront out.old.items (pixels_bytes depth pixels.now) out.new.items) }
{
    for pixel in pixels {
        put_pixel(out, *pixel, depth)?;
    }
    Ok(())
}

/// Puts pixels of 24 bits at the end; four at once while there are so many. An `Err` leaves a front of them there.
fn put_fours(out: &mut Vec<u8>, pixels: &[u32]) -> Result<(), OutOfMemory>
    ensures ok { OnOk result (out.new.items ≡ out.old.items ++ pixels_bytes Bits24 pixels.now) }
    ensures memory { OnErr result (AppendsFront out.old.items (pixels_bytes Bits24 pixels.now) out.new.items) }
{
    let mut rest = pixels;
    while let [a, b, c, d, others @ ..] = rest {
        put_four(out, *a, *b, *c, *d)?;
        rest = others;
    }
    put_each(out, rest, Depth::Bits24)
}

/// Puts pixels of a depth at the end. An `Err` leaves a front of them there.
fn put_pixels(out: &mut Vec<u8>, pixels: &[u32], depth: Depth) -> Result<(), OutOfMemory>
    ensures ok { OnOk result (out.new.items ≡ out.old.items ++ pixels_bytes depth pixels.now) }
    ensures memory { OnErr result (AppendsFront out.old.items (pixels_bytes depth pixels.now) out.new.items) }
{
    match depth {
        Depth::Bits24 => put_fours(out, pixels),
        Depth::Bits16 => put_each(out, pixels, Depth::Bits16),
    }
}

/// Puts colours at the end as they are shown at 16 bits, each cut as it is written. An `Err` leaves a front of them there.
fn put_cut(out: &mut Vec<u8>, colors: &[u32]) -> Result<(), OutOfMemory>
    ensures ok { OnOk result (out.new.items ≡ out.old.items ++ pixels_bytes Bits16 (shown_colors Bits16 colors.now)) }
    ensures memory { OnErr result (AppendsFront out.old.items (pixels_bytes Bits16 (shown_colors Bits16 colors.now)) out.new.items) }
{
    for color in colors {
        put_two(out, cut_color(*color))?;
    }
    Ok(())
}

/// Puts colours at the end as they are shown at a depth. An `Err` leaves a front of them there.
fn put_shown(out: &mut Vec<u8>, colors: &[u32], depth: Depth) -> Result<(), OutOfMemory>
    ensures ok { OnOk result (out.new.items ≡ out.old.items ++ pixels_bytes depth (shown_colors depth colors.now)) }
    ensures memory { OnErr result (AppendsFront out.old.items (pixels_bytes depth (shown_colors depth colors.now)) out.new.items) }
{
    match depth {
        Depth::Bits24 => put_fours(out, colors),
        Depth::Bits16 => put_cut(out, colors),
    }
}

/// Puts the rows of `w` by `h` colours at the end in the other order, of rows from the top those from the bottom up, as they are shown
/// at a depth. Takes no memory but for `out`. An `Err` leaves a front of them there.
pub fn put_turned(
    out: &mut Vec<u8>,
    colors: &[u32],
    w: usize,
    h: usize,
    depth: Depth,
) -> Result<(), OutOfMemory>
    requires { length colors.now ≡ w * h }
    ensures ok { OnOk result (out.new.items ≡ out.old.items ++ pixels_bytes depth (shown_colors depth (turned_over w h colors.now))) }
    ensures memory { OnErr result (AppendsFront out.old.items (pixels_bytes depth (shown_colors depth (turned_over w h colors.now))) out.new.items) }
{
    let mut above = colors;
    for y in 0..h {
        let (rest, row) = above.split_at(above.len() - w);
        put_shown(out, row, depth)?;
        above = rest;
    }
    Ok(())
}

/// The bytes of a depth for each pixel, three or two.
pub fn raw_bytes(alloc: Global, pixels: &[u32], depth: Depth) -> Result<Vec<u8>, OutOfMemory>
    ensures value { IfOk result (λ bytes. bytes.items ≡ pixels_bytes depth pixels.now) }
    ensures number { IfOk result (λ bytes. length bytes.items ≡ bytes_in depth * length pixels.now) }
{
    let mut out = Vec::with_capacity(alloc, pixels.len().saturating_mul(bytes_in(depth)))?;
    put_pixels(&mut out, pixels, depth)?;
    Ok(out)
}

/// The bytes of pixels as they are, not packed.
fn raw_data(alloc: Global, pixels: &[u32], depth: Depth) -> Result<PixelBytes, OutOfMemory>
    ensures value { IfOk result (λ data_. data_ ≡ pixel_data false (pixels_bytes depth pixels.now)) }
    ensures bound { IfOk result (λ data_. length data_.bytes ≤ 3 * length pixels.now) }
{
    let bytes = raw_bytes(alloc, pixels, depth)?;
    Ok(PixelBytes {
        is_packed: false,
        bytes,
    })
}

/// The packed bytes of a depth's pixels in rows of `w`, the bottom row first; `None` where they go as they are: exactly where the
/// viewer doesn't take packed bitmaps without a header, or that isn't shorter.
pub(crate) fn packed_pixels(
    alloc: Global,
    pixels: &[u32],
    w: usize,
    no_header: bool,
    depth: Depth,
) -> Result<Option<Vec<u8>>, OutOfMemory>
    requires wide { 1 ≤ w }
    requires rows { length pixels.now % w ≡ 0 }
    requires some { 1 ≤ length pixels.now }
    requires few { length pixels.now ≤ 4096 }
    requires pixels { IsTrue (are_pixels depth pixels.now) }
    ensures value { IfOk result (λ packed. data_with packed (pixels_bytes depth pixels.now) ≡ data_of depth no_header w pixels.now) }
    ensures bound { IfOk result (λ packed. length (data_with packed []).bytes ≤ 3 * length pixels.now) }
{
    if !no_header {
        return Ok(None);
    }
    match pack_at(alloc, pixels, w, depth)? {
        Packed::Packed(bytes) => Ok(Some(bytes)),
        Packed::Raw => Ok(None),
    }
}

/// The bytes of a depth's pixels in rows of `w`, the bottom row first: packed exactly where the viewer takes packed bitmaps without a
/// header and that is shorter than the pixels' own bytes.
pub fn pixel_data(
    alloc: Global,
    pixels: &[u32],
    w: usize,
    no_header: bool,
    depth: Depth,
) -> Result<PixelBytes, OutOfMemory>
    requires wide { 1 ≤ w }
    requires rows { length pixels.now % w ≡ 0 }
    requires some { 1 ≤ length pixels.now }
    requires few { length pixels.now ≤ 4096 }
    requires pixels { IsTrue (are_pixels depth pixels.now) }
    ensures value { IfOk result (λ data_. data_ ≡ data_of depth no_header w pixels.now) }
    ensures bound { IfOk result (λ data_. length data_.bytes ≤ 3 * length pixels.now) }
{
    match packed_pixels(alloc, pixels, w, no_header, depth)? {
        Some(bytes) => Ok(PixelBytes {
            is_packed: true,
            bytes,
        }),
        None => raw_data(alloc, pixels, depth),
    }
}
