//! Draws runs of pixels after the first `at` of a bitmap, which are drawn ([MS-RDPBCGR] 3.1.9).
ghost use Rattle.std.specs.Prelude.{◌≡◌, ◌+◌, ◌*◌, ◌<◌, ◌≤◌, [], ◌∷◌, ◌++◌, length, replicate, take};
ghost use Rattle.px_core.specs.declared.depth.Depth.TheVariants.{Bits24, Bits16};
ghost use Rattle.px_core.specs.Pixels.{pixels_of};
ghost use Rattle.run_lengths.specs.RunLength.{background_stroke, bits_of, dithered_strokes, follows_background, foreground_stroke, mask_bits};
ghost use Rattle.rle_dec.specs.Drawing.{drawn_onto, masked, pixels_before};

use crate::copies::copy_back;
use crate::reads::{narrow_pixel, pixel};
use px_core::Depth;
use run_lengths::{Before, Stroke};

/// The bits of a byte.
const BITS: usize = 8;

/// How background is drawn by an order that begins in the first row or later.
pub fn background_pixel(first: bool) -> Stroke
    ensures { result ≡ background_stroke first }
{
    if first {
        Stroke::Plain(0)
    } else {
        Stroke::Above
    }
}

/// How foreground is drawn by an order that begins in the first row or later.
pub fn foreground_pixel(first: bool, foreground: u32) -> Stroke
    ensures { result ≡ foreground_stroke first foreground }
{
    if first {
        Stroke::Plain(foreground)
    } else {
        Stroke::Crossed(foreground)
    }
}

/// Whether a background run there begins with a foreground pixel (profile: not at or past the end of the first row after one that begins in it).
pub fn follows_run(before: Before, first: bool) -> bool
    ensures { result ≡ follows_background before first }
{
    match before {
        Before::Other => false,
        Before::FirstRowBackground => first,
        Before::LaterBackground => true,
    }
}

/// One pixel.
pub fn draw_pixel(out: &mut [u32], at: usize, w: usize, stroke: Stroke)
    requires wide { 1 ≤ w }
    requires room { at < length out.old }
    requires row { pixels_before w stroke ≤ at }
    ensures { take (at + 1) out.new ≡ drawn_onto w (stroke ∷ []) (take at out.old) }
{
    out[at] = match stroke {
        Stroke::Plain(color) => color,
        Stroke::Above => out[at - w],
        Stroke::Crossed(foreground) => foreground ^ out[at - w],
    };
}

/// So many pixels of one colour.
pub fn draw_color(out: &mut [u32], at: usize, n: usize, color: u32)
    requires { at + n ≤ length out.old }
    ensures { take (at + n) out.new ≡ take at out.old ++ replicate n color }
{
    out[at..at + n].fill(color);
}

/// Two pixels.
pub fn draw_two(out: &mut [u32], at: usize, first: u32, second: u32)
    requires { at + 2 ≤ length out.old }
    ensures { take (at + 2) out.new ≡ take at out.old ++ first ∷ second ∷ [] }
{
    out[at] = first;
    out[at + 1] = second;
}

/// Three pixels.
pub fn draw_three(out: &mut [u32], at: usize, first: u32, second: u32, third: u32)
    requires { at + 3 ≤ length out.old }
    ensures { take (at + 3) out.new ≡ take at out.old ++ first ∷ second ∷ third ∷ [] }
{
    out[at] = first;
    out[at + 1] = second;
    out[at + 2] = third;
}

/// Four pixels.
fn draw_four(out: &mut [u32], at: usize, first: u32, second: u32, third: u32, fourth: u32)
    requires { at + 4 ≤ length out.old }
    ensures { take (at + 4) out.new ≡ take at out.old ++ first ∷ second ∷ third ∷ fourth ∷ [] }
{
    out[at] = first;
    out[at + 1] = second;
    out[at + 2] = third;
    out[at + 3] = fourth;
}

/// These pixels.
fn draw_colors(out: &mut [u32], at: usize, colors: &[u32])
    requires { at + length colors.now ≤ length out.old }
    ensures { take (at + length colors.now) out.new ≡ take at out.old ++ colors.now }
{
    out[at..at + colors.len()].copy_from_slice(colors);
}

/// So many pixels as one row earlier, at most a row at once.
pub fn draw_above(out: &mut [u32], at: usize, w: usize, n: usize)
    requires wide { 1 ≤ w }
    requires room { at + n ≤ length out.old }
    requires row { w ≤ at }
    ensures { take (at + n) out.new ≡ drawn_onto w (replicate n Stroke.Above) (take at out.old) }
{
    let mut next = at;
    let mut left = n;
    while left > 0 {
        let step = left.min(w);
        copy_back(out, next, next - w, step);
        next += step;
        left -= step;
    }
}

/// So many pixels as one row earlier exclusive-or a foreground.
fn draw_crossed(out: &mut [u32], at: usize, w: usize, n: usize, foreground: u32)
    requires wide { 1 ≤ w }
    requires room { at + n ≤ length out.old }
    requires row { w ≤ at }
    ensures { take (at + n) out.new ≡ drawn_onto w (replicate n (Stroke.Crossed foreground)) (take at out.old) }
{
    for k in 0..n {
        out[at + k] = foreground ^ out[at + k - w];
    }
}

/// So many pixels of one stroke.
#[tactic(auto, using(crate::proofs::Drawn::drawn_onto_color))]
pub fn draw_run(out: &mut [u32], at: usize, w: usize, stroke: Stroke, n: usize)
    requires wide { 1 ≤ w }
    requires room { at + n ≤ length out.old }
    requires row { pixels_before w stroke ≤ at }
    ensures { take (at + n) out.new ≡ drawn_onto w (replicate n stroke) (take at out.old) }
{
    match stroke {
        Stroke::Plain(color) => draw_color(out, at, n, color),
        Stroke::Above => draw_above(out, at, w, n),
        Stroke::Crossed(foreground) => draw_crossed(out, at, w, n, foreground),
    }
}

/// So many pixels by the bits of a byte, from the lowest on.
pub fn draw_bits(
    out: &mut [u32],
    at: usize,
    w: usize,
    back: Stroke,
    fore: Stroke,
    n: usize,
    byte: u8,
)
    requires wide { 1 ≤ w }
    requires room { at + n ≤ length out.old }
    requires back_row { pixels_before w back ≤ at }
    requires fore_row { pixels_before w fore ≤ at }
    ensures { take (at + n) out.new ≡ drawn_onto w (masked back fore (bits_of n byte)) (take at out.old) }
{
    let mut bits = byte;
    for k in 0..n {
        let stroke = if bits % 2 == 1 { fore } else { back };
        draw_pixel(out, at + k, w, stroke);
        bits /= 2;
    }
}

/// So many pixels by the bits of bytes; how many pixels are drawn then.
#[tactic(auto, using(crate::proofs::Drawn::mask_end))]
pub fn draw_mask(
    out: &mut [u32],
    at: usize,
    w: usize,
    back: Stroke,
    fore: Stroke,
    n: usize,
    mask: &[u8],
) -> usize
    requires wide { 1 ≤ w }
    requires room { at + n ≤ length out.old }
    requires back_row { pixels_before w back ≤ at }
    requires fore_row { pixels_before w fore ≤ at }
    ensures drawn { take result out.new ≡ drawn_onto w (masked back fore (mask_bits n mask.now)) (take at out.old) }
    ensures within { result ≤ length out.old }
{
    let mut next = at;
    let mut left = n;
    for byte in mask {
        let step = left.min(BITS);
        draw_bits(out, next, w, back, fore, step, *byte);
        next += step;
        left -= step;
    }
    next
}

/// The pixels of bytes; how many pixels are drawn then.
pub fn draw_image(out: &mut [u32], at: usize, image: &[u8], depth: Depth) -> usize
    requires { at + length (pixels_of depth image.now) ≤ length out.old }
    ensures drawn { take result out.new ≡ take at out.old ++ pixels_of depth image.now }
    ensures within { result ≤ length out.old }
{
    match depth {
        Depth::Bits24 => draw_wide_image(out, at, image),
        Depth::Bits16 => draw_narrow_image(out, at, image),
    }
}

/// The pixels of 24 bits of bytes, four pixels at once while there are so many; how many pixels are drawn then.
fn draw_wide_image(out: &mut [u32], at: usize, image: &[u8]) -> usize
    requires { at + length (pixels_of Bits24 image.now) ≤ length out.old }
    ensures drawn { take result out.new ≡ take at out.old ++ pixels_of Bits24 image.now }
    ensures within { result ≤ length out.old }
{
    let mut next = at;
    let mut bytes = image;
    while let [b0, g0, r0, b1, g1, r1, b2, g2, r2, b3, g3, r3, rest @ ..] = bytes {
        draw_four(
            out,
            next,
            pixel(*b0, *g0, *r0),
            pixel(*b1, *g1, *r1),
            pixel(*b2, *g2, *r2),
            pixel(*b3, *g3, *r3),
        );
        next += 4;
        bytes = rest;
    }
    draw_pixels(out, next, bytes)
}

/// The pixels of 24 bits of bytes, one by one; how many pixels are drawn then.
fn draw_pixels(out: &mut [u32], at: usize, image: &[u8]) -> usize
    requires { at + length (pixels_of Bits24 image.now) ≤ length out.old }
    ensures drawn { take result out.new ≡ take at out.old ++ pixels_of Bits24 image.now }
    ensures within { result ≤ length out.old }
{
    let mut next = at;
    let mut bytes = image;
    while let [blue, green, red, rest @ ..] = bytes {
        out[next] = pixel(*blue, *green, *red);
        next += 1;
        bytes = rest;
    }
    next
}

/// The pixels of 16 bits of bytes, one by one; how many pixels are drawn then.
fn draw_narrow_image(out: &mut [u32], at: usize, image: &[u8]) -> usize
    requires { at + length (pixels_of Bits16 image.now) ≤ length out.old }
    ensures drawn { take result out.new ≡ take at out.old ++ pixels_of Bits16 image.now }
    ensures within { result ≤ length out.old }
{
    let mut next = at;
    let mut bytes = image;
    while let [low, high, rest @ ..] = bytes {
        out[next] = narrow_pixel(*low, *high);
        next += 1;
        bytes = rest;
    }
    next
}

/// Two pixels in turn, so many times.
pub fn draw_dithered(out: &mut [u32], at: usize, w: usize, n: usize, first: u32, second: u32)
    requires { at + 2 * n ≤ length out.old }
    ensures { take (at + 2 * n) out.new ≡ drawn_onto w (dithered_strokes n first second) (take at out.old) }
{
    let mut next = at;
    for _ in 0..n {
        draw_colors(out, next, &[first, second]);
        next += 2;
    }
}
