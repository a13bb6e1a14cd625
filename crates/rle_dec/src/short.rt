//! Reads and draws the shortest orders at once, of which a stream has most: background runs, colour runs and colour images with their length in the code.
ghost use Rattle.std.specs.Prelude.{◌≡◌, ◌+◌, ◌-◌, ◌<◌, ◌≤◌, ◌∷◌, ◌++◌, IfNone, IfSome, length, replicate, take};
ghost use Rattle.run_lengths.specs.declared.strokes.Stroke.TheVariants.{Above};
ghost use Rattle.px_core.specs.declared.depth.Depth.TheVariants.{Bits24};
ghost use Rattle.rle_dec.specs.Drawing.{drawn_onto};
ghost use Rattle.rle_dec.specs.Steps.{IsFront, IsShortStep};

use crate::draw::{
    draw_above, draw_color, draw_image, draw_pixel, draw_three, draw_two, follows_run,
};
use crate::reads::{pixel, read_pixel, size_of};
use px_core::Depth;
use run_lengths::{Before, Stroke};

/// How many codes each kind of these orders has: the length stands in their low bits.
const LENGTHS: u8 = 32;

/// The kinds, by the high bits of their codes: from 00, 60 and 80 on.
const BACKGROUND_RUN: u8 = 0x00 / LENGTHS;

const COLOR_RUN: u8 = 0x60 / LENGTHS;

const COLOR_IMAGE: u8 = 0x80 / LENGTHS;

/// What an order leaves: how many pixels are drawn, and the bytes after it. No more stands here, so that no part of it is padding: a step
/// per order is made, and padding would be copied with it.
#[derive(Clone, Copy)]
pub struct Step<'a> {
    pub at: usize,
    pub rest: &'a [u8],
}

/// Draws the next order where it is one of the shortest; else nothing, also where it would be refused.
#[inline(always)]
pub fn draw_short<'a>(
    out: &mut [u32],
    at: usize,
    w: usize,
    before: &mut Before,
    stream: &'a [u8],
    depth: Depth,
) -> Option<Step<'a>>
    requires wide { 1 ≤ w }
    requires more { at < length out.old }
    ensures step { IfSome result (IsShortStep depth w at before.old out.old stream.now before.new out.new) }
    ensures none { IfNone result (out.new ≡ out.old) }
    ensures before { IfNone result (before.new ≡ before.old) }
{
    let [code, rest @ ..] = stream else {
        return None;
    };
    let n = usize::from(*code % LENGTHS);
    if n == 0 || n > out.len() - at {
        return None;
    }
    match *code / LENGTHS {
        BACKGROUND_RUN => draw_short_background(out, at, w, before, *code, n, rest),
        COLOR_RUN => draw_short_color(out, at, w, before, *code, n, rest, depth),
        COLOR_IMAGE => draw_short_image(out, at, w, before, *code, n, rest, depth),
        _ => None,
    }
}

/// The same of a background run with this code, of which `rest` are the bytes after it, past the first row and after no other.
#[inline(always)]
fn draw_short_background<'a>(
    out: &mut [u32],
    at: usize,
    w: usize,
    before: &mut Before,
    code: u8,
    n: usize,
    rest: &'a [u8],
) -> Option<Step<'a>>
    requires wide { 1 ≤ w }
    requires more { at < length out.old }
    requires room { at + n ≤ length out.old }
    requires code { (1 ≤ code) × (code ≤ 0x1F) }
    requires n { n ≡ code }
    ensures step { (depth : Depth) → IfSome result (IsShortStep depth w at before.old out.old (code ∷ rest.now) before.new out.new) }
    ensures none { IfNone result (out.new ≡ out.old) }
    ensures before { IfNone result (before.new ≡ before.old) }
{
    if at < w || follows_run(*before, false) {
        return None;
    }
    draw_few_above(out, at, w, n);
    *before = Before::LaterBackground;
    Some(Step { at: at + n, rest })
}

/// So many pixels as one row earlier, mostly one or two.
#[inline(always)]
fn draw_few_above(out: &mut [u32], at: usize, w: usize, n: usize)
    requires wide { 1 ≤ w }
    requires room { at + n ≤ length out.old }
    requires row { w ≤ at }
    ensures { take (at + n) out.new ≡ drawn_onto w (replicate n Above) (take at out.old) }
{
    match n {
        1 => draw_pixel(out, at, w, Stroke::Above),
        2 => {
            draw_pixel(out, at, w, Stroke::Above);
            draw_pixel(out, at + 1, w, Stroke::Above);
        }
        _ => draw_above(out, at, w, n),
    }
}

/// The same of a colour run.
#[inline(always)]
fn draw_short_color<'a>(
    out: &mut [u32],
    at: usize,
    w: usize,
    before: &mut Before,
    code: u8,
    n: usize,
    bytes: &'a [u8],
    depth: Depth,
) -> Option<Step<'a>>
    requires wide { 1 ≤ w }
    requires more { at < length out.old }
    requires room { at + n ≤ length out.old }
    requires code { (0x61 ≤ code) × (code ≤ 0x7F) }
    requires n { n ≡ code - 0x60 }
    ensures step { IfSome result (IsShortStep depth w at before.old out.old (code ∷ bytes.now) before.new out.new) }
    ensures none { IfNone result (out.new ≡ out.old) }
    ensures before { IfNone result (before.new ≡ before.old) }
{
    match read_pixel(bytes, depth) {
        Ok((color, rest)) => {
            draw_few(out, at, n, color);
            *before = Before::Other;
            Some(Step { at: at + n, rest })
        }
        Err(_) => None,
    }
}

/// So many pixels of one colour, mostly two.
#[inline(always)]
fn draw_few(out: &mut [u32], at: usize, n: usize, color: u32)
    requires { at + n ≤ length out.old }
    ensures { take (at + n) out.new ≡ take at out.old ++ replicate n color }
{
    if n == 2 {
        draw_two(out, at, color, color);
    } else {
        draw_color(out, at, n, color);
    }
}

/// The same of a colour image.
#[inline(always)]
fn draw_short_image<'a>(
    out: &mut [u32],
    at: usize,
    w: usize,
    before: &mut Before,
    code: u8,
    n: usize,
    bytes: &'a [u8],
    depth: Depth,
) -> Option<Step<'a>>
    requires wide { 1 ≤ w }
    requires more { at < length out.old }
    requires room { at + n ≤ length out.old }
    requires code { (0x81 ≤ code) × (code ≤ 0x9F) }
    requires n { n ≡ code - 0x80 }
    ensures step { IfSome result (IsShortStep depth w at before.old out.old (code ∷ bytes.now) before.new out.new) }
    ensures none { IfNone result (out.new ≡ out.old) }
    ensures before { IfNone result (before.new ≡ before.old) }
{
    match draw_front(out, at, n, bytes, depth) {
        Some(rest) => {
            *before = Before::Other;
            Some(Step { at: at + n, rest })
        }
        None => None,
    }
}

/// The first `n` pixels of bytes, and the bytes after them; nothing where there aren't so many.
#[inline(always)]
fn draw_front<'a>(
    out: &mut [u32],
    at: usize,
    n: usize,
    bytes: &'a [u8],
    depth: Depth,
) -> Option<&'a [u8]>
    requires few { n ≤ 31 }
    requires room { at + n ≤ length out.old }
    ensures drawn { IfSome result (λ rest. IsFront depth n at out.old bytes.now out.new rest.now) }
    ensures none { IfNone result (out.new ≡ out.old) }
{
    match depth {
        Depth::Bits24 => draw_wide_front(out, at, n, bytes),
        Depth::Bits16 => draw_front_image(out, at, n, bytes, depth),
    }
}

/// The same of pixels of 24 bits, mostly two or three.
#[inline(always)]
fn draw_wide_front<'a>(out: &mut [u32], at: usize, n: usize, bytes: &'a [u8]) -> Option<&'a [u8]>
    requires few { n ≤ 31 }
    requires room { at + n ≤ length out.old }
    ensures drawn { IfSome result (λ rest. IsFront Bits24 n at out.old bytes.now out.new rest.now) }
    ensures none { IfNone result (out.new ≡ out.old) }
{
    match n {
        2 => draw_front_two(out, at, bytes),
        3 => draw_front_three(out, at, bytes),
        _ => draw_front_image(out, at, n, bytes, Depth::Bits24),
    }
}

/// The same of two pixels.
#[inline(always)]
fn draw_front_two<'a>(out: &mut [u32], at: usize, bytes: &'a [u8]) -> Option<&'a [u8]>
    requires { at + 2 ≤ length out.old }
    ensures drawn { IfSome result (λ rest. IsFront Bits24 2 at out.old bytes.now out.new rest.now) }
    ensures none { IfNone result (out.new ≡ out.old) }
{
    match bytes {
        [b0, g0, r0, b1, g1, r1, rest @ ..] => {
            draw_two(out, at, pixel(*b0, *g0, *r0), pixel(*b1, *g1, *r1));
            Some(rest)
        }
        _ => None,
    }
}

/// The same of three pixels.
#[inline(always)]
fn draw_front_three<'a>(out: &mut [u32], at: usize, bytes: &'a [u8]) -> Option<&'a [u8]>
    requires { at + 3 ≤ length out.old }
    ensures drawn { IfSome result (λ rest. IsFront Bits24 3 at out.old bytes.now out.new rest.now) }
    ensures none { IfNone result (out.new ≡ out.old) }
{
    match bytes {
        [b0, g0, r0, b1, g1, r1, b2, g2, r2, rest @ ..] => {
            draw_three(
                out,
                at,
                pixel(*b0, *g0, *r0),
                pixel(*b1, *g1, *r1),
                pixel(*b2, *g2, *r2),
            );
            Some(rest)
        }
        _ => None,
    }
}

/// The same of any number of pixels.
fn draw_front_image<'a>(
    out: &mut [u32],
    at: usize,
    n: usize,
    bytes: &'a [u8],
    depth: Depth,
) -> Option<&'a [u8]>
    requires few { n ≤ 31 }
    requires room { at + n ≤ length out.old }
    ensures drawn { IfSome result (λ rest. IsFront depth n at out.old bytes.now out.new rest.now) }
    ensures none { IfNone result (out.new ≡ out.old) }
{
    match bytes.split_at_checked(size_of(n, depth)) {
        Some((image, rest)) => {
            draw_image(out, at, image, depth);
            Some(rest)
        }
        None => None,
    }
}
