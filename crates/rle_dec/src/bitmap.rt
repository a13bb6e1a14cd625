//! The pixels of a run-length stream, the bottom row first ([MS-RDPBCGR] 3.1.9).
ghost use Rattle.std.specs.Prelude.{◌≡◌, ◌+◌, ◌<◌, ◌≤◌, IfErr, IfOk, IsFalse, Ok, Err, OnOk, length, take};
ghost use Rattle.px_core.specs.declared.depth.Depth.TheVariants.{Bits24};
ghost use Rattle.run_lengths.specs.RunLength.{Decompresses, background_stroke, before_next, follows_background, foreground_stroke, run_size};
ghost use Rattle.run_lengths.specs.RunLength.{run_strokes, unrle};
ghost use Rattle.run_lengths.specs.RunLength.Run.{Background};
ghost use Rattle.rle_dec.specs.Drawing.{drawn_onto, drawn_whole, pixels_before};
ghost use Rattle.rle_dec.specs.Faults.{RefusesAt};
ghost use Rattle.rle_dec.specs.Orders.{run_of};
ghost use Rattle.rle_dec.specs.Steps.{IsRefused, IsStep};

use crate::draw::{
    background_pixel, draw_bits, draw_color, draw_dithered, draw_image, draw_mask, draw_pixel,
    draw_run, follows_run, foreground_pixel,
};
use crate::fault::RleFault;
use crate::orders::{MOST_PIXELS, Order, Run, read_order};
use crate::short::{Step, draw_short};
use px_core::{Depth, white};
use run_lengths::{Before, Stroke};
use std::alloc::Global;

/// The pixels of a stream in rows of `w`, the bottom row first, each as 65536 * red + 256 * green + blue. Takes memory once, for its
/// result, before it reads the first order.
pub fn unpack(alloc: Global, bytes: &[u8], w: usize, h: usize) -> Result<Vec<u32>, RleFault>
    requires width { (1 ≤ w) × (w ≤ 64) }
    requires height { (1 ≤ h) × (h ≤ 64) }
    ensures ok { IfOk result (λ pixels. unrle Bits24 bytes.now w h ≡ Ok pixels.items) }
    ensures drawn { IfOk result (λ pixels. Decompresses Bits24 bytes.now w h pixels.items) }
    ensures refused { IfErr result (RefusesAt Bits24 bytes.now w h) }
{
    unpack_at(alloc, bytes, w, h, Depth::Bits24)
}

/// The pixels of a depth of a stream in rows of `w`, the bottom row first, each in as many bits as the depth has. Takes memory once, for its
/// result, before it reads the first order.
pub fn unpack_at(
    alloc: Global,
    bytes: &[u8],
    w: usize,
    h: usize,
    depth: Depth,
) -> Result<Vec<u32>, RleFault>
    requires width { (1 ≤ w) × (w ≤ 64) }
    requires height { (1 ≤ h) × (h ≤ 64) }
    ensures ok { IfOk result (λ pixels. unrle depth bytes.now w h ≡ Ok pixels.items) }
    ensures drawn { IfOk result (λ pixels. Decompresses depth bytes.now w h pixels.items) }
    ensures refused { IfErr result (RefusesAt depth bytes.now w h) }
{
    // Each pixel is drawn over, so their first colour says nothing.
    let mut out = vec![in alloc; white(depth); w * h]?;
    match draw_stream(out.as_mut_slice(), w, bytes, depth) {
        Ok(()) => Ok(out),
        Err(refused) => Err(RleFault::BadRle {
            at: bytes.len() - refused.len(),
        }),
    }
}

/// Draws a whole stream; a refusal has the bytes from the refused field on.
fn draw_stream<'a>(out: &mut [u32], w: usize, bytes: &'a [u8], depth: Depth) -> Result<(), &'a [u8]>
    requires wide { 1 ≤ w }
    requires most { length out.old ≤ MOST_PIXELS }
    ensures ok { OnOk result (Ok out.new ≡ drawn_whole depth w (length out.old) bytes.now) }
    ensures refused { IfErr result (λ refused. Err refused.now ≡ drawn_whole depth w (length out.old) bytes.now) }
    ensures place { IfErr result (λ refused. length refused.now ≤ length bytes.now) }
{
    let mut at = 0;
    let mut stream = bytes;
    let mut foreground = white(depth);
    let mut before = Before::Other;
    while at < out.len() {
        match draw_short(out, at, w, &mut before, stream, depth) {
            Some(step) => {
                at = step.at;
                stream = step.rest;
            }
            None => match draw_any(out, at, w, &mut before, &mut foreground, stream, depth) {
                Ok(step) => {
                    at = step.at;
                    stream = step.rest;
                }
                Err(refused) => return Err(refused),
            },
        }
    }
    if stream.is_empty() {
        Ok(())
    } else {
        Err(stream)
    }
}

/// Draws the next order, of any code; a refusal has the bytes from the refused field on.
#[inline(never)]
fn draw_any<'a>(
    out: &mut [u32],
    at: usize,
    w: usize,
    before: &mut Before,
    foreground: &mut u32,
    stream: &'a [u8],
    depth: Depth,
) -> Result<Step<'a>, &'a [u8]>
    requires wide { 1 ≤ w }
    requires more { at < length out.old }
    requires most { length out.old ≤ MOST_PIXELS }
    ensures step { IfOk result (IsStep depth w at foreground.old before.old out.old stream.now foreground.new before.new out.new) }
    ensures refused { IfErr result (λ refused. IsRefused depth w at foreground.old before.old out.old stream.now refused.now) }
{
    let first = at < w;
    match read_order(stream, out.len() - at, depth) {
        Ok((order, rest)) => {
            *foreground = order.foreground.unwrap_or(*foreground);
            let end = draw_order(out, at, w, first, *before, *foreground, &order, depth);
            *before = before_after(&order, first);
            Ok(Step { at: end, rest })
        }
        Err(refused) => Err(refused),
    }
}

/// What stands before the order after this one.
fn before_after(order: &Order<'_>, first: bool) -> Before
    ensures { (depth : Depth) → result ≡ before_next (run_of depth order.now.length order.now.run) first }
{
    match order.run {
        Run::Background if first => Before::FirstRowBackground,
        Run::Background => Before::LaterBackground,
        _ => Before::Other,
    }
}

/// What an order draws that begins in the first row or later, by what stands before it and the foreground; how many pixels are drawn then.
#[tactic(auto, using(crate::proofs::Drawn::drawn_onto_color, crate::proofs::Drawn::drawn_onto_plain))]
fn draw_order(
    out: &mut [u32],
    at: usize,
    w: usize,
    first: bool,
    before: Before,
    foreground: u32,
    order: &Order<'_>,
    depth: Depth,
) -> usize
    requires wide { 1 ≤ w }
    requires room { at + order.now.length ≤ length out.old }
    requires size { at + run_size (run_of depth order.now.length order.now.run) ≤ length out.old }
    requires row { IsFalse first → w ≤ at }
    ensures drawn { take result out.new ≡ drawn_onto w (run_strokes (run_of depth order.now.length order.now.run) (follows_background before first)
        (background_stroke first) (foreground_stroke first foreground)) (take at out.old) }
    ensures within { result ≤ length out.old }
{
    let n = order.length;
    match order.run {
        Run::Color(color) => {
            draw_color(out, at, n, color);
            at + n
        }
        Run::Image(image) => draw_image(out, at, image, depth),
        Run::Dithered(first, second) => {
            draw_dithered(out, at, w, n, first, second);
            at + 2 * n
        }
        Run::Background => {
            let back = background_pixel(first);
            let fore = foreground_pixel(first, foreground);
            draw_background(out, at, w, follows_run(before, first), back, fore, n);
            at + n
        }
        Run::Foreground => {
            draw_run(out, at, w, foreground_pixel(first, foreground), n);
            at + n
        }
        Run::Mask(mask) => {
            let back = background_pixel(first);
            let fore = foreground_pixel(first, foreground);
            draw_mask(out, at, w, back, fore, n, mask)
        }
        Run::Bits(bits) => {
            let back = background_pixel(first);
            let fore = foreground_pixel(first, foreground);
            draw_bits(out, at, w, back, fore, n, bits);
            at + n
        }
    }
}

/// So many pixels of background, the first one of foreground where it follows background.
fn draw_background(
    out: &mut [u32],
    at: usize,
    w: usize,
    follows: bool,
    back: Stroke,
    fore: Stroke,
    n: usize,
)
    requires wide { 1 ≤ w }
    requires room { at + n ≤ length out.old }
    requires back_row { pixels_before w back ≤ at }
    requires fore_row { pixels_before w fore ≤ at }
    ensures { take (at + n) out.new ≡ drawn_onto w (run_strokes (Background n) follows back fore) (take at out.old) }
{
    if follows && n > 0 {
        draw_pixel(out, at, w, fore);
        draw_run(out, at + 1, w, back, n - 1);
    } else {
        draw_run(out, at, w, back, n);
    }
}
