//! Reads one order from the front of a stream.
ghost use Rattle.std.specs.Prelude.{◌≡◌, ◌≤◌, ◌∷◌, IfOk};
ghost use Rattle.run_lengths.specs.RunLength.{foreground_at, greatest_length, order_at, run_at};
ghost use Rattle.rle_dec.specs.Orders.{order_of, run_of};
ghost use Rattle.rle_dec.specs.Reads.{itself, option_of, read_of};

use crate::codes::find_row;
use crate::reads::{Read, read_bytes, read_length, read_pixel, size_of};
use px_core::Depth;
use run_lengths::RunKind;

/// The most pixels of a bitmap: 64 by 64.
pub const MOST_PIXELS: usize = 4096;

/// What an order of a length draws.
#[derive(Clone, Copy)]
pub enum Run<'a> {
    Background,
    Foreground,
    /// A pixel for each bit, from the lowest bit of the first byte on.
    Mask(&'a [u8]),
    /// A pixel for each bit of one byte, from the lowest on.
    Bits(u8),
    Color(u32),
    /// The bytes of the pixels.
    Image(&'a [u8]),
    Dithered(u32, u32),
}

/// An order: the foreground that it sets, if it does, its length, and what it draws.
#[derive(Clone, Copy)]
pub struct Order<'a> {
    pub foreground: Option<u32>,
    pub length: usize,
    pub run: Run<'a>,
}

/// The next order of a stream, where `left` pixels are left.
pub fn read_order(stream: &[u8], left: usize, depth: Depth) -> Read<'_, Order<'_>>
    requires { left ≤ MOST_PIXELS }
    ensures is { read_of (order_of depth) result ≡ order_at depth left stream.now }
    ensures most { IfOk result (λ v. v.0.length ≤ left) }
{
    match stream {
        [code, rest @ ..] => read_in_table(*code, left, stream, rest, depth),
        [] => Err(stream),
    }
}

/// An order of any code; `stream` begins with it, `rest` after it.
fn read_in_table<'a>(
    code: u8,
    left: usize,
    stream: &'a [u8],
    rest: &'a [u8],
    depth: Depth,
) -> Read<'a, Order<'a>>
    requires left { left ≤ MOST_PIXELS }
    requires code { stream.now ≡ code ∷ rest.now }
    ensures is { read_of (order_of depth) result ≡ order_at depth left stream.now }
    ensures most { IfOk result (λ v. v.0.length ≤ left) }
{
    let Some(row) = find_row(code, depth) else {
        return Err(stream);
    };
    let greatest = longest(row.kind, left);
    let (length, rest) = read_length(row.length, code - row.first, greatest, stream, rest)?;
    let (foreground, rest) = read_foreground(row.sets_foreground, rest, depth)?;
    let (run, rest) = read_run(row.kind, length, rest, depth)?;
    Ok((
        Order {
            foreground,
            length,
            run,
        },
        rest,
    ))
}

/// The greatest length of an order where `left` pixels are left.
fn longest(kind: RunKind, left: usize) -> usize
    ensures is { result ≡ greatest_length kind left }
    ensures within { result ≤ left }
{
    match kind {
        RunKind::DitheredRun => left / 2,
        _ => left,
    }
}

/// The foreground that an order sets.
fn read_foreground(sets: bool, stream: &[u8], depth: Depth) -> Read<'_, Option<u32>>
    ensures { read_of option_of result ≡ foreground_at depth sets stream.now }
{
    if !sets {
        return Ok((None, stream));
    }
    let (foreground, rest) = read_pixel(stream, depth)?;
    Ok((Some(foreground), rest))
}

/// What an order of a kind and a length draws.
fn read_run(kind: RunKind, length: usize, stream: &[u8], depth: Depth) -> Read<'_, Run<'_>>
    requires { length ≤ MOST_PIXELS }
    ensures { read_of (run_of depth length) result ≡ run_at depth kind length stream.now }
{
    match kind {
        RunKind::BackgroundRun => Ok((Run::Background, stream)),
        RunKind::ForegroundRun => Ok((Run::Foreground, stream)),
        RunKind::MaskImage => {
            let (mask, rest) = read_bytes(stream, (length + 7) / 8)?;
            Ok((Run::Mask(mask), rest))
        }
        RunKind::ColorRun => {
            let (color, rest) = read_pixel(stream, depth)?;
            Ok((Run::Color(color), rest))
        }
        RunKind::ColorImage => {
            let (image, rest) = read_bytes(stream, size_of(length, depth))?;
            Ok((Run::Image(image), rest))
        }
        RunKind::DitheredRun => {
            let (first, rest) = read_pixel(stream, depth)?;
            let (second, rest) = read_pixel(rest, depth)?;
            Ok((Run::Dithered(first, second), rest))
        }
        RunKind::FixedMask(bits) => Ok((Run::Bits(bits), stream)),
        RunKind::FixedColor(color) => Ok((Run::Color(color), stream)),
    }
}
