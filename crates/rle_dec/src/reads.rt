//! Reads the fields of orders from the front of a stream. A refusal carries the bytes from the refused field on.
ghost use Rattle.std.specs.Prelude.{◌≡◌, ◌≤◌, ◌*◌, [], ◌∷◌, IfOk};
ghost use Rattle.wire_num.specs.Number.{little_at, little_value};
ghost use Rattle.wire_num.specs.Field.{bytes_at};
ghost use Rattle.px_core.specs.Depth.{bytes_in};
ghost use Rattle.run_lengths.specs.RunLength.{length_if, length_at};
ghost use Rattle.rle_dec.specs.Reads.{read_of, itself, list_of};

use px_core::{Depth, bytes_in};
use run_lengths::Length;

/// A value and the bytes after it, or the bytes from the refused field on.
pub type Read<'a, T> = Result<(T, &'a [u8]), &'a [u8]>;

/// A field of `n` bytes.
pub fn read_bytes(stream: &[u8], n: usize) -> Read<'_, &[u8]>
    ensures { read_of list_of result ≡ bytes_at n stream.now }
{
    match stream.split_at_checked(n) {
        Some((field, rest)) => Ok((field, rest)),
        None => Err(stream),
    }
}

/// A number of one byte.
pub fn read_byte(stream: &[u8]) -> Read<'_, u8>
    ensures { read_of itself result ≡ little_at 1 stream.now }
{
    match stream {
        [low, rest @ ..] => Ok((*low, rest)),
        [] => Err(stream),
    }
}

/// A number of two bytes, the low one first.
pub fn read_two_bytes(stream: &[u8]) -> Read<'_, u16>
    ensures { read_of itself result ≡ little_at 2 stream.now }
{
    match stream {
        [low, high, rest @ ..] => Ok((u16::from(*low) + 256 * u16::from(*high), rest)),
        _ => Err(stream),
    }
}

/// A pixel.
pub fn read_pixel(stream: &[u8], depth: Depth) -> Read<'_, u32>
    ensures { read_of itself result ≡ little_at (bytes_in depth) stream.now }
{
    match depth {
        Depth::Bits24 => read_wide_pixel(stream),
        Depth::Bits16 => read_narrow_pixel(stream),
    }
}

/// A pixel of 24 bits: blue, green, red.
fn read_wide_pixel(stream: &[u8]) -> Read<'_, u32>
    ensures { read_of itself result ≡ little_at 3 stream.now }
{
    match stream {
        [blue, green, red, rest @ ..] => Ok((pixel(*blue, *green, *red), rest)),
        _ => Err(stream),
    }
}

/// A pixel of 16 bits, the low byte first.
fn read_narrow_pixel(stream: &[u8]) -> Read<'_, u32>
    ensures { read_of itself result ≡ little_at 2 stream.now }
{
    match stream {
        [low, high, rest @ ..] => Ok((narrow_pixel(*low, *high), rest)),
        _ => Err(stream),
    }
}

/// The number of a pixel of 24 bits.
pub fn pixel(blue: u8, green: u8, red: u8) -> u32
    ensures { result ≡ little_value (blue ∷ green ∷ red ∷ []) }
{
    u32::from(blue) + 256 * (u32::from(green) + 256 * u32::from(red))
}

/// The number of a pixel of 16 bits.
pub fn narrow_pixel(low: u8, high: u8) -> u32
    ensures { result ≡ little_value (low ∷ high ∷ []) }
{
    u32::from(low) + 256 * u32::from(high)
}

/// How many bytes so many pixels have.
pub fn size_of(pixels: usize, depth: Depth) -> usize
    requires { pixels ≤ 4096 }
    ensures { result ≡ bytes_in depth * pixels }
{
    bytes_in(depth) * pixels
}

/// A length that stands in the code's low bits or after the code; `stream` begins with the code, `rest` after it.
pub fn read_length<'a>(
    length: Length,
    low: u8,
    greatest: usize,
    stream: &'a [u8],
    rest: &'a [u8],
) -> Read<'a, usize>
    ensures is { read_of itself result ≡ length_at length low greatest stream.now rest.now }
    ensures most { IfOk result (λ v. v.0 ≤ greatest) }
{
    match length {
        Length::InCode(_, more) if low == 0 => {
            let (n, after) = read_byte(rest)?;
            checked_length(usize::from(n) + usize::from(more), greatest, after, rest)
        }
        Length::InCode(scale, _) => {
            checked_length(
                usize::from(scale) * usize::from(low),
                greatest,
                rest,
                stream,
            )
        }
        Length::TwoBytes => {
            let (n, after) = read_two_bytes(rest)?;
            checked_length(usize::from(n), greatest, after, rest)
        }
        Length::Fixed(n) => checked_length(usize::from(n), greatest, rest, stream),
    }
}

/// A length from 1 to the greatest, else a refusal of its field.
fn checked_length<'a>(n: usize, greatest: usize, rest: &'a [u8], field: &'a [u8]) -> Read<'a, usize>
    ensures is { read_of itself result ≡ length_if greatest n rest.now field.now }
    ensures most { IfOk result (λ v. v.0 ≤ greatest) }
{
    if 0 < n && n <= greatest {
        Ok((n, rest))
    } else {
        Err(field)
    }
}
