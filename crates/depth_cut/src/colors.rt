//! Colours of 24 bits, 65536 * red + 256 * green + blue, and of 16, 2048 * red + 32 * green + blue, of 5, 6 and 5 bits.

ghost use Rattle.std.specs.Prelude.{◌≡◌, ◌<◌, ◌^◌};
ghost use Rattle.px_core.specs.Depth.{cut_color, wide_color};
ghost use Rattle.order_fields.specs.NamedDrawing.{wire_color};

use px_core::{Depth, cut_color, wide_color};

/// A colour of 24 bits cut to 16: the highest five bits of red, six of green and five of blue.
#[inline(always)]
pub fn cut(c: u32) -> u32
    ensures is { result ≡ cut_color c }
    ensures bound { result < 2 ^ 24 }
    ensures below { c < 2 ^ 24 → result < 2 ^ 16 }
{
    cut_color(c)
}

/// A colour of 16 bits in 24; the bits that it doesn't have are 0.
#[inline(always)]
pub fn wide(v: u32) -> u32
    requires { v < 2 ^ 24 }
    ensures { result ≡ wide_color v }
{
    wide_color(v)
}

/// A colour of 24 bits as it stands in a field's three bytes, the first one highest: red, green and blue, or at 16 bits the pixel's low
/// byte, its high byte and 0.
#[inline(always)]
pub fn wire_color(c: u32, depth: Depth) -> u32
    ensures { result ≡ wire_color depth c }
{
    match depth {
        Depth::Bits24 => c,
        Depth::Bits16 => {
            let pixel = cut(c);
            65536 * (pixel % 256) + 256 * (pixel / 256)
        }
    }
}
