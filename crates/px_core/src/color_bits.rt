//! Colours of 24 bits, 65536 * red + 256 * green + blue, and of 16, 2048 * red + 32 * green + blue, of 5, 6 and 5 bits.

ghost use Rattle.std.specs.Prelude.{◌≡◌, ◌<◌, ◌^◌};
ghost use Rattle.px_core.specs.Depth.{cut_color, wide_color};

/// A colour of 24 bits cut to 16: the highest five bits of red, six of green and five of blue.
#[tactic(auto, unfolding(crate::specs::Depth::cut_color))]
#[inline(always)]
pub fn cut_color(color: u32) -> u32
    ensures is { result ≡ cut_color color }
    ensures bound { result < 2 ^ 24 }
    ensures below { color < 2 ^ 24 → result < 2 ^ 16 }
{
    2048 * (color / 65536 / 8) + 32 * (color / 256 % 256 / 4) + color % 256 / 8
}

/// A colour of 16 bits in 24; the bits that it doesn't have are 0.
#[tactic(auto, unfolding(crate::specs::Depth::wide_color))]
#[inline(always)]
pub fn wide_color(color: u32) -> u32
    requires { color < 2 ^ 24 }
    ensures { result ≡ wide_color color }
{
    65536 * (8 * (color / 2048)) + 256 * (4 * (color / 32 % 64)) + 8 * (color % 32)
}
