//! Colours of a depth as colours of 24 bits.

ghost use Rattle.std.specs.Prelude.{◌≡◌, ◌<◌, ◌^◌};
ghost use Rattle.client_view.specs.Widened.{widened};

use px_core::{Depth, wide_color};

/// A colour of a depth as `65536 * red + 256 * green + blue`.
pub(crate) fn widened(color: u32, depth: Depth) -> u32
    requires { color < 2 ^ 24 }
    ensures { result ≡ widened depth color }
{
    match depth {
        Depth::Bits24 => color,
        Depth::Bits16 => wide_color(color),
    }
}
