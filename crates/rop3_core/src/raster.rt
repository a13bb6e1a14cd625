//! The raster operation of one pixel.

ghost use Rattle.std.specs.Prelude.{◌≡◌};
ghost use Rattle.rop3_core.specs.Rop3.{ternary_raster};

use crate::masks::Masks;

/// The colour that the operation of this code makes of pattern, source and destination.
///
/// Bit k is bit `4p + 2s + d` of the code, of the bits k of the three; bits from 24 on are dropped.
pub fn rop3(code: u8, p: u32, s: u32, d: u32) -> u32
    ensures { result ≡ ternary_raster code p s d }
{
    Masks::new(code).mixed(p, s, d)
}
