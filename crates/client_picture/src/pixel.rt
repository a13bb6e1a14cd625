//! The raster operation of one pixel that may be unknown.
ghost use Rattle.std.specs.Prelude.{◌≡◌, Some};
ghost use Rattle.draw_ops.specs.Depths.{raster_at, maybe_raster_at};
ghost use Rattle.client_picture.specs.Sources.{copied};

use crate::{Color, Pixel};
use px_core::Depth;
use rop3_core::{needs_destination, needs_source, rop3};

/// The code that copies its source: SRCCOPY.
pub(crate) const SOURCE_COPY: u8 = 0xCC;

/// Colours of 16 bits are below this.
const COLORS_16: u32 = 0x1_0000;

/// What a copy makes at 24 bits of a source that may be unknown: the source, since a colour has no bits that a copy drops.
#[inline(always)]
pub(crate) fn copied(source: Pixel) -> Pixel
    ensures { result ≡ copied source }
{
    let _color = source.color();
    source
}

/// What a copy makes at 24 bits of a known source.
#[inline(always)]
pub(crate) fn copied_color(source: u32) -> Pixel
    ensures { result ≡ copied (Some source) }
{
    Pixel::known(Color::low(source))
}

/// What the operation of this code on as many bits as the depth has makes of a known pattern and a source and a destination that may be unknown: unknown where
/// the code depends on
/// an operand that is unknown.
#[inline(always)]
pub(crate) fn mixed(depth: Depth, rop: u8, pattern: u32, source: Pixel, destination: Pixel) -> Pixel
    ensures { result ≡ maybe_raster_at depth rop (Some pattern) source destination }
{
    match source.color() {
        Some(source) => over_source(depth, rop, pattern, source, destination),
        None => {
            if needs_source(rop) {
                Pixel::unknown()
            } else {
                over_source(depth, rop, pattern, 0, destination)
            }
        }
    }
}

/// The same with a known source.
#[inline(always)]
pub(crate) fn over_source(
    depth: Depth,
    rop: u8,
    pattern: u32,
    source: u32,
    destination: Pixel,
) -> Pixel
    ensures { result ≡ maybe_raster_at depth rop (Some pattern) (Some source) destination }
{
    match destination.color() {
        Some(destination) => over_known(depth, rop, pattern, source, destination),
        None => {
            if needs_destination(rop) {
                Pixel::unknown()
            } else {
                over_known(depth, rop, pattern, source, 0)
            }
        }
    }
}

/// The same over a known destination.
#[inline(always)]
fn over_known(depth: Depth, rop: u8, pattern: u32, source: u32, destination: u32) -> Pixel
    ensures { result ≡ Some (raster_at depth rop pattern source destination) }
{
    let color = rop3(rop, pattern, source, destination);
    match depth {
        Depth::Bits24 => Pixel::known(Color::low(color)),
        Depth::Bits16 => Pixel::known(Color::low(color % COLORS_16)),
    }
}
