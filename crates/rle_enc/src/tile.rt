//! The packed bytes of a tile's colours.

ghost use Rattle.std.specs.Prelude.{◌≡◌, ◌≤◌, ◌*◌, length, option_map, IfOk, IsTrue};
ghost use Rattle.px_core.specs.Colors.{are_colors};
ghost use Rattle.rle_enc.specs.Packed.{IsTilePacked};

use crate::OutOfMemory;
use crate::data::packed_pixels;
use crate::rows::turn_over;
use crate::shown::show_all;
use px_core::Depth;
use std::alloc::Global;

/// The packed pixels of a tile, whose colours go row by row from the top and are shown at a depth; `None` where they go as they are.
pub fn packed_tile(
    alloc: Global,
    pixels: &[u32],
    w: usize,
    h: usize,
    no_header: bool,
    depth: Depth,
) -> Result<Option<Vec<u8>>, OutOfMemory>
    requires wide { 1 ≤ w }
    requires narrow { w ≤ 64 }
    requires tall { 1 ≤ h }
    requires low { h ≤ 64 }
    requires number { length pixels.now ≡ w * h }
    requires colors { IsTrue (are_colors pixels.now) }
    ensures { IfOk result (λ packed. IsTilePacked depth no_header w h pixels.now (option_map (λ bytes. bytes.items) packed)) }
{
    if !no_header {
        return Ok(None);
    }
    let wire = show_all(turn_over(alloc, pixels, w, h)?, depth);
    packed_pixels(alloc, &wire, w, true, depth)
}
