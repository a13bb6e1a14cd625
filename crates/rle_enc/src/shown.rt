//! Colours as a viewer of 16 bits is shown them: the highest five bits of red, six of green and five of blue.

ghost use Rattle.std.specs.Prelude.{◌≡◌, length, IsTrue};
ghost use Rattle.px_core.specs.declared.depth.Depth.TheVariants.{Bits16};
ghost use Rattle.px_core.specs.Colors.{are_colors};
ghost use Rattle.px_core.specs.Depth.{shown_colors};
ghost use Rattle.px_core.specs.Pixels.{are_pixels};

use px_core::{Depth, cut_color};

/// The colours, each cut to 16 bits in its place.
fn cut_all(colors: Vec<u32>) -> Vec<u32>
    ensures { result.items ≡ shown_colors Bits16 colors.items }
{
    let mut all = colors;
    for k in 0..all.len() {
        all[k] = cut_color(all[k]);
    }
    all
}

/// The colours, each as it is shown at a depth, in its place; colours are then pixels of the depth. Takes no memory.
pub fn show_all(colors: Vec<u32>, depth: Depth) -> Vec<u32>
    ensures shown { result.items ≡ shown_colors depth colors.items }
    ensures number { length result.items ≡ length colors.items }
    ensures pixels { IsTrue (are_colors colors.items) → IsTrue (are_pixels depth result.items) }
{
    match depth {
        Depth::Bits24 => colors,
        Depth::Bits16 => cut_all(colors),
    }
}
