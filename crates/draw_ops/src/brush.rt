ghost use Rattle.std.specs.Prelude.{◌≡◌, ℕ, List, length, IsTrue};
ghost use Rattle.px_core.specs.Colors.{are_colors};

use std::marker::Model;

/// The number of pixels of a brush, which is 8 by 8.
pub const BRUSH_PIXELS: usize = 64;

/// A pattern of 8 by 8 colours, row by row from the top.
#[derive(Clone, Copy, Debug)]
pub struct Brush {
    pixels: [u32; 64],
}

impl Model for Brush {
    ghost Value = { List ℕ };

    ghost view = { λ s. s.pixels };

    ghost inverse = { λ pixels. record { pixels = pixels } };
}

impl Brush {
    /// Makes a brush of 64 colours.
    pub fn new(pixels: &[u32]) -> Brush
        requires count { length pixels.now ≡ 64 }
        requires colors { IsTrue (are_colors pixels.now) }
        ensures { result ≡ pixels.now }
    {
        let mut kept = [0; 64];
        kept.copy_from_slice(pixels);
        Brush { pixels: kept }
    }

    /// The 64 colours, row by row from the top.
    pub fn pixels(&self) -> &[u32]
        ensures value { result.now ≡ self.now }
        ensures number { length result.now ≡ 64 }
    {
        &self.pixels
    }
}
