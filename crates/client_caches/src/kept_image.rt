ghost use Rattle.std.specs.Prelude.{◌≡◌, ◌*◌, length};

use std::marker::Model;

/// An image in a cache: its sides in pixels, and its colours row by row from the top.
#[derive(Drop)]
pub struct KeptImage {
    w: u16,
    h: u16,
    pixels: Vec<u32>,
}

impl Model for KeptImage {
    ghost use Rattle.std.specs.Prelude.{◌≡◌, ◌*◌, length};
    ghost use Rattle.draw_ops.specs.Content.{ImageOf};

    ghost Value = { ImageOf };

    ghost view = { λ s. record { w = s.w; h = s.h; pixels = s.pixels.items } };

    ghost invariant = { λ s. length s.pixels.items ≡ s.w * s.h };
}

impl KeptImage {
    /// An image of these sides and colours, which fill it.
    pub fn new(w: u16, h: u16, pixels: Vec<u32>) -> KeptImage
        requires { length pixels.items ≡ w * h }
        ensures { result ≡ record { w = w; h = h; pixels = pixels.items } }
    {
        KeptImage { w, h, pixels }
    }

    /// The width in pixels.
    pub fn w(&self) -> u16
        ensures { result ≡ self.now.w }
    {
        self.w
    }

    /// The height in pixels.
    pub fn h(&self) -> u16
        ensures { result ≡ self.now.h }
    {
        self.h
    }

    /// The colours, row by row from the top.
    pub fn pixels(&self) -> &[u32]
        ensures value { result.now ≡ self.now.pixels }
        ensures filled { length self.now.pixels ≡ self.now.w * self.now.h }
    {
        self.pixels.as_slice()
    }
}
