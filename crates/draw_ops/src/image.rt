ghost use Rattle.std.specs.Prelude.{◌≡◌, IfOk, IsTrue};
ghost use Rattle.draw_ops.specs.Content.{ImageOf};
ghost use Rattle.px_core.specs.Colors.{are_colors};

use crate::OutOfMemory;
use std::alloc::Global;
use std::marker::Model;
use std::sync::Arc;

/// A picture of its own, to be loaded into a slot: its sides in pixels, and its colours row by row from the top.
///
/// Several handles may share the colours.
#[derive(Debug, Drop)]
pub struct Image {
    w: u16,
    h: u16,
    pixels: Arc<Vec<u32>>,
}

impl Model for Image {
    ghost use Rattle.std.specs.Arc.{arc_value};
    ghost use Rattle.draw_ops.specs.Content.{ImageOf};

    ghost Value = { ImageOf };

    ghost view = { λ s. record { w = s.w; h = s.h; pixels = (arc_value s.pixels).items } };
}

impl Image {
    /// Makes an image of these sides and colours, which need not agree with each other.
    pub fn new(alloc: Global, w: u16, h: u16, pixels: &[u32]) -> Result<Image, OutOfMemory>
        requires { IsTrue (are_colors pixels.now) }
        ensures { IfOk result (λ image. image ≡ record { w = w; h = h; pixels = pixels.now }) }
    {
        let pixels = Vec::from_slice(alloc, pixels)?;
        let pixels = Arc::new(alloc, pixels)?;
        Ok(Image { w, h, pixels })
    }

    /// One more handle of the same image; no colour is copied.
    pub fn share(&self) -> Result<Image, OutOfMemory>
        ensures { IfOk result (λ image. image ≡ self.now) }
    {
        let pixels = Arc::try_clone(&self.pixels)?;
        Ok(Image {
            w: self.w,
            h: self.h,
            pixels,
        })
    }

    /// The width in pixels.
    pub fn w(&self) -> u16
        ensures { result ≡ self.now.w }
    {
        self.w
    }

    /// The height in pixels.
    pub fn h(&self) -> u16
        ensures { result ≡ self.now.h }
    {
        self.h
    }

    /// The colours, row by row from the top.
    pub fn pixels(&self) -> &[u32]
        ensures { result.now ≡ self.now.pixels }
    {
        self.pixels.as_slice()
    }
}
