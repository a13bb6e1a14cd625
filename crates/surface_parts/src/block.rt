ghost use Rattle.std.specs.Prelude.{◌≡◌, ◌≤◌, ◌*◌, IfOk, length, replicate, IsTrue};
ghost use Rattle.px_core.specs.Rectangle.{is_inside, cut_out};
ghost use Rattle.surface_parts.specs.Parts.{IsCanvas};

use crate::OutOfMemory;
use crate::rows::cut_rect;
use px_core::{Rect, Size};
use std::alloc::Global;
use std::marker::Model;

/// A block of saved pixels: its sides, and its colours row by row from the top.
#[derive(Debug, Drop)]
pub struct Block {
    pub w: u32,
    pub h: u32,
    pub pixels: Vec<u32>,
}

impl Model for Block {
    ghost use Rattle.draw_ops.specs.Content.{ImageOf};

    ghost Value = { ImageOf };

    ghost view = { λ s. record { w = s.w; h = s.h; pixels = s.pixels.items } };
}

impl Block {
    /// A block of these sides whose pixels are still to be copied.
    pub fn new(alloc: Global, w: u32, h: u32) -> Result<Block, OutOfMemory>
        requires wide { w ≤ 2048 }
        requires high { h ≤ 2048 }
        ensures w { IfOk result (λ block. block.w ≡ w) }
        ensures h { IfOk result (λ block. block.h ≡ h) }
        ensures room { IfOk result (λ block. length block.pixels ≡ w * h) }
    {
        let pixels = black_pixels(alloc, w as usize * h as usize)?;
        Ok(Block { w, h, pixels })
    }

    /// The block with the pixels of a rectangle that lies on the surface.
    pub fn filled(self, pixels: &[u32], size: Size, rect: Rect) -> Block
        requires canvas { IsCanvas size pixels.now }
        requires inside { IsTrue (is_inside size rect) }
        requires room { length self.pixels ≡ rect.w * rect.h }
        ensures { result ≡ record { w = self.w; h = self.h; pixels = cut_out size pixels.now 0 rect } }
    {
        let mut block = self;
        cut_rect(pixels, size, rect, &mut block.pixels);
        block
    }
}

/// So many black pixels.
pub fn black_pixels(alloc: Global, count: usize) -> Result<Vec<u32>, OutOfMemory>
    ensures { IfOk result (λ pixels. pixels.items ≡ replicate count 0) }
{
    let pixels = vec![in alloc; 0; count]?;
    Ok(pixels)
}
