ghost use Rattle.std.specs.Prelude.{◌≡◌, IfOk};
ghost use Rattle.draw_ops.specs.Content.{GlyphOf};

use crate::OutOfMemory;
use std::alloc::Global;
use std::marker::Model;
use std::sync::Arc;

/// A sign of a font: where its cell stands from the pen, its sides in pixels, and the bits of its rows, each padded to bytes.
///
/// Several handles may share the bits.
#[derive(Debug, Drop)]
pub struct Glyph {
    x: i32,
    y: i32,
    cx: u16,
    cy: u16,
    bits: Arc<Vec<u8>>,
}

impl Model for Glyph {
    ghost use Rattle.std.specs.Arc.{arc_value};
    ghost use Rattle.draw_ops.specs.Content.{GlyphOf};

    ghost Value = { GlyphOf };

    ghost view = { λ s. record { x = s.x; y = s.y; cx = s.cx; cy = s.cy; bits = (arc_value s.bits).items } };
}

impl Glyph {
    /// Makes a glyph of this offset, these sides and these bytes of rows, which need not agree with the sides.
    pub fn new(
        alloc: Global,
        x: i32,
        y: i32,
        cx: u16,
        cy: u16,
        bits: &[u8],
    ) -> Result<Glyph, OutOfMemory>
        ensures { IfOk result (λ glyph. glyph ≡ record { x = x; y = y; cx = cx; cy = cy; bits = bits.now }) }
    {
        let bits = Vec::from_slice(alloc, bits)?;
        let bits = Arc::new(alloc, bits)?;
        Ok(Glyph { x, y, cx, cy, bits })
    }

    /// One more handle of the same glyph; no bit is copied.
    pub fn share(&self) -> Result<Glyph, OutOfMemory>
        ensures { IfOk result (λ glyph. glyph ≡ self.now) }
    {
        let bits = Arc::try_clone(&self.bits)?;
        Ok(Glyph {
            x: self.x,
            y: self.y,
            cx: self.cx,
            cy: self.cy,
            bits,
        })
    }

    /// How far the cell's left column is from the pen, in pixels to the right.
    pub fn x(&self) -> i32
        ensures { result ≡ self.now.x }
    {
        self.x
    }

    /// How far the cell's top row is from the pen, in pixels downwards.
    pub fn y(&self) -> i32
        ensures { result ≡ self.now.y }
    {
        self.y
    }

    /// The cell's width in pixels.
    pub fn cx(&self) -> u16
        ensures { result ≡ self.now.cx }
    {
        self.cx
    }

    /// The cell's height in pixels.
    pub fn cy(&self) -> u16
        ensures { result ≡ self.now.cy }
    {
        self.cy
    }

    /// The bytes of the rows from the top, the highest bit on the left.
    pub fn bits(&self) -> &[u8]
        ensures { result.now ≡ self.now.bits }
    {
        self.bits.as_slice()
    }
}
