use crate::glyph::Glyph;
use crate::image::Image;
use crate::run::Run;
use crate::shared_brush::SharedBrush;
use px_core::Rect;

/// What a drawing does. Places and sides are in pixels; `rop` is the code of a ternary raster operation; `sx` and `sy` say which
/// pixel of the source belongs to the rectangle's upper left pixel.
#[derive(Debug, Drop)]
pub enum Shape {
    /// The rectangle in one colour.
    Fill {
        rect: Rect,
        color: u32,
    },
    /// A raster operation on the rectangle alone.
    Dst {
        rect: Rect,
        rop: u8,
    },
    /// A raster operation with a brush as its pattern.
    Pat {
        rect: Rect,
        rop: u8,
        brush: u8,
    },
    /// A raster operation with the picture itself as its source.
    Copy {
        rect: Rect,
        rop: u8,
        sx: i32,
        sy: i32,
    },
    /// A raster operation with an image as its source.
    Blit {
        rect: Rect,
        rop: u8,
        image: u8,
        sx: i32,
        sy: i32,
    },
    /// A raster operation with an image as its source and a brush as its pattern.
    Blit3 {
        rect: Rect,
        rop: u8,
        image: u8,
        sx: i32,
        sy: i32,
        brush: u8,
    },
    /// A run of glyphs of one font and colour, from a pen at (x, y).
    Text {
        x: i32,
        y: i32,
        color: u32,
        font: u8,
        run: Run,
    },
    /// A slanted line with both its ends, one pixel wide.
    Line {
        x0: i32,
        y0: i32,
        x1: i32,
        y1: i32,
        color: u32,
    },
    /// Keeps the rectangle's pixels in a slot.
    Save {
        slot: u8,
        rect: Rect,
    },
    /// Puts a slot's pixels back, with their upper left pixel at (x, y).
    Restore {
        slot: u8,
        x: i32,
        y: i32,
    },
    /// Loads an image into a slot.
    LoadImage {
        slot: u8,
        image: Image,
    },
    /// Loads a brush into a slot.
    LoadBrush {
        slot: u8,
        brush: SharedBrush,
    },
    /// Loads a glyph of a font.
    LoadGlyph {
        font: u8,
        code: u8,
        glyph: Glyph,
    },
}

/// A shape, and the rectangle outside of which it changes nothing.
#[derive(Debug, Drop)]
pub struct Drawing {
    pub shape: Shape,
    pub clip: Option<Rect>,
}
