//! Further handles of drawings: pixels and bits are shared, not copied.

ghost use Rattle.std.specs.Prelude.{◌≡◌, IfOk};

use crate::OutOfMemory;
use draw_ops::{Drawing, Run, Shape};
use std::alloc::Global;

/// One more drawing like this.
pub fn share_drawing(alloc: Global, d: &Drawing) -> Result<Drawing, OutOfMemory>
    ensures { IfOk result (λ shared. shared ≡ d.now) }
{
    let shape = share_shape(alloc, &d.shape)?;
    Ok(Drawing {
        shape,
        clip: d.clip,
    })
}

/// One more shape like this.
fn share_shape(alloc: Global, shape: &Shape) -> Result<Shape, OutOfMemory>
    ensures { IfOk result (λ shared. shared ≡ shape.now) }
{
    Ok(match shape {
        Shape::Fill { rect, color } => Shape::Fill {
            rect: *rect,
            color: *color,
        },
        Shape::Dst { rect, rop } => Shape::Dst {
            rect: *rect,
            rop: *rop,
        },
        Shape::Pat { rect, rop, brush } => Shape::Pat {
            rect: *rect,
            rop: *rop,
            brush: *brush,
        },
        Shape::Copy { rect, rop, sx, sy } => Shape::Copy {
            rect: *rect,
            rop: *rop,
            sx: *sx,
            sy: *sy,
        },
        Shape::Blit {
            rect,
            rop,
            image,
            sx,
            sy,
        } => Shape::Blit {
            rect: *rect,
            rop: *rop,
            image: *image,
            sx: *sx,
            sy: *sy,
        },
        Shape::Blit3 {
            rect,
            rop,
            image,
            sx,
            sy,
            brush,
        } => Shape::Blit3 {
            rect: *rect,
            rop: *rop,
            image: *image,
            sx: *sx,
            sy: *sy,
            brush: *brush,
        },
        Shape::Text {
            x,
            y,
            color,
            font,
            run,
        } => Shape::Text {
            x: *x,
            y: *y,
            color: *color,
            font: *font,
            run: Run::new(alloc, run.pairs())?,
        },
        Shape::Line {
            x0,
            y0,
            x1,
            y1,
            color,
        } => Shape::Line {
            x0: *x0,
            y0: *y0,
            x1: *x1,
            y1: *y1,
            color: *color,
        },
        Shape::Save { slot, rect } => Shape::Save {
            slot: *slot,
            rect: *rect,
        },
        Shape::Restore { slot, x, y } => Shape::Restore {
            slot: *slot,
            x: *x,
            y: *y,
        },
        Shape::LoadImage { slot, image } => Shape::LoadImage {
            slot: *slot,
            image: image.share()?,
        },
        Shape::LoadBrush { slot, brush } => Shape::LoadBrush {
            slot: *slot,
            brush: brush.share()?,
        },
        Shape::LoadGlyph { font, code, glyph } => Shape::LoadGlyph {
            font: *font,
            code: *code,
            glyph: glyph.share()?,
        },
    })
}
