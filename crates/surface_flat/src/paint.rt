//! What a drawing paints.
ghost use Rattle.std.specs.Prelude.{◌≡◌, ℕ, ◌≤◌, None, length};
ghost use Rattle.px_core.specs.Rectangle.{in_clip};
ghost use Rattle.draw_ops.specs.Drawing.{drawn_picture, painting_of};
ghost use Rattle.draw_ops.specs.Fits.{glyph_rule};
ghost use Rattle.draw_ops.specs.Formulas.{picture_after};
ghost use Rattle.surface_parts.specs.Held.{state_of, IsPaintable};
ghost use Rattle.surface_parts.specs.Parts.{IsCanvas};
ghost use Rattle.surface_parts.specs.Surfaces.{AllInSlots};

use crate::copies::copy_rect;
use draw_ops::Shape;
use surface_parts::{
    Blend, Ends, Script, Slots, Window, draw_line, fill_rect, mix_rect, restore_block, write_run,
};

/// Paints a shape within a clip. The two rows are for the operands of one row.
pub(crate) fn paint(
    pixels: &mut [u32],
    window: Window,
    slots: &Slots,
    shape: &Shape,
    pattern: &mut [u32],
    source: &mut [u32],
)
    requires canvas { IsCanvas window.size pixels.old }
    requires paintable { IsPaintable window.size slots.now window.clip shape.now }
    requires glyphs { AllInSlots (λ glyph. glyph_rule glyph.content ≡ None) slots.now.glyphs }
    requires pattern { 2048 ≤ length pattern.old }
    requires source { 2048 ≤ length source.old }
    ensures { (count : ℕ) → pixels.new ≡ picture_after window.size (in_clip window.clip)
        (painting_of window.size (state_of pixels.old slots.now count) shape.now) pixels.old }
{
    match shape {
        Shape::Fill { rect, color } => fill_rect(pixels, window, *rect, *color, source),
        Shape::Dst { rect, rop } => {
            let blend = Blend {
                rop: *rop,
                brush: None,
                image: None,
                sx: 0,
                sy: 0,
            };
            mix_rect(pixels, window, *rect, blend, pattern, source)
        }
        Shape::Pat { rect, rop, brush } => {
            let blend = Blend {
                rop: *rop,
                brush: slots.bare_brush(*brush),
                image: None,
                sx: 0,
                sy: 0,
            };
            mix_rect(pixels, window, *rect, blend, pattern, source)
        }
        Shape::Copy { rect, rop, sx, sy } => copy_rect(
            pixels, window, *rect, *rop, *sx, *sy, pattern, source,
        ),
        Shape::Blit {
            rect,
            rop,
            image,
            sx,
            sy,
        } => {
            let blend = Blend {
                rop: *rop,
                brush: None,
                image: slots.bare_image(*image),
                sx: *sx,
                sy: *sy,
            };
            mix_rect(pixels, window, *rect, blend, pattern, source)
        }
        Shape::Blit3 {
            rect,
            rop,
            image,
            sx,
            sy,
            brush,
        } => {
            let blend = Blend {
                rop: *rop,
                brush: slots.bare_brush(*brush),
                image: slots.bare_image(*image),
                sx: *sx,
                sy: *sy,
            };
            mix_rect(pixels, window, *rect, blend, pattern, source)
        }
        Shape::Text {
            x,
            y,
            color,
            font,
            run,
        } => {
            let script = Script {
                font: *font,
                color: *color,
                x: *x,
                y: *y,
            };
            write_run(pixels, window, slots, script, run.pairs())
        }
        Shape::Line {
            x0,
            y0,
            x1,
            y1,
            color,
        } => {
            let ends = Ends {
                x0: *x0,
                y0: *y0,
                x1: *x1,
                y1: *y1,
            };
            draw_line(pixels, window, ends, *color)
        }
        Shape::Restore { slot, x, y } => {
            restore_block(pixels, window, slots.block(*slot), *x, *y)
        }
        Shape::Save { .. } => {}
        Shape::LoadImage { .. } => {}
        Shape::LoadBrush { .. } => {}
        Shape::LoadGlyph { .. } => {}
    }
}
