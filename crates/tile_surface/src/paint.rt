//! What a drawing paints, on tiles that are made the surface's own before.
ghost use Rattle.std.specs.Prelude.{◌≡◌, ℕ, ◌≤◌, None, IfSome, OnOk, length, map, option_copied};
ghost use Rattle.px_core.specs.Rectangle.{boxed, in_clip};
ghost use Rattle.draw_ops.specs.Drawing.{painting_of};
ghost use Rattle.draw_ops.specs.Fits.{clip_rule, glyph_rule};
ghost use Rattle.draw_ops.specs.Formulas.{picture_after};
ghost use Rattle.draw_ops.specs.StateColors.{StateHasColors};
ghost use Rattle.surface_parts.specs.Held.{state_of, IsPaintable};
ghost use Rattle.surface_parts.specs.Surfaces.{AllInSlots};
ghost use Rattle.surface_parts.specs.Textures.{IsRestorable};
ghost use Rattle.tile_surface.specs.Cells.{cell_pixels, picture_of, IsTiled};
ghost use Rattle.tile_surface.specs.Ownership.{KeepsRest, StaysOwn};
ghost use Rattle.tile_surface.specs.Touched.{OwnsRect, OwnsShape};

use crate::cell::Cell;
use crate::copies::copy_rect;
use crate::lines::{draw_line, own_line};
use crate::own::own_rect;
use crate::rects::{fill_rect, mix_rect, restore_block};
use crate::texts::{own_run, write_run};
use draw_ops::Shape;
use px_core::Rect;
use std::alloc::Global;
use surface_parts::{Blend, Block, Ends, Script, Slots, Window};
use wire_num::OutOfMemory;

/// Makes each tile that a shape paints on, within a clip, the surface's own. The colours of all tiles stay, also after an `Err`.
pub(crate) fn own_shape(
    cells: &mut [Cell],
    alloc: Global,
    window: Window,
    slots: &Slots,
    shape: &Shape,
) -> Result<(), OutOfMemory>
    requires tiled { IsTiled window.size cells.old }
    requires paintable { IsPaintable window.size slots.now window.clip shape.now }
    requires glyphs { AllInSlots (λ glyph. glyph_rule glyph.content ≡ None) slots.now.glyphs }
    ensures same { map cell_pixels cells.new ≡ map cell_pixels cells.old }
    ensures stays { StaysOwn cells.old cells.new }
    ensures own { OnOk result (OwnsShape window.size slots.now cells.new window.clip shape.now) }
{
    match shape {
        Shape::Fill { rect, .. } => own_rect(cells, alloc, window, *rect),
        Shape::Dst { rect, .. } => own_rect(cells, alloc, window, *rect),
        Shape::Pat { rect, .. } => own_rect(cells, alloc, window, *rect),
        Shape::Copy { rect, .. } => own_rect(cells, alloc, window, *rect),
        Shape::Blit { rect, .. } => own_rect(cells, alloc, window, *rect),
        Shape::Blit3 { rect, .. } => own_rect(cells, alloc, window, *rect),
        Shape::Text {
            x,
            y,
            color,
            font,
            run,
        } => {
            let script = Script {
                font: *font,
                color: *color,
                x: *x,
                y: *y,
            };
            own_run(cells, alloc, window, slots, script, run.pairs())
        }
        Shape::Line { x0, y0, x1, y1, .. } => {
            let ends = Ends {
                x0: *x0,
                y0: *y0,
                x1: *x1,
                y1: *y1,
            };
            own_line(cells, alloc, window, ends)
        }
        Shape::Restore { slot, x, y } => {
            own_block(cells, alloc, window, slots.block(*slot), *x, *y)
        }
        Shape::Save { .. } => Ok(()),
        Shape::LoadImage { .. } => Ok(()),
        Shape::LoadBrush { .. } => Ok(()),
        Shape::LoadGlyph { .. } => Ok(()),
    }
}

/// Makes each tile of a block that may be missing, with its upper left pixel at (x, y), the surface's own. The colours of all tiles stay, also
/// after an `Err`.
fn own_block(
    cells: &mut [Cell],
    alloc: Global,
    window: Window,
    block: Option<&Block>,
    x: i32,
    y: i32,
) -> Result<(), OutOfMemory>
    requires tiled { IsTiled window.size cells.old }
    requires clip { clip_rule window.size window.clip ≡ None }
    requires block { IfSome (option_copied block) (IsRestorable window.size x y) }
    ensures same { map cell_pixels cells.new ≡ map cell_pixels cells.old }
    ensures stays { StaysOwn cells.old cells.new }
    ensures own { OnOk result (IfSome (option_copied block.entry) (λ b. OwnsRect window.size cells.new window.clip (boxed x y b.w b.h))) }
{
    match block {
        None => Ok(()),
        Some(block) => {
            let rect = Rect {
                x,
                y,
                w: block.w,
                h: block.h,
            };
            own_rect(cells, alloc, window, rect)
        }
    }
}

/// Paints a shape within a clip on tiles that are the surface's own. The two rows are for the operands of one row.
pub(crate) fn paint(
    cells: &mut [Cell],
    window: Window,
    slots: &Slots,
    shape: &Shape,
    pattern: &mut [u32],
    source: &mut [u32],
)
    requires tiled { IsTiled window.size cells.old }
    requires paintable { IsPaintable window.size slots.now window.clip shape.now }
    requires glyphs { AllInSlots (λ glyph. glyph_rule glyph.content ≡ None) slots.now.glyphs }
    requires colors { StateHasColors (state_of (picture_of window.size cells.old) slots.now 0) }
    requires own { OwnsShape window.size slots.now cells.old window.clip shape.now }
    requires pattern { 2048 ≤ length pattern.old }
    requires source { 2048 ≤ length source.old }
    ensures painted { (count : ℕ) → picture_of window.size cells.new ≡ picture_after window.size (in_clip window.clip) (painting_of window.size (state_of (picture_of window.size cells.old) slots.now count) shape.now) (picture_of window.size cells.old) }
    ensures kept { KeepsRest window.size cells.old cells.new }
{
    match shape {
        Shape::Fill { rect, color } => fill_rect(cells, window, *rect, *color),
        Shape::Dst { rect, rop } => {
            let blend = Blend {
                rop: *rop,
                brush: None,
                image: None,
                sx: 0,
                sy: 0,
            };
            mix_rect(cells, window, *rect, blend, pattern, source)
        }
        Shape::Pat { rect, rop, brush } => {
            let blend = Blend {
                rop: *rop,
                brush: slots.bare_brush(*brush),
                image: None,
                sx: 0,
                sy: 0,
            };
            mix_rect(cells, window, *rect, blend, pattern, source)
        }
        Shape::Copy { rect, rop, sx, sy } => copy_rect(
            cells, window, *rect, *rop, *sx, *sy, pattern, source,
        ),
        Shape::Blit {
            rect,
            rop,
            image,
            sx,
            sy,
        } => {
            let blend = Blend {
                rop: *rop,
                brush: None,
                image: slots.bare_image(*image),
                sx: *sx,
                sy: *sy,
            };
            mix_rect(cells, window, *rect, blend, pattern, source)
        }
        Shape::Blit3 {
            rect,
            rop,
            image,
            sx,
            sy,
            brush,
        } => {
            let blend = Blend {
                rop: *rop,
                brush: slots.bare_brush(*brush),
                image: slots.bare_image(*image),
                sx: *sx,
                sy: *sy,
            };
            mix_rect(cells, window, *rect, blend, pattern, source)
        }
        Shape::Text {
            x,
            y,
            color,
            font,
            run,
        } => {
            let script = Script {
                font: *font,
                color: *color,
                x: *x,
                y: *y,
            };
            write_run(cells, window, slots, script, run.pairs())
        }
        Shape::Line {
            x0,
            y0,
            x1,
            y1,
            color,
        } => {
            let ends = Ends {
                x0: *x0,
                y0: *y0,
                x1: *x1,
                y1: *y1,
            };
            draw_line(cells, window, ends, *color)
        }
        Shape::Restore { slot, x, y } => {
            restore_block(cells, window, slots.block(*slot), *x, *y)
        }
        Shape::Save { .. } => {}
        Shape::LoadImage { .. } => {}
        Shape::LoadBrush { .. } => {}
        Shape::LoadGlyph { .. } => {}
    }
}
