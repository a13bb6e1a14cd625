//! What a cautious viewer's drawings are walked as: cut to the pixels that they may change, or passed over (profile).
ghost use Rattle.std.specs.Prelude.{◌≡◌, ◌≤ℤ◌, negsuc, pos, true, None, IsTrue};
ghost use Rattle.px_core.specs.Rectangle.{common, clipped, whole, is_session_size, IsPlaced};
ghost use Rattle.frame_rules.specs.Cautious.{area_of, changes_nothing, moved, cut_to, is_cut, cut};
ghost use Rattle.frame_plan.specs.Cuts.{IsCuttable, IsWalkableAs, NearSource};
ghost use Rattle.frame_plan.specs.Cutting.{cut_with};

use draw_ops::{Drawing, Shape};
use px_core::{Rect, Size, clipped, common, has_pixel, whole};
use session_core::SeenDrawing;

/// The code of the raster operation that leaves every pixel as it was.
const DESTINATION: u8 = 0xAA;

/// A drawing that was cut, and the rectangle that it touches.
#[derive(Drop)]
pub(crate) struct CutDrawing {
    pub drawing: Drawing,
    pub rect: Rect,
}

/// A drawing of those that are cut, cut to the pixels that it may change, without a clip; `None` where there are none, or its code
/// changes nothing.
pub(crate) fn cut(size: Size, pending: &SeenDrawing<'_>) -> Option<CutDrawing>
    requires size { IsTrue (is_session_size size.w size.h) }
    requires cuttable { IsCuttable size pending.now }
    requires shape { is_cut pending.now.drawing.shape ≡ true }
    ensures cut { cut_with pending.now result ≡ cut size pending.now }
    ensures walkable { IsWalkableAs (cut_with pending.now result) }
{
    let drawing = pending.drawing();
    let area = common(whole(size), clipped(pending.rect(), drawing.clip));
    if !has_pixel(area) {
        return None;
    }
    let shape = cut_to(area, &drawing.shape)?;
    Some(CutDrawing {
        drawing: Drawing { shape, clip: None },
        rect: area,
    })
}

/// Whether a shape is one of those that are cut.
pub(crate) fn is_cut(shape: &Shape) -> bool
    ensures { result ≡ is_cut shape.now }
{
    match shape {
        Shape::Fill { .. }
        | Shape::Dst { .. }
        | Shape::Pat { .. }
        | Shape::Copy { .. }
        | Shape::Blit { .. }
        | Shape::Blit3 { .. } => true,
        _ => false,
    }
}

/// A shape that is cut with another rectangle and with its source moved along; `None` where its code changes nothing.
fn cut_to(area: Rect, shape: &Shape) -> Option<Shape>
    requires area { IsPlaced area }
    requires source { NearSource shape.now }
    requires cut { is_cut shape.now ≡ true }
    ensures { result ≡ cut_to area shape.now }
{
    match shape {
        Shape::Fill { color, .. } => Some(Shape::Fill {
            rect: area,
            color: *color,
        }),
        Shape::Dst { rop, .. } if *rop != DESTINATION => Some(Shape::Dst {
            rect: area,
            rop: *rop,
        }),
        Shape::Pat { rop, brush, .. } if *rop != DESTINATION => Some(Shape::Pat {
            rect: area,
            rop: *rop,
            brush: *brush,
        }),
        Shape::Copy { rect, rop, sx, sy } if *rop != DESTINATION => Some(Shape::Copy {
            rect: area,
            rop: *rop,
            sx: moved(rect.x, area.x, *sx),
            sy: moved(rect.y, area.y, *sy),
        }),
        Shape::Blit {
            rect,
            rop,
            image,
            sx,
            sy,
        } if *rop != DESTINATION => Some(Shape::Blit {
            rect: area,
            rop: *rop,
            image: *image,
            sx: moved(rect.x, area.x, *sx),
            sy: moved(rect.y, area.y, *sy),
        }),
        Shape::Blit3 {
            rect,
            rop,
            image,
            sx,
            sy,
            brush,
        } if *rop != DESTINATION => Some(Shape::Blit3 {
            rect: area,
            rop: *rop,
            image: *image,
            sx: moved(rect.x, area.x, *sx),
            sy: moved(rect.y, area.y, *sy),
            brush: *brush,
        }),
        _ => None,
    }
}

/// A source's coordinate, moved as far as its rectangle's corner.
fn moved(from: i32, to: i32, at: i32) -> i32
    requires from_low { negsuc 65535 ≤ℤ from }
    requires from_high { from ≤ℤ pos 65536 }
    requires to_low { negsuc 65535 ≤ℤ to }
    requires to_high { to ≤ℤ pos 65536 }
    requires at_low { negsuc 65535 ≤ℤ at }
    requires at_high { at ≤ℤ pos 65536 }
    ensures { result ≡ moved from to at }
{
    at + (to - from)
}
