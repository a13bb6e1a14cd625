//! What becomes of rectangles of a picture, within bounds.
ghost use Rattle.std.specs.Prelude.{◌≡◌, ℕ, ◌*◌, ◌^◌, ◌<◌, ◌≤◌, ◌&&◌, Some, None, pos, IfSome, IsTrue, length, option_copied};
ghost use Rattle.px_core.specs.Colors.{are_colors};
ghost use Rattle.px_core.specs.Picture.{rows_of};
ghost use Rattle.px_core.specs.Rectangle.{is_inside, in_clip, in_rect, cut_out};
ghost use Rattle.rop3_core.specs.Palette.{client_colors};
ghost use Rattle.draw_ops.specs.Formulas.{solid, replaced, shifted, imaged, over_rect, picture_after};
ghost use Rattle.order_means.specs.ClientState.{mixing, no_operand, source_rect};
ghost use Rattle.client_picture.specs.Parts.{in_part, in_optional_part, IsCanvas, IsInside, IsOnSmall, IsWithinRect};
ghost use Rattle.client_picture.specs.Pictures.{brush_operand, source_operand, source_rows, HasSource};
ghost use Rattle.client_picture.specs.Sources.{source_color, texture_color, CoversPart};

use crate::copies::copy_part;
use crate::corner::{corner_of, first_corner};
use crate::mix::{Mix, Texture, mix_part};
use crate::part::{Part, part_of};
use crate::pixel::SOURCE_COPY;
use crate::rows::{fill_part, paste_part};
use crate::source::Source;
use crate::{Color, Pixel};
use draw_ops::Brush;
use px_core::{Depth, Rect, Size};

/// Gives a rectangle one colour, of which this part lies on the picture and within the bounds.
pub(crate) fn fill_rect(
    pixels: &mut [Pixel],
    size: Size,
    rect: Rect,
    bounds: Option<Rect>,
    color: Color,
    part: Option<Part>,
)
    requires canvas { IsCanvas size pixels.old }
    requires inside { IfSome part (λ part. IsInside size part) }
    requires seen { (x y : ℕ) → x < size.w → y < size.h → in_optional_part part x y ≡ (in_clip bounds (pos x) (pos y) && in_rect rect (pos x) (pos y)) }
    ensures { pixels.new ≡ picture_after size (in_clip bounds) (over_rect rect (solid client_colors color)) pixels.old }
{
    match part {
        None => {}
        Some(part) => fill_part(pixels, size, part, color),
    }
}

/// The raster operation of a code on a rectangle, with a brush as its pattern and an image as its source.
pub(crate) fn mix_rect(
    pixels: &mut [Pixel],
    size: Size,
    rect: Rect,
    bounds: Option<Rect>,
    depth: Depth,
    rop: u8,
    brush: Option<&Brush>,
    source: Option<Source<'_>>,
)
    requires canvas { IsCanvas size pixels.old }
    requires source { IfSome source (HasSource rect) }
    ensures { pixels.new ≡ picture_after size (in_clip bounds)
        (mixing depth rect rop (brush_operand (option_copied brush.entry)) (source_operand rect source.entry)) pixels.old }
{
    match part_of(size, rect, bounds) {
        None => {}
        Some(part) => {
            let mix = Mix {
                depth,
                rop,
                brush,
                texture: source_texture(source, rect, part),
            };
            mix_part(pixels, size, part, mix)
        }
    }
}

/// The colours that a part takes from a source that may be missing.
fn source_texture(source: Option<Source<'_>>, rect: Rect, part: Part) -> Option<Texture<'_>>
    requires source { IfSome source (HasSource rect) }
    requires within { IsWithinRect rect part }
    requires small { IsOnSmall part }
    ensures covers { IfSome result (CoversPart part) }
    ensures colors { (x y : ℕ) → IsTrue (in_part part x y) → Some (source_color part result x y) ≡ source_operand rect source.entry (pos x) (pos y) }
{
    match source {
        None => None,
        Some(source) => Some(texture_of(source, rect, part)),
    }
}

/// The colours that a part takes from a source.
fn texture_of(source: Source<'_>, rect: Rect, part: Part) -> Texture<'_>
    requires source { HasSource rect source }
    requires within { IsWithinRect rect part }
    requires small { IsOnSmall part }
    ensures covers { CoversPart part result }
    ensures bound { IsTrue (are_colors source.entry.pixels.now) → (x y : ℕ) → texture_color part result x y < 2 ^ 24 }
    ensures colors { (x y : ℕ) → IsTrue (in_part part x y)
        → texture_color part result x y ≡ shifted (source_rows source.entry) 0 rect source.entry.sx source.entry.sy (pos x) (pos y) }
{
    Texture {
        pixels: source.pixels,
        w: usize::from(source.w),
        from: corner_of(rect, source.sx, source.sy, part),
    }
}

/// Writes an image into a rectangle.
pub(crate) fn write_rect(
    pixels: &mut [Pixel],
    size: Size,
    rect: Rect,
    bounds: Option<Rect>,
    source: Source<'_>,
)
    requires canvas { IsCanvas size pixels.old }
    requires source { HasSource rect source }
    requires colors { IsTrue (are_colors source.pixels.now) }
    ensures { pixels.new ≡ picture_after size (in_clip bounds)
        (over_rect rect (replaced (imaged client_colors (source_rows source.entry) rect source.entry.sx source.entry.sy))) pixels.old }
{
    match part_of(size, rect, bounds) {
        None => {}
        Some(part) => {
            // Colours of either depth have no bits that a copy at 24 drops.
            let mix = Mix {
                depth: Depth::Bits24,
                rop: SOURCE_COPY,
                brush: None,
                texture: Some(texture_of(source, rect, part)),
            };
            mix_part(pixels, size, part, mix)
        }
    }
}

/// The raster operation of a code on a rectangle, with the picture itself, from (sx, sy) on, as its source. The row is for the source of one row.
pub(crate) fn copy_rect(
    pixels: &mut [Pixel],
    size: Size,
    rect: Rect,
    bounds: Option<Rect>,
    depth: Depth,
    rop: u8,
    sx: i32,
    sy: i32,
    row: &mut [Pixel],
)
    requires canvas { IsCanvas size pixels.old }
    requires inside { IsTrue (is_inside size (source_rect rect sx sy)) }
    requires row { length row.old ≡ size.w }
    ensures { pixels.new ≡ picture_after size (in_clip bounds)
        (mixing depth rect rop no_operand (shifted (rows_of size.w size.h pixels.old) None rect sx sy)) pixels.old }
{
    match part_of(size, rect, bounds) {
        None => {}
        Some(part) => {
            let from = corner_of(rect, sx, sy, part);
            copy_part(pixels, size, part, depth, rop, from, &mut row[..part.w])
        }
    }
}

/// Puts saved pixels back into a rectangle of their sides.
pub(crate) fn restore_rect(
    pixels: &mut [Pixel],
    size: Size,
    rect: Rect,
    bounds: Option<Rect>,
    saved: &[Pixel],
)
    requires canvas { IsCanvas size pixels.old }
    requires inside { IsTrue (is_inside size rect) }
    requires whole { length saved.now ≡ rect.w * rect.h }
    ensures { pixels.new ≡ picture_after size (in_clip bounds)
        (over_rect rect (replaced (shifted (rows_of rect.w rect.h saved.now) None rect (pos 0) (pos 0)))) pixels.old }
{
    match part_of(size, rect, bounds) {
        None => {}
        Some(part) => {
            let from = corner_of(rect, 0, 0, part);
            paste_part(pixels, size, part, saved, rect.w as usize, from)
        }
    }
}

/// Copies the pixels of a rectangle that lies on the picture, row by row from the top.
pub(crate) fn cut_rect(pixels: &[Pixel], size: Size, rect: Rect, out: &mut [Pixel])
    requires canvas { IsCanvas size pixels.now }
    requires inside { IsTrue (is_inside size rect) }
    requires room { length out.old ≡ rect.w * rect.h }
    ensures { out.new ≡ cut_out size pixels.now None rect }
{
    let whole = Part {
        x: 0,
        y: 0,
        w: rect.w as usize,
        h: rect.h as usize,
    };
    let block = Size {
        w: rect.w,
        h: rect.h,
    };
    let from = first_corner(rect);
    paste_part(out, block, whole, pixels, size.w as usize, from)
}
