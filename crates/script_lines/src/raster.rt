//! Drawings over a rectangle by a raster operation, fills and lines: the forms that may end with a clip.
//!
//! | form | drawing |
//! |---|---|
//! | `fill X Y W H C` | the rectangle in one colour |
//! | `dst X Y W H R` | an operation on the rectangle alone |
//! | `pat X Y W H R BRUSH` | with a brush |
//! | `copy X Y W H R SX SY` | with the picture itself |
//! | `blit X Y W H R IMAGE SX SY` | with an image |
//! | `blit3 X Y W H R IMAGE SX SY BRUSH` | with an image and a brush |
//! | `line X0 Y0 X1 Y1 C` | a line |
ghost use Rattle.std.specs.Prelude.{◌≡◌, ◌∷◌, []};
ghost use Rattle.script_rules.specs.Fields.{with_clip, fill_by, dst_by, pat_by, copy_by, blit_by, blit3_by, line_by};
ghost use Rattle.script_rules.specs.Fields.Field.{Coordinate, Small, Digits};
ghost use Rattle.script_rules.specs.Forms.{fill_fields, raster_fields};
ghost use Rattle.script_lines.specs.Reading.{drawing_of, line_fields};

use crate::area::{clipped, next_point, next_rect};
use crate::field::{next_color, next_rop, next_small};
use draw_ops::{Drawing, Shape};
use line_text::Parts;

/// `fill X Y W H C`.
pub(crate) fn read_fill(words: &mut Parts<'_>) -> Option<Drawing>
    ensures { result ≡ drawing_of with_clip fill_fields fill_by words.old }
{
    let rect = next_rect(words)?;
    let color = next_color(words)?;
    clipped(Shape::Fill { rect, color }, words)
}

/// `dst X Y W H R`.
pub(crate) fn read_dst(words: &mut Parts<'_>) -> Option<Drawing>
    ensures { result ≡ drawing_of with_clip (raster_fields []) dst_by words.old }
{
    let rect = next_rect(words)?;
    let rop = next_rop(words)?;
    clipped(Shape::Dst { rect, rop }, words)
}

/// `pat X Y W H R BRUSH`.
pub(crate) fn read_pat(words: &mut Parts<'_>) -> Option<Drawing>
    ensures { result ≡ drawing_of with_clip (raster_fields (Small ∷ [])) pat_by words.old }
{
    let rect = next_rect(words)?;
    let rop = next_rop(words)?;
    let brush = next_small(words)?;
    clipped(Shape::Pat { rect, rop, brush }, words)
}

/// `copy X Y W H R SX SY`.
pub(crate) fn read_copy(words: &mut Parts<'_>) -> Option<Drawing>
    ensures { result ≡ drawing_of with_clip (raster_fields (Coordinate ∷ Coordinate ∷ [])) copy_by words.old }
{
    let rect = next_rect(words)?;
    let rop = next_rop(words)?;
    let source = next_point(words)?;
    clipped(
        Shape::Copy {
            rect,
            rop,
            sx: source.x,
            sy: source.y,
        },
        words,
    )
}

/// `blit X Y W H R IMAGE SX SY`.
pub(crate) fn read_blit(words: &mut Parts<'_>) -> Option<Drawing>
    ensures { result ≡ drawing_of with_clip (raster_fields (Small ∷ Coordinate ∷ Coordinate ∷ [])) blit_by words.old }
{
    let rect = next_rect(words)?;
    let rop = next_rop(words)?;
    let image = next_small(words)?;
    let source = next_point(words)?;
    clipped(
        Shape::Blit {
            rect,
            rop,
            image,
            sx: source.x,
            sy: source.y,
        },
        words,
    )
}

/// `blit3 X Y W H R IMAGE SX SY BRUSH`.
pub(crate) fn read_blit3(words: &mut Parts<'_>) -> Option<Drawing>
    ensures { result ≡ drawing_of with_clip (raster_fields (Small ∷ Coordinate ∷ Coordinate ∷ Small ∷ [])) blit3_by words.old }
{
    let rect = next_rect(words)?;
    let rop = next_rop(words)?;
    let image = next_small(words)?;
    let source = next_point(words)?;
    let brush = next_small(words)?;
    clipped(
        Shape::Blit3 {
            rect,
            rop,
            image,
            sx: source.x,
            sy: source.y,
            brush,
        },
        words,
    )
}

/// `line X0 Y0 X1 Y1 C`.
pub(crate) fn read_line(words: &mut Parts<'_>) -> Option<Drawing>
    ensures { result ≡ drawing_of with_clip line_fields line_by words.old }
{
    let from = next_point(words)?;
    let to = next_point(words)?;
    let color = next_color(words)?;
    clipped(
        Shape::Line {
            x0: from.x,
            y0: from.y,
            x1: to.x,
            y1: to.y,
            color,
        },
        words,
    )
}
