//! Reading a shape of a record: its number, and its fields, as `drawing` writes them.

ghost use Rattle.std.specs.Prelude.{◌≡◌, ℕ, ◌≤◌, true, IfOk};
ghost use Rattle.wire_num.specs.Cursor.{ReadsFields};
ghost use Rattle.draw_ops.specs.Ranges.{colors_of};
ghost use Rattle.px_core.specs.Colors.{are_colors};
ghost use Rattle.record_rules.specs.Tables.{glyph_bytes};
ghost use Rattle.record_rules.specs.Reading.{fill_at, dst_at, pat_at, copy_at, blit_at, blit3_at, text_at, line_at, save_at, restore_at, image_at, brush_at, glyph_at, shape_by, shape_at};
ghost use Rattle.record_file.specs.Reads.{ReadsOr};

use crate::drawing::{
    BLIT, BLIT3, COPY, DST, FILL, LINE, LOAD_BRUSH, LOAD_GLYPH, LOAD_IMAGE, PAT, RESTORE, SAVE,
    TEXT,
};
use crate::read_fault::BodyFault;
use crate::read_field::{
    read_byte_up_to, read_color, read_colors, read_pairs, read_point, read_rect, read_signed_byte,
};
use draw_ops::{Brush, Glyph, Image, Run, Shape, SharedBrush};
use std::alloc::Global;
use wire_num::{Cursor, Short};

/// The greatest number of a shape.
const LAST_SHAPE: u8 = 12;

/// The number of pixels of a brush.
const BRUSH_PIXELS: u16 = 64;

/// Reads a Fill: rectangle, colour.
#[tactic(auto, unfolding(record_rules::specs::Reading::fill_at))]
fn read_fill(cursor: &mut Cursor<'_>) -> Result<Shape, Short>
    ensures read { ReadsFields fill_at result cursor.old cursor.new }
    ensures colors { IfOk result (λ shape. are_colors (colors_of shape) ≡ true) }
{
    let rect = read_rect(cursor)?;
    let color = read_color(cursor)?;
    Ok(Shape::Fill { rect, color })
}

/// Reads a Dst: rectangle, rop.
#[tactic(auto, unfolding(record_rules::specs::Reading::dst_at))]
fn read_dst(cursor: &mut Cursor<'_>) -> Result<Shape, Short>
    ensures read { ReadsFields dst_at result cursor.old cursor.new }
    ensures colors { IfOk result (λ shape. are_colors (colors_of shape) ≡ true) }
{
    let rect = read_rect(cursor)?;
    let rop = cursor.u8()?;
    Ok(Shape::Dst { rect, rop })
}

/// Reads a Pat: rectangle, rop, brush.
#[tactic(auto, unfolding(record_rules::specs::Reading::pat_at))]
fn read_pat(cursor: &mut Cursor<'_>) -> Result<Shape, Short>
    ensures read { ReadsFields pat_at result cursor.old cursor.new }
    ensures colors { IfOk result (λ shape. are_colors (colors_of shape) ≡ true) }
{
    let rect = read_rect(cursor)?;
    let rop = cursor.u8()?;
    let brush = cursor.u8()?;
    Ok(Shape::Pat { rect, rop, brush })
}

/// Reads a Copy: rectangle, rop, sx, sy.
#[tactic(auto, unfolding(record_rules::specs::Reading::copy_at))]
fn read_copy(cursor: &mut Cursor<'_>) -> Result<Shape, Short>
    ensures read { ReadsFields copy_at result cursor.old cursor.new }
    ensures colors { IfOk result (λ shape. are_colors (colors_of shape) ≡ true) }
{
    let rect = read_rect(cursor)?;
    let rop = cursor.u8()?;
    let (sx, sy) = read_point(cursor)?;
    Ok(Shape::Copy { rect, rop, sx, sy })
}

/// Reads a Blit: rectangle, rop, image, sx, sy.
#[tactic(auto, unfolding(record_rules::specs::Reading::blit_at))]
fn read_blit(cursor: &mut Cursor<'_>) -> Result<Shape, Short>
    ensures read { ReadsFields blit_at result cursor.old cursor.new }
    ensures colors { IfOk result (λ shape. are_colors (colors_of shape) ≡ true) }
{
    let rect = read_rect(cursor)?;
    let rop = cursor.u8()?;
    let image = cursor.u8()?;
    let (sx, sy) = read_point(cursor)?;
    Ok(Shape::Blit {
        rect,
        rop,
        image,
        sx,
        sy,
    })
}

/// Reads a Blit3: rectangle, rop, image, sx, sy, brush.
#[tactic(auto, unfolding(record_rules::specs::Reading::blit3_at))]
fn read_blit3(cursor: &mut Cursor<'_>) -> Result<Shape, Short>
    ensures read { ReadsFields blit3_at result cursor.old cursor.new }
    ensures colors { IfOk result (λ shape. are_colors (colors_of shape) ≡ true) }
{
    let rect = read_rect(cursor)?;
    let rop = cursor.u8()?;
    let image = cursor.u8()?;
    let (sx, sy) = read_point(cursor)?;
    let brush = cursor.u8()?;
    Ok(Shape::Blit3 {
        rect,
        rop,
        image,
        sx,
        sy,
        brush,
    })
}

/// Reads a Text: x, y, colour, font, the number of pairs, the pairs.
#[tactic(auto, unfolding(record_rules::specs::Reading::text_at))]
fn read_text(alloc: Global, cursor: &mut Cursor<'_>) -> Result<Shape, BodyFault>
    ensures read { ReadsOr (λ shape. shape) text_at result cursor.old cursor.new }
    ensures colors { IfOk result (λ shape. are_colors (colors_of shape) ≡ true) }
{
    let (x, y) = read_point(cursor)?;
    let color = read_color(cursor)?;
    let font = cursor.u8()?;
    let count = cursor.u8()?;
    let pairs = read_pairs(alloc, cursor, count)?;
    let run = Run::new(alloc, &pairs)?;
    Ok(Shape::Text {
        x,
        y,
        color,
        font,
        run,
    })
}

/// Reads a Line: x0, y0, x1, y1, colour.
#[tactic(auto, unfolding(record_rules::specs::Reading::line_at))]
fn read_line(cursor: &mut Cursor<'_>) -> Result<Shape, Short>
    ensures read { ReadsFields line_at result cursor.old cursor.new }
    ensures colors { IfOk result (λ shape. are_colors (colors_of shape) ≡ true) }
{
    let (x0, y0) = read_point(cursor)?;
    let (x1, y1) = read_point(cursor)?;
    let color = read_color(cursor)?;
    Ok(Shape::Line {
        x0,
        y0,
        x1,
        y1,
        color,
    })
}

/// Reads a Save: slot, rectangle.
#[tactic(auto, unfolding(record_rules::specs::Reading::save_at))]
fn read_save(cursor: &mut Cursor<'_>) -> Result<Shape, Short>
    ensures read { ReadsFields save_at result cursor.old cursor.new }
    ensures colors { IfOk result (λ shape. are_colors (colors_of shape) ≡ true) }
{
    let slot = cursor.u8()?;
    let rect = read_rect(cursor)?;
    Ok(Shape::Save { slot, rect })
}

/// Reads a Restore: slot, x, y.
#[tactic(auto, unfolding(record_rules::specs::Reading::restore_at))]
fn read_restore(cursor: &mut Cursor<'_>) -> Result<Shape, Short>
    ensures read { ReadsFields restore_at result cursor.old cursor.new }
    ensures colors { IfOk result (λ shape. are_colors (colors_of shape) ≡ true) }
{
    let slot = cursor.u8()?;
    let (x, y) = read_point(cursor)?;
    Ok(Shape::Restore { slot, x, y })
}

/// Reads a LoadImage: slot, w, h, the colours of the pixels.
#[tactic(auto, unfolding(record_rules::specs::Reading::image_at))]
fn read_image(alloc: Global, cursor: &mut Cursor<'_>) -> Result<Shape, BodyFault>
    ensures read { ReadsOr (λ shape. shape) image_at result cursor.old cursor.new }
    ensures colors { IfOk result (λ shape. are_colors (colors_of shape) ≡ true) }
{
    let slot = cursor.u8()?;
    let w = u16::from(cursor.u8()?);
    let h = u16::from(cursor.u8()?);
    let pixels = read_colors(alloc, cursor, w * h)?;
    let image = Image::new(alloc, w, h, &pixels)?;
    Ok(Shape::LoadImage { slot, image })
}

/// Reads a LoadBrush: slot, 64 colours.
#[tactic(auto, unfolding(record_rules::specs::Reading::brush_at))]
fn read_brush(alloc: Global, cursor: &mut Cursor<'_>) -> Result<Shape, BodyFault>
    ensures read { ReadsOr (λ shape. shape) brush_at result cursor.old cursor.new }
    ensures colors { IfOk result (λ shape. are_colors (colors_of shape) ≡ true) }
{
    let slot = cursor.u8()?;
    let pixels = read_colors(alloc, cursor, BRUSH_PIXELS)?;
    let brush = SharedBrush::new(alloc, Brush::new(&pixels))?;
    Ok(Shape::LoadBrush { slot, brush })
}

/// The bytes of a glyph's rows, each padded to a byte.
fn glyph_bytes(cx: u8, cy: u8) -> usize
    ensures { result ≡ glyph_bytes cx cy }
{
    (usize::from(cx) + 7) / 8 * usize::from(cy)
}

/// Reads a LoadGlyph: font, code, x, y, cx, cy, the bytes of the rows.
#[tactic(auto, unfolding(record_rules::specs::Reading::glyph_at))]
fn read_glyph(alloc: Global, cursor: &mut Cursor<'_>) -> Result<Shape, BodyFault>
    ensures read { ReadsOr (λ shape. shape) glyph_at result cursor.old cursor.new }
    ensures colors { IfOk result (λ shape. are_colors (colors_of shape) ≡ true) }
{
    let font = cursor.u8()?;
    let code = cursor.u8()?;
    let x = read_signed_byte(cursor)?;
    let y = read_signed_byte(cursor)?;
    let cx = cursor.u8()?;
    let cy = cursor.u8()?;
    let bits = cursor.bytes(glyph_bytes(cx, cy))?;
    let glyph = Glyph::new(alloc, x, y, u16::from(cx), u16::from(cy), bits)?;
    Ok(Shape::LoadGlyph { font, code, glyph })
}

/// Reads the fields of the shape of a number.
#[tactic(auto, unfolding(record_rules::specs::Reading::shape_by))]
fn read_shape_by(alloc: Global, number: u8, cursor: &mut Cursor<'_>) -> Result<Shape, BodyFault>
    requires { number ≤ 12 }
    ensures read { ReadsOr (λ shape. shape) (shape_by number) result cursor.old cursor.new }
    ensures colors { IfOk result (λ shape. are_colors (colors_of shape) ≡ true) }
{
    match u32::from(number) {
        FILL => Ok(read_fill(cursor)?),
        DST => Ok(read_dst(cursor)?),
        PAT => Ok(read_pat(cursor)?),
        COPY => Ok(read_copy(cursor)?),
        BLIT => Ok(read_blit(cursor)?),
        BLIT3 => Ok(read_blit3(cursor)?),
        TEXT => read_text(alloc, cursor),
        LINE => Ok(read_line(cursor)?),
        SAVE => Ok(read_save(cursor)?),
        RESTORE => Ok(read_restore(cursor)?),
        LOAD_IMAGE => read_image(alloc, cursor),
        LOAD_BRUSH => read_brush(alloc, cursor),
        _ => read_glyph(alloc, cursor),
    }
}

/// Reads a shape: its number and its fields.
#[tactic(auto, unfolding(record_rules::specs::Reading::shape_at))]
pub fn read_shape(alloc: Global, cursor: &mut Cursor<'_>) -> Result<Shape, BodyFault>
    ensures read { ReadsOr (λ shape. shape) shape_at result cursor.old cursor.new }
    ensures colors { IfOk result (λ shape. are_colors (colors_of shape) ≡ true) }
{
    let number = read_byte_up_to(cursor, LAST_SHAPE)?;
    read_shape_by(alloc, number, cursor)
}
