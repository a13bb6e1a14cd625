//! A drawing of a record: its clip, its shape's number, and the shape's fields.
//!
//! | number | shape | fields |
//! |---|---|---|
//! | 0 | Fill | rectangle, colour |
//! | 1 | Dst | rectangle, rop |
//! | 2 | Pat | rectangle, rop, brush |
//! | 3 | Copy | rectangle, rop, sx, sy |
//! | 4 | Blit | rectangle, rop, image, sx, sy |
//! | 5 | Blit3 | rectangle, rop, image, sx, sy, brush |
//! | 6 | Text | x, y, colour, font, the number of pairs 1, the pairs: code 1, delta 1 |
//! | 7 | Line | x0, y0, x1, y1, colour |
//! | 8 | Save | slot, rectangle |
//! | 9 | Restore | slot, x, y |
//! | 10 | LoadImage | slot, w 1, h 1, the colours row by row from the top |
//! | 11 | LoadBrush | slot, 64 colours row by row from the top |
//! | 12 | LoadGlyph | font, code, x 1 and y 1 (signed), cx 1, cy 1, the bytes of the rows from the top |
//!
//! A rectangle has x 2 and y 2 (signed), w 2 and h 2; other coordinates have 2 bytes, signed; a colour has 3 bytes; codes, fonts and
//! slots have 1.

ghost use Rattle.std.specs.Prelude.{◌≡◌, ◌+◌, ◌++◌, ◌∷◌, [], length, OnOk, OnErr, IsTrue, ◌≤◌};
ghost use Rattle.wire_num.specs.Written.{AppendsFront};
ghost use Rattle.draw_ops.specs.declared.shape.Shape.TheVariants.{Copy, Blit, Blit3};
ghost use Rattle.record_rules.specs.declared.field.Field.TheVariants.{Byte, SignedShort, Short};
ghost use Rattle.record_rules.specs.Fields.{fields_bytes, are_in_place};
ghost use Rattle.record_rules.specs.Tables.{clip_fields, shape_fields, shape_rest};

use crate::OutOfMemory;
use crate::gathered::Gathered;
use crate::put::{put_bytes, put_colors, put_fields, put_pairs};
use draw_ops::{Drawing, Shape};
use px_core::Rect;
use record_rules::Field;

/// The numbers of the shapes.
pub const FILL: u32 = 0;

pub const DST: u32 = 1;

pub const PAT: u32 = 2;

pub const COPY: u32 = 3;

pub const BLIT: u32 = 4;

pub const BLIT3: u32 = 5;

pub const TEXT: u32 = 6;

pub const LINE: u32 = 7;

pub const SAVE: u32 = 8;

pub const RESTORE: u32 = 9;

pub const LOAD_IMAGE: u32 = 10;

pub const LOAD_BRUSH: u32 = 11;

pub const LOAD_GLYPH: u32 = 12;

/// How many bytes a rectangle has.
const RECT_SIZE: usize = 8;

/// How many bytes the place of a point has.
const POINT_SIZE: usize = 4;

/// How many bytes a colour has.
const COLOR_SIZE: usize = 3;

/// How many bytes a pair of a run has.
const PAIR_SIZE: usize = 2;

/// A number of one byte.
fn byte(n: u8) -> Field
    ensures { result ≡ Byte n }
{
    Field::Byte(u32::from(n))
}

/// The four fields of a rectangle.
fn rect_fields(r: Rect) -> (Field, Field, Field, Field)
    ensures { result ≡ (SignedShort r.x, SignedShort r.y, Short r.w, Short r.h) }
{
    (
        Field::SignedShort(r.x),
        Field::SignedShort(r.y),
        Field::Short(r.w),
        Field::Short(r.h),
    )
}

/// The fields of a Copy.
fn copy_fields(r: Rect, rop: u8, sx: i32, sy: i32) -> [Field; 8]
    ensures { result ≡ shape_fields (Copy r rop sx sy) }
{
    let (x, y, w, h) = rect_fields(r);
    [
        Field::Byte(COPY),
        x,
        y,
        w,
        h,
        byte(rop),
        Field::SignedShort(sx),
        Field::SignedShort(sy),
    ]
}

/// The fields of a Blit.
fn blit_fields(r: Rect, rop: u8, image: u8, sx: i32, sy: i32) -> [Field; 9]
    ensures { result ≡ shape_fields (Blit r rop image sx sy) }
{
    let (x, y, w, h) = rect_fields(r);
    [
        Field::Byte(BLIT),
        x,
        y,
        w,
        h,
        byte(rop),
        byte(image),
        Field::SignedShort(sx),
        Field::SignedShort(sy),
    ]
}

/// The fields of a Blit3.
fn blit3_fields(r: Rect, rop: u8, image: u8, sx: i32, sy: i32, brush: u8) -> [Field; 10]
    ensures { result ≡ shape_fields (Blit3 r rop image sx sy brush) }
{
    let (x, y, w, h) = rect_fields(r);
    [
        Field::Byte(BLIT3),
        x,
        y,
        w,
        h,
        byte(rop),
        byte(image),
        Field::SignedShort(sx),
        Field::SignedShort(sy),
        byte(brush),
    ]
}

/// Puts the flag of a clip, and the clip, behind the others.
fn put_clip(out: &mut Gathered, clip: Option<Rect>)
    requires place { IsTrue (are_in_place (clip_fields clip)) }
    requires room { length out.old ≤ 52 }
    ensures fields { out.new ≡ out.old ++ fields_bytes (clip_fields clip) }
    ensures size { length out.new ≤ length out.old + 20 }
{
    match clip {
        None => put_fields(out, &[Field::Byte(0)]),
        Some(r) => {
            let (x, y, w, h) = rect_fields(r);
            put_fields(out, &[Field::Byte(1), x, y, w, h])
        }
    }
}

/// How many bytes the flag of a clip and the clip have.
fn clip_length(clip: Option<Rect>) -> usize
    ensures { result ≡ length (fields_bytes (clip_fields clip)) }
{
    match clip {
        None => 1,
        Some(_) => 1 + RECT_SIZE,
    }
}

/// Puts a shape's number and its fields behind the others, up to what stands behind them.
fn put_shape_fields(out: &mut Gathered, shape: &Shape)
    requires place { IsTrue (are_in_place (shape_fields shape.now)) }
    requires room { length out.old ≤ 32 }
    ensures { out.new ≡ out.old ++ fields_bytes (shape_fields shape.now) }
{
    match shape {
        Shape::Fill { rect, color } => {
            let (x, y, w, h) = rect_fields(*rect);
            put_fields(out, &[Field::Byte(FILL), x, y, w, h, Field::Color(*color)])
        }
        Shape::Dst { rect, rop } => {
            let (x, y, w, h) = rect_fields(*rect);
            put_fields(out, &[Field::Byte(DST), x, y, w, h, byte(*rop)])
        }
        Shape::Pat { rect, rop, brush } => {
            let (x, y, w, h) = rect_fields(*rect);
            put_fields(
                out,
                &[Field::Byte(PAT), x, y, w, h, byte(*rop), byte(*brush)],
            )
        }
        Shape::Copy { rect, rop, sx, sy } => {
            put_fields(out, &copy_fields(*rect, *rop, *sx, *sy))
        }
        Shape::Blit {
            rect,
            rop,
            image,
            sx,
            sy,
        } => put_fields(out, &blit_fields(*rect, *rop, *image, *sx, *sy)),
        Shape::Blit3 {
            rect,
            rop,
            image,
            sx,
            sy,
            brush,
        } => put_fields(out, &blit3_fields(*rect, *rop, *image, *sx, *sy, *brush)),
        Shape::Text {
            x,
            y,
            color,
            font,
            run,
        } => put_fields(
            out,
            &[
                Field::Byte(TEXT),
                Field::SignedShort(*x),
                Field::SignedShort(*y),
                Field::Color(*color),
                byte(*font),
                Field::Byte(run.pairs().len() as u32),
            ],
        ),
        Shape::Line {
            x0,
            y0,
            x1,
            y1,
            color,
        } => put_fields(
            out,
            &[
                Field::Byte(LINE),
                Field::SignedShort(*x0),
                Field::SignedShort(*y0),
                Field::SignedShort(*x1),
                Field::SignedShort(*y1),
                Field::Color(*color),
            ],
        ),
        Shape::Save { slot, rect } => {
            let (x, y, w, h) = rect_fields(*rect);
            put_fields(out, &[Field::Byte(SAVE), byte(*slot), x, y, w, h])
        }
        Shape::Restore { slot, x, y } => {
            let (x, y) = (Field::SignedShort(*x), Field::SignedShort(*y));
            put_fields(out, &[Field::Byte(RESTORE), byte(*slot), x, y])
        }
        Shape::LoadImage { slot, image } => {
            let (w, h) = (
                Field::Byte(u32::from(image.w())),
                Field::Byte(u32::from(image.h())),
            );
            put_fields(out, &[Field::Byte(LOAD_IMAGE), byte(*slot), w, h])
        }
        Shape::LoadBrush { slot, .. } => put_fields(out, &[Field::Byte(LOAD_BRUSH), byte(*slot)]),
        Shape::LoadGlyph { font, code, glyph } => put_fields(
            out,
            &[
                Field::Byte(LOAD_GLYPH),
                byte(*font),
                byte(*code),
                Field::SignedByte(glyph.x()),
                Field::SignedByte(glyph.y()),
                Field::Byte(u32::from(glyph.cx())),
                Field::Byte(u32::from(glyph.cy())),
            ],
        ),
    }
}

/// How many bytes a shape's number and its fields have, up to what stands behind them.
fn shape_length(shape: &Shape) -> usize
    ensures { result ≡ length (fields_bytes (shape_fields shape.now)) }
{
    match shape {
        Shape::Fill { .. } => 1 + RECT_SIZE + COLOR_SIZE,
        Shape::Dst { .. } => 1 + RECT_SIZE + 1,
        Shape::Pat { .. } => 1 + RECT_SIZE + 2,
        Shape::Copy { .. } => 1 + RECT_SIZE + 1 + POINT_SIZE,
        Shape::Blit { .. } => 1 + RECT_SIZE + 2 + POINT_SIZE,
        Shape::Blit3 { .. } => 1 + RECT_SIZE + 3 + POINT_SIZE,
        Shape::Text { .. } => 1 + POINT_SIZE + COLOR_SIZE + 2,
        Shape::Line { .. } => 1 + 2 * POINT_SIZE + COLOR_SIZE,
        Shape::Save { .. } => 2 + RECT_SIZE,
        Shape::Restore { .. } => 2 + POINT_SIZE,
        Shape::LoadImage { .. } => 4,
        Shape::LoadBrush { .. } => 2,
        Shape::LoadGlyph { .. } => 7,
    }
}

/// Writes what stands behind a shape's fields at the end. An `Err` leaves a front of it there.
pub fn put_shape_rest(out: &mut Vec<u8>, shape: &Shape) -> Result<(), OutOfMemory>
    ensures ok { OnOk result (out.new.items ≡ out.old.items ++ shape_rest shape.now) }
    ensures memory { OnErr result (AppendsFront out.old.items (shape_rest shape.now) out.new.items) }
{
    match shape {
        Shape::Text { run, .. } => put_pairs(out, run.pairs()),
        Shape::LoadImage { image, .. } => put_colors(out, image.pixels()),
        Shape::LoadBrush { brush, .. } => put_colors(out, brush.brush().pixels()),
        Shape::LoadGlyph { glyph, .. } => put_bytes(out, glyph.bits()),
        Shape::Fill { .. }
        | Shape::Dst { .. }
        | Shape::Pat { .. }
        | Shape::Copy { .. }
        | Shape::Blit { .. }
        | Shape::Blit3 { .. }
        | Shape::Line { .. }
        | Shape::Save { .. }
        | Shape::Restore { .. } => put_bytes(out, &[]),
    }
}

/// How many bytes stand behind a shape's fields.
fn rest_length(shape: &Shape) -> usize
    requires { length (shape_rest shape.now) ≤ 65535 }
    ensures { result ≡ length (shape_rest shape.now) }
{
    match shape {
        Shape::Text { run, .. } => PAIR_SIZE * run.pairs().len(),
        Shape::LoadImage { image, .. } => COLOR_SIZE * image.pixels().len(),
        Shape::LoadBrush { brush, .. } => COLOR_SIZE * brush.brush().pixels().len(),
        Shape::LoadGlyph { glyph, .. } => glyph.bits().len(),
        Shape::Fill { .. }
        | Shape::Dst { .. }
        | Shape::Pat { .. }
        | Shape::Copy { .. }
        | Shape::Blit { .. }
        | Shape::Blit3 { .. }
        | Shape::Line { .. }
        | Shape::Save { .. }
        | Shape::Restore { .. } => 0,
    }
}

/// Puts the fields of a drawing behind the others, up to what stands behind them.
pub fn put_drawing_fields(out: &mut Gathered, d: &Drawing)
    requires place { IsTrue (are_in_place (clip_fields d.now.clip ++ shape_fields d.now.shape)) }
    requires room { length out.old ≤ 12 }
    ensures { out.new ≡ out.old ++ fields_bytes (clip_fields d.now.clip ++ shape_fields d.now.shape) }
{
    put_clip(out, d.clip);
    put_shape_fields(out, &d.shape);
}

/// How many bytes a drawing has.
pub fn drawing_length(d: &Drawing) -> usize
    requires { length (shape_rest d.now.shape) ≤ 65535 }
    ensures { result ≡ length (fields_bytes (clip_fields d.now.clip ++ shape_fields d.now.shape) ++ shape_rest d.now.shape) }
{
    clip_length(d.clip) + shape_length(&d.shape) + rest_length(&d.shape)
}
