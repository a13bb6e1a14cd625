//! Drawings, by the numbers that are drawn.

ghost use Rattle.std.specs.Prelude.{◌≡◌, ◌<◌, true, pos, IfOk, OnOk};
ghost use Rattle.px_core.specs.Colors.{are_colors};
ghost use Rattle.draw_ops.specs.Ranges.{colors_of};
ghost use Rattle.demo_run.specs.Steps.{fill_drawn, copy_drawn, dst_drawn, line_or_pixel, line_drawn, pat_drawn, blit_drawn, text_drawn, save_drawn};
ghost use Rattle.demo_run.specs.Steps.{restore_drawn};

use crate::OutOfMemory;
use crate::numbers::below;
use crate::rects::{COLUMNS, ROWS, inner_rect, pixel, rect};
use draw_ops::{Run, Shape};
use px_core::Rect;
use rand_pcg::Lcg64Xsh32;
use std::alloc::Global;

/// How many colours there are.
const COLORS: u32 = 1 << 24;

/// White, and green.
const WHITE: u32 = 0xFFFFFF;

const GREEN: u32 = 0x00FF00;

/// The raster operations that copy, invert, and mix with a pattern ([MS-RDPEGDI] 2.2.2.2.1.1.1.7).
const SRCCOPY: u8 = 0xCC;

const DSTINVERT: u8 = 0x55;

const PATINVERT: u8 = 0x5A;

/// How many slots are used: of images and of glyphs, and of brushes and of saved rectangles.
const IMAGES: u32 = 8;

const BRUSHES: u32 = 4;

/// The side of an image in pixels.
const IMAGE_SIDE: u32 = 16;

/// How far a glyph moves the pen to the right, in pixels.
const ADVANCE: u8 = 8;

/// A rectangle in one colour.
pub(crate) fn fill(words: &mut Lcg64Xsh32) -> Shape
    ensures value { result ≡ (fill_drawn words.old).value }
    ensures after { words.new ≡ (fill_drawn words.old).after }
    ensures colors { are_colors (colors_of result) ≡ true }
{
    let rect = rect(words);
    let color = below(words, COLORS);
    Shape::Fill { rect, color }
}

/// A copy within the picture.
pub(crate) fn copy(words: &mut Lcg64Xsh32) -> Shape
    ensures value { result ≡ (copy_drawn words.old).value }
    ensures after { words.new ≡ (copy_drawn words.old).after }
    ensures colors { are_colors (colors_of result) ≡ true }
{
    let source = inner_rect(words);
    let (x, y) = pixel(words);
    Shape::Copy {
        rect: Rect {
            x,
            y,
            w: source.w,
            h: source.h,
        },
        rop: SRCCOPY,
        sx: source.x,
        sy: source.y,
    }
}

/// A rectangle that is inverted.
pub(crate) fn dst(words: &mut Lcg64Xsh32) -> Shape
    ensures value { result ≡ (dst_drawn words.old).value }
    ensures after { words.new ≡ (dst_drawn words.old).after }
    ensures colors { are_colors (colors_of result) ≡ true }
{
    Shape::Dst {
        rect: rect(words),
        rop: DSTINVERT,
    }
}

/// A line.
pub(crate) fn line(words: &mut Lcg64Xsh32) -> Shape
    ensures value { result ≡ (line_drawn words.old).value }
    ensures after { words.new ≡ (line_drawn words.old).after }
    ensures colors { are_colors (colors_of result) ≡ true }
{
    let x0 = below(words, COLUMNS);
    let y0 = below(words, ROWS);
    let x1 = below(words, COLUMNS);
    let y1 = below(words, ROWS);
    line_or_pixel(x0, y0, x1, y1)
}

/// A green line, or one pixel in place of a straight one.
fn line_or_pixel(x0: u32, y0: u32, x1: u32, y1: u32) -> Shape
    requires { (x0 < 256) × (y0 < 256) × (x1 < 256) × (y1 < 256) }
    ensures value { result ≡ line_or_pixel x0 y0 x1 y1 }
    ensures colors { are_colors (colors_of result) ≡ true }
{
    let (x, y) = (x0 as i32, y0 as i32);
    if x0 == x1 || y0 == y1 {
        Shape::Fill {
            rect: Rect { x, y, w: 1, h: 1 },
            color: GREEN,
        }
    } else {
        Shape::Line {
            x0: x,
            y0: y,
            x1: x1 as i32,
            y1: y1 as i32,
            color: GREEN,
        }
    }
}

/// A brush.
pub(crate) fn pat(words: &mut Lcg64Xsh32) -> Shape
    ensures value { result ≡ (pat_drawn words.old).value }
    ensures after { words.new ≡ (pat_drawn words.old).after }
    ensures colors { are_colors (colors_of result) ≡ true }
{
    let rect = rect(words);
    let brush = below(words, BRUSHES);
    Shape::Pat {
        rect,
        rop: PATINVERT,
        brush: brush as u8,
    }
}

/// An image.
pub(crate) fn blit(words: &mut Lcg64Xsh32) -> Shape
    ensures value { result ≡ (blit_drawn words.old).value }
    ensures after { words.new ≡ (blit_drawn words.old).after }
    ensures colors { are_colors (colors_of result) ≡ true }
{
    let (x, y) = pixel(words);
    let image = below(words, IMAGES);
    Shape::Blit {
        rect: Rect {
            x,
            y,
            w: IMAGE_SIDE,
            h: IMAGE_SIDE,
        },
        rop: SRCCOPY,
        image: image as u8,
        sx: 0,
        sy: 0,
    }
}

/// Three glyphs, side by side.
pub(crate) fn text(alloc: Global, words: &mut Lcg64Xsh32) -> Result<Shape, OutOfMemory>
    ensures value { IfOk result (λ shape. shape ≡ (text_drawn words.old).value) }
    ensures after { OnOk result (words.new ≡ (text_drawn words.old).after) }
    ensures colors { IfOk result (λ shape. are_colors (colors_of shape) ≡ true) }
{
    let (x, y) = pixel(words);
    let first = below(words, IMAGES);
    let second = below(words, IMAGES);
    let third = below(words, IMAGES);
    let run = Run::new(
        alloc,
        &[
            (first as u8, 0),
            (second as u8, ADVANCE),
            (third as u8, ADVANCE),
        ],
    )?;
    Ok(Shape::Text {
        x,
        y,
        color: WHITE,
        font: 0,
        run,
    })
}

/// A rectangle is kept in a slot.
pub(crate) fn save(words: &mut Lcg64Xsh32) -> Shape
    ensures value { result ≡ (save_drawn words.old).value }
    ensures after { words.new ≡ (save_drawn words.old).after }
    ensures colors { are_colors (colors_of result) ≡ true }
{
    let slot = below(words, BRUSHES);
    Shape::Save {
        slot: slot as u8,
        rect: inner_rect(words),
    }
}

/// What a slot keeps is put back in the upper left corner.
pub(crate) fn restore(words: &mut Lcg64Xsh32) -> Shape
    ensures value { result ≡ (restore_drawn words.old).value }
    ensures after { words.new ≡ (restore_drawn words.old).after }
    ensures colors { are_colors (colors_of result) ≡ true }
{
    let slot = below(words, BRUSHES);
    Shape::Restore {
        slot: slot as u8,
        x: 0,
        y: 0,
    }
}
