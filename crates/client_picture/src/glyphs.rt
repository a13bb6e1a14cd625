//! Glyphs, bit by bit within what is seen of their cells.
ghost use Rattle.std.specs.Prelude.{◌≡◌, ℕ, ◌+◌, ◌*◌, ◌/◌, ◌<◌, ◌≤◌, Some, None, length, get_or, if◌then◌else◌};
ghost use Rattle.px_core.specs.Picture.{both, painted};
ghost use Rattle.px_core.specs.Rectangle.{in_rect, in_clip};
ghost use Rattle.rop3_core.specs.Palette.{client_colors};
ghost use Rattle.draw_ops.specs.Formulas.{glyph_area, glyph_cell, solid};
ghost use Rattle.client_picture.specs.Parts.{in_part, IsCanvas, IsInside, IsRepainted};
ghost use Rattle.client_picture.specs.Bits.{is_ink, ink_color, AreSmall, IsPenNear};
ghost use Rattle.client_picture.specs.Touched.{AddsRows, Widens};

use crate::corner::{Corner, place};
use crate::frame::Frame;
use crate::part::{Part, part_at};
use crate::touched::touch_at;
use crate::{Color, Pixel};
use draw_ops::Glyph;
use px_core::{Rect, Size};

/// The bits of a byte.
const BYTE_BITS: usize = 8;

/// The place of a byte's highest bit, which is the left one.
const HIGHEST_BIT: usize = 7;

/// The rows of a glyph, each of so many bytes, and which of its bits belongs to the upper left pixel of a part.
#[derive(Clone, Copy)]
pub(crate) struct Bits<'a> {
    pub(crate) bytes: &'a [u8],
    pub(crate) row_bytes: usize,
    pub(crate) from: Corner,
}

/// Gives the pixels of a part one colour whose bit is one.
pub(crate) fn draw_bits(pixels: &mut [Pixel], size: Size, part: Part, bits: Bits, color: Color)
    requires canvas { IsCanvas size pixels.old }
    requires inside { IsInside size part }
    requires small { AreSmall part bits }
    ensures { IsRepainted size (in_part part) (ink_color size pixels.old part bits.entry color) pixels.old pixels.new }
{
    let width = size.w as usize;
    for y in part.y..part.y + part.h {
        let at = width * y + part.x;
        let row = bits.from.y + (y - part.y);
        draw_bit_row(&mut pixels[at..at + part.w], bits, row, color);
    }
}

/// Gives the pixels of a row one colour whose bit in this row of the glyph is one.
fn draw_bit_row(row: &mut [Pixel], bits: Bits, at: usize, color: Color)
    requires columns { bits.from.x + length row.old ≤ 65535 }
    requires rows { at ≤ 65535 }
    requires narrow { bits.row_bytes ≤ 8192 }
    ensures { (k : ℕ) → k < length row.old
        → get_or row.new k None ≡ (if is_ink bits.entry.bytes.now bits.entry.row_bytes
        (bits.entry.from.x + k) at then Some color else get_or row.old k None) }
{
    let pixel = Pixel::known(color);
    for k in 0..row.len() {
        if has_ink(bits, bits.from.x + k, at) {
            row[k] = pixel;
        }
    }
}

/// Whether the bit of a column and a row is one.
fn has_ink(bits: Bits, column: usize, row: usize) -> bool
    requires column { column ≤ 65535 }
    requires row { row ≤ 65535 }
    requires narrow { bits.row_bytes ≤ 8192 }
    ensures { result ≡ is_ink bits.entry.bytes.now bits.entry.row_bytes column row }
{
    let byte = match bits.bytes.get(bits.row_bytes * row + column / BYTE_BITS) {
        None => 0,
        Some(byte) => *byte,
    };
    (byte >> (HIGHEST_BIT - column % BYTE_BITS)) % 2 == 1
}

/// Gives the pixels of a glyph's one bits one colour, with the pen at (x, y).
pub(crate) fn draw_glyph(
    pixels: &mut [Pixel],
    size: Size,
    bounds: Option<Rect>,
    glyph: &Glyph,
    x: i64,
    y: i64,
    color: Color,
)
    requires canvas { IsCanvas size pixels.old }
    requires pen { IsPenNear x y }
    ensures { pixels.new ≡ painted size (both (in_clip bounds) (glyph_area (Some glyph.now) x y)) (solid client_colors color) pixels.old }
{
    let left = x + i64::from(glyph.x());
    let top = y + i64::from(glyph.y());
    let w = u32::from(glyph.cx());
    match part_at(size, left, top, w, u32::from(glyph.cy()), bounds) {
        None => {}
        Some(part) => {
            let bits = Bits {
                bytes: glyph.bits(),
                row_bytes: (w as usize + HIGHEST_BIT) / BYTE_BITS,
                from: Corner {
                    x: place(part.x, left, 0),
                    y: place(part.y, top, 0),
                },
            };
            draw_bits(pixels, size, part, bits, color)
        }
    }
}

/// Remembers that the pixels of a glyph's cell may have been painted, with the pen at (x, y).
pub(crate) fn touch_glyph(
    touched: &mut [bool],
    frame: &mut Frame,
    size: Size,
    bounds: Option<Rect>,
    glyph: &Glyph,
    x: i64,
    y: i64,
)
    requires flags { length touched.old ≡ size.h }
    requires pen { IsPenNear x y }
    ensures rows { AddsRows size (both (in_clip bounds) (in_rect (glyph_cell glyph.now x y))) touched.old touched.new }
    ensures frame { Widens size (both (in_clip bounds) (in_rect (glyph_cell glyph.now x y))) frame.old frame.new }
{
    let left = x + i64::from(glyph.x());
    let top = y + i64::from(glyph.y());
    touch_at(
        touched,
        frame,
        size,
        left,
        top,
        u32::from(glyph.cx()),
        u32::from(glyph.cy()),
        bounds,
    )
}
