//! Glyphs, bit by bit within what is seen of their cells.
ghost use Rattle.std.specs.Prelude.{◌≡◌, ℕ, ◌+◌, ◌*◌, ◌/◌, ◌<◌, ◌≤◌, None, pos, ◌≤ℤ◌, negsuc, length, get_or, [], ◌∷◌, if◌then◌else◌};
ghost use Rattle.px_core.specs.Picture.{both, painted};
ghost use Rattle.px_core.specs.Rectangle.{in_clip, IsPlaced};
ghost use Rattle.rop3_core.specs.Palette.{session_colors};
ghost use Rattle.draw_ops.specs.Fits.{clip_rule, glyph_rule};
ghost use Rattle.draw_ops.specs.Formulas.{glyph_area, glyph_cell, solid};
ghost use Rattle.surface_parts.specs.Parts.{in_part, IsCanvas, IsInside, IsRepainted};
ghost use Rattle.surface_parts.specs.Bits.{is_row_bit, ink_color, HasBits, IsPenNear};

use crate::part::{Part, visible};
use crate::text::Script;
use crate::texture::source_place;
use crate::window::Window;
use draw_ops::Glyph;
use px_core::{Rect, Size};

/// The bits of a byte.
const BYTE_BITS: usize = 8;

/// The place of a byte's highest bit, which is the left one.
const HIGHEST_BIT: usize = 7;

/// The rows of a glyph, and which of its bits belongs to the upper left pixel of a part.
#[derive(Clone, Copy)]
pub struct Bits<'a> {
    pub bytes: &'a [u8],
    pub row_bytes: usize,
    pub column: usize,
    pub row: usize,
}

/// Gives the pixels of a part one colour whose bit is one.
pub fn draw_bits(pixels: &mut [u32], size: Size, part: Part, bits: Bits, color: u32)
    requires canvas { IsCanvas size pixels.old }
    requires inside { IsInside size part }
    requires bits { HasBits part bits }
    ensures { IsRepainted size (in_part part) (ink_color size pixels.old part bits.entry color) pixels.old pixels.new }
{
    let width = size.w as usize;
    for y in part.y..part.y + part.h {
        let from = bits.row_bytes * (bits.row + (y - part.y));
        let at = width * y + part.x;
        draw_bit_row(
            &mut pixels[at..at + part.w],
            &bits.bytes[from..from + bits.row_bytes],
            bits.column,
            color,
        );
    }
}

/// Gives the pixels of a row one colour whose bit, from a column of the glyph on, is one.
pub fn draw_bit_row(row: &mut [u32], bytes: &[u8], column: usize, color: u32)
    requires small { column + length row.old ≤ 8 * length bytes.now }
    requires few { length bytes.now ≤ 65536 }
    ensures { (k : ℕ) → k < length row.old → get_or row.new k 0 ≡ (if is_row_bit bytes.now (column + k) then color else get_or row.old k 0) }
{
    let mut done = 0;
    while done < row.len() {
        let at = column + done;
        let first = at % BYTE_BITS;
        let n = (BYTE_BITS - first).min(row.len() - done);
        let byte = bytes[at / BYTE_BITS];
        if byte != 0 {
            draw_byte(&mut row[done..done + n], byte, first, color);
        }
        done += n;
    }
}

/// Gives the pixels of a row one colour whose bit, from a column of a byte on, is one.
///
/// The bits are moved to the left, so that the bit of each pixel comes to the same place.
fn draw_byte(pixels: &mut [u32], byte: u8, first: usize, color: u32)
    requires within { first + length pixels.old ≤ 8 }
    ensures { (k : ℕ) → k < length pixels.old → get_or pixels.new k 0 ≡ (if is_row_bit (byte ∷ []) (first + k) then color else get_or pixels.old k 0) }
{
    let mut bits = u32::from(byte) << first;
    for k in 0..pixels.len() {
        if (bits >> HIGHEST_BIT) % 2 == 1 {
            pixels[k] = color;
        }
        bits *= 2;
    }
}

/// The cell of a glyph that a pen at (x, y) draws.
pub fn cell_of(glyph: &Glyph, x: i32, y: i32) -> Rect
    requires rule { glyph_rule glyph.now ≡ None }
    requires pen { IsPenNear x y }
    ensures cell { result ≡ glyph_cell glyph.now x y }
    ensures placed { IsPlaced result }
{
    Rect {
        x: x + glyph.x(),
        y: y + glyph.y(),
        w: u32::from(glyph.cx()),
        h: u32::from(glyph.cy()),
    }
}

/// Gives the pixels of a glyph's one bits one colour, with the pen at its place.
pub fn draw_glyph(pixels: &mut [u32], window: Window, glyph: &Glyph, pen: Script)
    requires canvas { IsCanvas window.size pixels.old }
    requires clip { clip_rule window.size window.clip ≡ None }
    requires rule { glyph_rule glyph.now ≡ None }
    requires pen { IsPenNear pen.x pen.y }
    ensures { pixels.new ≡ painted window.size (both (in_clip window.clip) (glyph_area (Some glyph.now) pen.x pen.y)) (solid session_colors pen.color) pixels.old }
{
    let cell = cell_of(glyph, pen.x, pen.y);
    match visible(window, cell) {
        None => {}
        Some(part) => {
            let bits = Bits {
                bytes: glyph.bits(),
                row_bytes: (usize::from(glyph.cx()) + HIGHEST_BIT) / BYTE_BITS,
                column: source_place(part.x, cell.x, 0),
                row: source_place(part.y, cell.y, 0),
            };
            draw_bits(pixels, window.size, part, bits, pen.color)
        }
    }
}
