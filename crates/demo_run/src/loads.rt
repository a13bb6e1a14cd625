//! What the first viewer loads.

ghost use Rattle.std.specs.Prelude.{◌≡◌, ◌<◌, ◌≤◌, ◌+◌, ◌*◌, ◌/◌, ◌%◌, true, IfOk};
ghost use Rattle.px_core.specs.Colors.{are_colors};
ghost use Rattle.draw_ops.specs.Ranges.{colors_of};
ghost use Rattle.session_rules.specs.Board.{sign_of};
ghost use Rattle.demo_run.specs.Scene.{image_color, image_load, brush_load, glyph_load};

use crate::OutOfMemory;
use draw_ops::{Brush, Glyph, Image, Shape, SharedBrush};
use std::alloc::Global;

/// The side of an image in pixels, and of a glyph.
const IMAGE_SIDE: u16 = 16;

const GLYPH_SIDE: u16 = 8;

/// The step from an image's colour to the next one's, and from a brush's.
const IMAGE_COLORS: u32 = 2_039_583;

const BRUSH_COLORS: u32 = 63;

/// How many colours there are.
const COLORS: u32 = 1 << 24;

/// The font of the glyphs.
const FONT: u8 = 0;

/// The letter of the first glyph.
const FIRST_LETTER: u8 = b'A';

/// Loads an image in one colour into a slot.
pub(crate) fn image_load(alloc: Global, slot: u8) -> Result<Shape, OutOfMemory>
    requires { slot < 8 }
    ensures value { IfOk result (λ shape. shape ≡ image_load slot) }
    ensures colors { IfOk result (λ shape. are_colors (colors_of shape) ≡ true) }
{
    let color = image_color(slot);
    let pixels = [color; 256];
    let image = Image::new(alloc, IMAGE_SIDE, IMAGE_SIDE, &pixels)?;
    Ok(Shape::LoadImage { slot, image })
}

/// The colour of an image.
fn image_color(slot: u8) -> u32
    requires { slot < 8 }
    ensures value { result ≡ image_color slot }
    ensures color { result < 16777216 }
{
    (u32::from(slot) + 1) * IMAGE_COLORS % COLORS
}

/// Loads a brush in one colour into a slot.
pub(crate) fn brush_load(alloc: Global, slot: u8) -> Result<Shape, OutOfMemory>
    requires { slot < 4 }
    ensures value { IfOk result (λ shape. shape ≡ brush_load slot) }
    ensures colors { IfOk result (λ shape. are_colors (colors_of shape) ≡ true) }
{
    let color = (u32::from(slot) + 1) * BRUSH_COLORS;
    let pixels = [color; 64];
    let brush = SharedBrush::new(alloc, Brush::new(&pixels))?;
    Ok(Shape::LoadBrush { slot, brush })
}

/// Loads the sign of a letter as a glyph.
pub(crate) fn glyph_load(alloc: Global, code: u8) -> Result<Shape, OutOfMemory>
    requires { code < 8 }
    ensures value { IfOk result (λ shape. shape ≡ glyph_load code) }
    ensures colors { IfOk result (λ shape. are_colors (colors_of shape) ≡ true) }
{
    let rows = sign_rows(FIRST_LETTER + code);
    let glyph = Glyph::new(alloc, 0, 0, GLYPH_SIDE, GLYPH_SIDE, &rows)?;
    Ok(Shape::LoadGlyph {
        font: FONT,
        code,
        glyph,
    })
}

/// The rows of a sign: its letter, rotated left bit by bit.
fn sign_rows(letter: u8) -> [u8; 8]
    requires { letter ≤ 126 }
    ensures { result ≡ sign_of letter }
{
    [
        rotated(letter, 1),
        rotated(letter, 2),
        rotated(letter, 4),
        rotated(letter, 8),
        rotated(letter, 16),
        rotated(letter, 32),
        rotated(letter, 64),
        rotated(letter, 128),
    ]
}

/// A letter times a power of two, the bits above the eighth at its end.
fn rotated(letter: u8, power: u16) -> u8
    requires small { letter * power ≤ 32767 }
    requires fits { (letter * power) % 256 + (letter * power) / 256 ≤ 255 }
    ensures { result ≡ (letter * power) % 256 + (letter * power) / 256 }
{
    let n = u16::from(letter) * power;
    (n % 256 + n / 256) as u8
}
