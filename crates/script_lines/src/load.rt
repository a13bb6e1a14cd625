//! Loads of images, brushes and glyphs, whose pixels or rows stand in one word.
//!
//! | form | its word of digits |
//! |---|---|
//! | `image SLOT W H HEX` | six for one colour, or six for each pixel, row by row from the top |
//! | `brush SLOT HEX` | six for each of 64 pixels |
//! | `glyph FONT CODE X Y CX CY HEX` | two for each byte of its rows |
ghost use Rattle.std.specs.Prelude.{◌≡◌, ◌∷◌, [], ◌&&◌, ℕ, List, pos, IfOk, IfSome, IsTrue, MatchOption};
ghost use Rattle.std.specs.Option.{option_map};
ghost use Rattle.px_core.specs.Colors.{are_colors};
ghost use Rattle.line_text.specs.Hexadecimal.{hexadecimals_of};
ghost use Rattle.script_rules.specs.Fields.{is_image_side, image_pixels, image_with, image_by, brush_by, glyph_by, glyph_bytes};
ghost use Rattle.script_lines.specs.Reading.{Reads, ReadsNone, load_of, image_fields, brush_fields, glyph_fields, image_read, image_without, brush_with, glyph_with};

use crate::OutOfMemory;
use crate::area::next_point;
use crate::field::{next_count, next_small};
use draw_ops::{Brush, Drawing, Glyph, Image, Shape, SharedBrush};
use line_text::{Parts, read_hexadecimal, read_hexadecimals};
use std::alloc::Global;

/// How many hexadecimal digits a colour has.
const COLOR_DIGITS: usize = 6;

/// How many hexadecimal digits a byte has.
const BYTE_DIGITS: usize = 2;

/// The greatest side of an image in pixels (profile).
const IMAGE_SIDE: u16 = 64;

/// The number of pixels of a brush.
const BRUSH_PIXELS: usize = 64;

/// The slot of an image and its sides in pixels.
#[derive(Clone, Copy)]
struct ImagePlace {
    slot: u8,
    w: u16,
    h: u16,
}

/// The font and code of a glyph, where its cell stands from the pen, and its sides in pixels.
#[derive(Clone, Copy)]
struct GlyphPlace {
    font: u8,
    code: u8,
    x: i32,
    y: i32,
    cx: u16,
    cy: u16,
}

/// `image SLOT W H HEX`.
pub(crate) fn read_image(
    alloc: Global,
    words: &mut Parts<'_>,
) -> Result<Option<Drawing>, OutOfMemory>
    ensures { IfOk result (λ d. d ≡ load_of image_fields image_by words.old) }
{
    let Some(place) = next_image(words) else {
        return Ok(None);
    };
    let Some(digits) = last_word(words) else {
        return Ok(None);
    };
    Ok(load(image_shape(alloc, place, digits)?))
}

/// `brush SLOT HEX`.
pub(crate) fn read_brush(
    alloc: Global,
    words: &mut Parts<'_>,
) -> Result<Option<Drawing>, OutOfMemory>
    ensures { IfOk result (λ d. d ≡ load_of brush_fields brush_by words.old) }
{
    let Some(slot) = next_small(words) else {
        return Ok(None);
    };
    let Some(digits) = last_word(words) else {
        return Ok(None);
    };
    Ok(load(brush_shape(alloc, slot, digits)?))
}

/// `glyph FONT CODE X Y CX CY HEX`.
pub(crate) fn read_glyph(
    alloc: Global,
    words: &mut Parts<'_>,
) -> Result<Option<Drawing>, OutOfMemory>
    ensures { IfOk result (λ d. d ≡ load_of glyph_fields glyph_by words.old) }
{
    let Some(place) = next_glyph(words) else {
        return Ok(None);
    };
    let Some(digits) = last_word(words) else {
        return Ok(None);
    };
    Ok(load(glyph_shape(alloc, place, digits)?))
}

/// A drawing of a shape, which has no clip.
fn load(shape: Option<Shape>) -> Option<Drawing>
    ensures { result ≡ option_map (λ s. record { shape = s; clip = None }) shape }
{
    match shape {
        Some(shape) => Some(Drawing { shape, clip: None }),
        None => None,
    }
}

/// The one word that is left.
fn last_word<'a>(words: &mut Parts<'a>) -> Option<&'a [u8]>
    ensures { MatchOption result ((word : List ℕ) → words.old ≡ word ∷ [] → ⊥) (λ word. words.old ≡ word.now ∷ []) }
{
    let word = words.next_part()?;
    match words.next_part() {
        Some(_) => None,
        None => Some(word),
    }
}

/// The slot and the sides of an image, by the next words.
fn next_image(words: &mut Parts<'_>) -> Option<ImagePlace>
    ensures { MatchOption result (ReadsNone image_fields words.old) (λ p. Reads image_fields (pos p.slot ∷ pos p.w ∷ pos p.h ∷ []) words.old words.new) }
{
    let slot = next_small(words)?;
    let w = next_count(words)?;
    let h = next_count(words)?;
    Some(ImagePlace { slot, w, h })
}

/// The font, code, place and sides of a glyph, by the next words.
fn next_glyph(words: &mut Parts<'_>) -> Option<GlyphPlace>
    ensures { MatchOption result (ReadsNone glyph_fields words.old)
        (λ p. Reads glyph_fields (pos p.font ∷ pos p.code ∷ p.x ∷ p.y ∷ pos p.cx ∷ pos p.cy ∷ []) words.old words.new) }
{
    let font = next_small(words)?;
    let code = next_small(words)?;
    let corner = next_point(words)?;
    let cx = next_count(words)?;
    let cy = next_count(words)?;
    Some(GlyphPlace {
        font,
        code,
        x: corner.x,
        y: corner.y,
        cx,
        cy,
    })
}

/// The load of an image; one with a side that no image has may have any digits, and gets no pixels.
fn image_shape(
    alloc: Global,
    place: ImagePlace,
    digits: &[u8],
) -> Result<Option<Shape>, OutOfMemory>
    ensures { IfOk result (λ shape. shape ≡ image_with (is_image_side place.w && is_image_side place.h) place.slot place.w place.h digits.now) }
{
    let slot = place.slot;
    let image = if is_image_side(place.w) && is_image_side(place.h) {
        image_of_colors(alloc, place, digits)?
    } else {
        image_without_pixels(alloc, place, digits)?
    };
    match image {
        Some(image) => Ok(Some(Shape::LoadImage { slot, image })),
        None => Ok(None),
    }
}

/// Whether an image may have a side of so many pixels.
fn is_image_side(n: u16) -> bool
    ensures { result ≡ is_image_side n }
{
    1 <= n && n <= IMAGE_SIDE
}

/// The image of a word of colours.
fn image_of_colors(
    alloc: Global,
    place: ImagePlace,
    digits: &[u8],
) -> Result<Option<Image>, OutOfMemory>
    ensures { IfOk result (λ image. image ≡ image_read place.w place.h digits.now) }
{
    match read_colors(alloc, digits)? {
        Some(colors) => image_of(alloc, place, &colors),
        None => Ok(None),
    }
}

/// The image of one colour, or of as many as it has pixels.
fn image_of(alloc: Global, place: ImagePlace, colors: &[u32]) -> Result<Option<Image>, OutOfMemory>
    requires { IsTrue (are_colors colors.now) }
    ensures { IfOk result (λ image. image ≡ option_map (λ pixels. record { w = place.w; h = place.h; pixels = pixels }) (image_pixels place.w place.h colors.now)) }
{
    let count = usize::from(place.w) * usize::from(place.h);
    match colors {
        [] => Ok(None),
        [color] => {
            let pixels = vec![in alloc; *color; count]?;
            Ok(Some(Image::new(alloc, place.w, place.h, &pixels)?))
        }
        _ if colors.len() == count => Ok(Some(Image::new(alloc, place.w, place.h, colors)?)),
        _ => Ok(None),
    }
}

/// An image without pixels, where a word is hexadecimal digits.
fn image_without_pixels(
    alloc: Global,
    place: ImagePlace,
    digits: &[u8],
) -> Result<Option<Image>, OutOfMemory>
    ensures { IfOk result (λ image. image ≡ image_without place.w place.h digits.now) }
{
    match read_hexadecimals(alloc, digits, 1)? {
        Some(found) if !found.is_empty() => Ok(Some(Image::new(alloc, place.w, place.h, &[])?)),
        _ => Ok(None),
    }
}

/// The load of a brush.
fn brush_shape(alloc: Global, slot: u8, digits: &[u8]) -> Result<Option<Shape>, OutOfMemory>
    ensures { IfOk result (λ shape. shape ≡ brush_with slot digits.now) }
{
    match read_colors(alloc, digits)? {
        Some(colors) if colors.len() == BRUSH_PIXELS => {
            let brush = SharedBrush::new(alloc, Brush::new(&colors))?;
            Ok(Some(Shape::LoadBrush { slot, brush }))
        }
        _ => Ok(None),
    }
}

/// The load of a glyph.
fn glyph_shape(
    alloc: Global,
    place: GlyphPlace,
    digits: &[u8],
) -> Result<Option<Shape>, OutOfMemory>
    ensures { IfOk result (λ shape. shape ≡ glyph_with place.font place.code place.x place.y place.cx place.cy digits.now) }
{
    let Some(bits) = read_bytes(alloc, digits)? else {
        return Ok(None);
    };
    if bits.is_empty() || bits.len() != glyph_bytes(place.cx, place.cy) {
        return Ok(None);
    }
    let glyph = Glyph::new(alloc, place.x, place.y, place.cx, place.cy, &bits)?;
    Ok(Some(Shape::LoadGlyph {
        font: place.font,
        code: place.code,
        glyph,
    }))
}

/// The bytes of a glyph's rows, each padded to bytes.
fn glyph_bytes(cx: u16, cy: u16) -> usize
    ensures { result ≡ glyph_bytes cx cy }
{
    (usize::from(cx) + 7) / 8 * usize::from(cy)
}

/// The colours that a word writes, six digits each.
fn read_colors(alloc: Global, word: &[u8]) -> Result<Option<Vec<u32>>, OutOfMemory>
    ensures value { IfOk result (λ found. option_map (λ colors. colors.items) found ≡ hexadecimals_of 6 word.now) }
    ensures colors { IfOk result (λ found. IfSome found (λ colors. IsTrue (are_colors colors.items))) }
{
    read_hexadecimals(alloc, word, COLOR_DIGITS)
}

/// The bytes that a word writes, two digits each.
fn read_bytes(alloc: Global, word: &[u8]) -> Result<Option<Vec<u8>>, OutOfMemory>
    ensures { IfOk result (λ found. option_map (λ bytes. bytes.items) found ≡ hexadecimals_of 2 word.now) }
{
    let mut bytes = Vec::new(alloc);
    let mut rest = word;
    while rest.len() >= BYTE_DIGITS {
        let (first, others) = rest.split_at(BYTE_DIGITS);
        match read_hexadecimal(first, BYTE_DIGITS) {
            Some(byte) => bytes.push(byte as u8)?,
            None => return Ok(None),
        }
        rest = others;
    }
    if rest.is_empty() {
        Ok(Some(bytes))
    } else {
        Ok(None)
    }
}
