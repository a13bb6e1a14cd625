//! Drawings of whole rectangles, within a clip.
ghost use Rattle.std.specs.Prelude.{◌≡◌, ℕ, ◌≤◌, None, pos, length, IfSome, IsTrue, option_copied};
ghost use Rattle.px_core.specs.Rectangle.{in_clip, IsPlaced};
ghost use Rattle.rop3_core.specs.Palette.{session_colors};
ghost use Rattle.draw_ops.specs.Fits.{clip_rule};
ghost use Rattle.draw_ops.specs.Formulas.{over_rect, picture_after, solid};
ghost use Rattle.draw_ops.specs.Drawing.{mixing, pattern_of, restoring, source_of};
ghost use Rattle.surface_parts.specs.Parts.{in_part, IsCanvas, IsWithinRect};
ghost use Rattle.surface_parts.specs.Textures.{source_color, CoversPart, HasSource, IsRestorable};

use crate::block::Block;
use crate::mix::{Mix, mix_part};
use crate::part::{Part, visible};
use crate::rows::{fill_part, paste_part};
use crate::texture::{Texture, source_place, texture_of};
use crate::window::Window;
use draw_ops::{Brush, Image};
use px_core::{Rect, Size};

/// A raster operation by its code, with its operands; one that is missing counts as 0. The image's pixel at (sx, sy) belongs to the
/// upper left one of what is drawn.
#[derive(Clone, Copy)]
pub struct Blend<'a> {
    pub rop: u8,
    pub brush: Option<&'a Brush>,
    pub image: Option<&'a Image>,
    pub sx: i32,
    pub sy: i32,
}

/// Gives a rectangle one colour. `row` is for one row of it.
pub fn fill_rect(pixels: &mut [u32], window: Window, rect: Rect, color: u32, row: &mut [u32])
    requires canvas { IsCanvas window.size pixels.old }
    requires rect { IsPlaced rect }
    requires clip { clip_rule window.size window.clip ≡ None }
    requires row { 2048 ≤ length row.old }
    ensures { pixels.new ≡ picture_after window.size (in_clip window.clip) (over_rect rect (solid session_colors color)) pixels.old }
{
    match visible(window, rect) {
        None => {}
        Some(part) => fill_part(pixels, window.size, part, color, &mut row[..part.w]),
    }
}

/// The raster operation of a code on a rectangle. The two rows are for the operands of one row.
pub fn mix_rect(
    pixels: &mut [u32],
    window: Window,
    rect: Rect,
    blend: Blend,
    pattern: &mut [u32],
    source: &mut [u32],
)
    requires canvas { IsCanvas window.size pixels.old }
    requires rect { IsPlaced rect }
    requires clip { clip_rule window.size window.clip ≡ None }
    requires image { IfSome (option_copied blend.image) (HasSource rect blend.sx blend.sy) }
    requires pattern { 2048 ≤ length pattern.old }
    requires source { 2048 ≤ length source.old }
    ensures { pixels.new ≡ picture_after window.size (in_clip window.clip)
        (mixing rect blend.entry.rop (pattern_of (option_copied blend.entry.brush))
        (source_of (option_copied blend.entry.image) rect blend.entry.sx blend.entry.sy)) pixels.old }
{
    match visible(window, rect) {
        None => {}
        Some(part) => {
            let texture = source_texture(blend.image, rect, blend.sx, blend.sy, part);
            let mix = Mix {
                rop: blend.rop,
                brush: blend.brush,
                texture,
            };
            mix_part(
                pixels,
                window.size,
                part,
                mix,
                &mut pattern[..part.w],
                &mut source[..part.w],
            )
        }
    }
}

/// The texture of an image that may be missing, for the part of a rectangle that begins with the image's pixel at (sx, sy).
pub fn source_texture(
    image: Option<&Image>,
    rect: Rect,
    sx: i32,
    sy: i32,
    part: Part,
) -> Option<Texture<'_>>
    requires rect { IsPlaced rect }
    requires part { IsWithinRect rect part }
    requires image { IfSome (option_copied image) (HasSource rect sx sy) }
    ensures covers { IfSome result (CoversPart part) }
    ensures colors { (x y : ℕ) → IsTrue (in_part part x y) → source_color part result x y ≡ source_of (option_copied image.entry) rect sx sy (pos x) (pos y) }
{
    match image {
        None => None,
        Some(image) => {
            let size = Size {
                w: u32::from(image.w()),
                h: u32::from(image.h()),
            };
            Some(texture_of(image.pixels(), size, rect, sx, sy, part))
        }
    }
}

/// Puts the pixels of a block that may be missing back, with the upper left one at (x, y).
pub fn restore_block(pixels: &mut [u32], window: Window, block: Option<&Block>, x: i32, y: i32)
    requires canvas { IsCanvas window.size pixels.old }
    requires clip { clip_rule window.size window.clip ≡ None }
    requires block { IfSome (option_copied block) (IsRestorable window.size x y) }
    ensures { pixels.new ≡ picture_after window.size (in_clip window.clip) (restoring (option_copied block.entry) x y) pixels.old }
{
    match block {
        None => {}
        Some(block) => paste_block(pixels, window, block, x, y),
    }
}

/// Puts the pixels of a block back, with the upper left one at (x, y).
pub fn paste_block(pixels: &mut [u32], window: Window, block: &Block, x: i32, y: i32)
    requires canvas { IsCanvas window.size pixels.old }
    requires clip { clip_rule window.size window.clip ≡ None }
    requires block { IsRestorable window.size x y block.now }
    ensures { pixels.new ≡ picture_after window.size (in_clip window.clip) (restoring (Some block.now) x y) pixels.old }
{
    let sides = Size {
        w: block.w,
        h: block.h,
    };
    let rect = Rect {
        x,
        y,
        w: block.w,
        h: block.h,
    };
    match visible(window, rect) {
        None => {}
        Some(part) => {
            let texture = texture_of(block.pixels.as_slice(), sides, rect, 0, 0, part);
            paste_part(pixels, window.size, part, texture)
        }
    }
}
