//! Drawings of whole rectangles, within a clip, on tiles that are the surface's own.
ghost use Rattle.std.specs.Prelude.{◌≡◌, ℕ, ◌+◌, ◌≤◌, ◌<◌, ◌^◌, None, pos, length, get_or, IfSome, IsTrue, option_copied};
ghost use Rattle.px_core.specs.Colors.{are_colors};
ghost use Rattle.px_core.specs.Picture.{both};
ghost use Rattle.px_core.specs.Rectangle.{boxed, in_clip, in_rect, IsPlaced};
ghost use Rattle.rop3_core.specs.Palette.{session_colors};
ghost use Rattle.draw_ops.specs.Fits.{clip_rule};
ghost use Rattle.draw_ops.specs.Formulas.{over_rect, picture_after, solid};
ghost use Rattle.draw_ops.specs.Drawing.{mixing, pattern_of, restoring, source_of};
ghost use Rattle.surface_parts.specs.Operands.{IsReady};
ghost use Rattle.surface_parts.specs.Parts.{in_part, IsInside, IsRepainted, IsWithinRect};
ghost use Rattle.surface_parts.specs.Textures.{mixed_color, source_color, texture_color, CoversPart, HasSource, IsRestorable};
ghost use Rattle.tile_surface.specs.Cells.{picture_of, IsTiled};
ghost use Rattle.tile_surface.specs.Ownership.{KeepsRest, OwnsArea, OwnsPart};

use crate::cell::Cell;
use crate::fills::fill_part;
use crate::mixes::blend_part;
use crate::pastes::paste_part;
use crate::rows::{SRCCOPY, mix_row};
use draw_ops::Image;
use px_core::{Rect, Size};
use surface_parts::{
    Blend, Block, Mix, Part, Texture, Window, ready_pattern, ready_source, set_pattern,
    source_texture, texture_of, visible,
};

/// Gives a rectangle one colour.
pub(crate) fn fill_rect(cells: &mut [Cell], window: Window, rect: Rect, color: u32)
    requires tiled { IsTiled window.size cells.old }
    requires rect { IsPlaced rect }
    requires clip { clip_rule window.size window.clip ≡ None }
    requires own { OwnsArea window.size cells.old (both (in_clip window.clip) (in_rect rect)) }
    ensures painted { picture_of window.size cells.new ≡ picture_after window.size (in_clip window.clip) (over_rect rect (solid session_colors color))
        (picture_of window.size cells.old) }
    ensures kept { KeepsRest window.size cells.old cells.new }
{
    match visible(window, rect) {
        None => {}
        Some(part) => fill_part(cells, window.size, part, color),
    }
}

/// The raster operation of a code on a rectangle. The two rows are for the operands of one row.
pub(crate) fn mix_rect(
    cells: &mut [Cell],
    window: Window,
    rect: Rect,
    blend: Blend,
    pattern: &mut [u32],
    source: &mut [u32],
)
    requires tiled { IsTiled window.size cells.old }
    requires rect { IsPlaced rect }
    requires clip { clip_rule window.size window.clip ≡ None }
    requires own { OwnsArea window.size cells.old (both (in_clip window.clip) (in_rect rect)) }
    requires image { IfSome (option_copied blend.image) (HasSource rect blend.sx blend.sy) }
    requires image_colors { IfSome (option_copied blend.image) (λ image. IsTrue (are_colors image.pixels)) }
    requires brush_colors { IfSome (option_copied blend.brush) (λ brush. IsTrue (are_colors brush)) }
    requires pattern { 2048 ≤ length pattern.old }
    requires source { 2048 ≤ length source.old }
    ensures painted { picture_of window.size cells.new ≡ picture_after window.size (in_clip window.clip)
        (mixing rect blend.entry.rop (pattern_of (option_copied blend.entry.brush))
        (source_of (option_copied blend.entry.image) rect blend.entry.sx blend.entry.sy))
        (picture_of window.size cells.old) }
    ensures kept { KeepsRest window.size cells.old cells.new }
{
    match visible(window, rect) {
        None => {}
        Some(part) => {
            let texture = source_texture(blend.image, rect, blend.sx, blend.sy, part);
            let mix = Mix {
                rop: blend.rop,
                brush: blend.brush,
                texture,
            };
            mix_part(cells, window.size, part, mix, pattern, source)
        }
    }
}

/// Puts the pixels of a block that may be missing back, with the upper left one at (x, y).
pub(crate) fn restore_block(
    cells: &mut [Cell],
    window: Window,
    block: Option<&Block>,
    x: i32,
    y: i32,
)
    requires tiled { IsTiled window.size cells.old }
    requires clip { clip_rule window.size window.clip ≡ None }
    requires block { IfSome (option_copied block) (IsRestorable window.size x y) }
    requires own { IfSome (option_copied block) (λ b. OwnsArea window.size cells.old (both (in_clip window.clip) (in_rect (boxed x y b.w b.h)))) }
    ensures painted { picture_of window.size cells.new ≡ picture_after window.size (in_clip window.clip) (restoring (option_copied block.entry) x y)
        (picture_of window.size cells.old) }
    ensures kept { KeepsRest window.size cells.old cells.new }
{
    match block {
        None => {}
        Some(block) => paste_block(cells, window, block, x, y),
    }
}

/// Puts the pixels of a block back, with the upper left one at (x, y).
fn paste_block(cells: &mut [Cell], window: Window, block: &Block, x: i32, y: i32)
    requires tiled { IsTiled window.size cells.old }
    requires clip { clip_rule window.size window.clip ≡ None }
    requires block { IsRestorable window.size x y block.now }
    requires own { OwnsArea window.size cells.old (both (in_clip window.clip) (in_rect (boxed x y block.now.w block.now.h))) }
    ensures painted { picture_of window.size cells.new ≡ picture_after window.size (in_clip window.clip) (restoring (Some block.now) x y)
        (picture_of window.size cells.old) }
    ensures kept { KeepsRest window.size cells.old cells.new }
{
    let sides = Size {
        w: block.w,
        h: block.h,
    };
    let rect = Rect {
        x,
        y,
        w: block.w,
        h: block.h,
    };
    match visible(window, rect) {
        None => {}
        Some(part) => {
            let texture = texture_of(block.pixels.as_slice(), sides, rect, 0, 0, part);
            paste_part(cells, window.size, part, texture)
        }
    }
}

/// Makes each pixel of a part what a raster operation makes of it. The two rows are for the operands of one row.
fn mix_part(
    cells: &mut [Cell],
    size: Size,
    part: Part,
    mix: Mix,
    pattern: &mut [u32],
    source: &mut [u32],
)
    requires tiled { IsTiled size cells.old }
    requires inside { IsInside size part }
    requires own { OwnsPart cells.old part }
    requires texture { IfSome mix.texture (CoversPart part) }
    requires brush_colors { (x y : ℕ) → pattern_of (option_copied mix.brush) (pos x) (pos y) < 2 ^ 24 }
    requires source_colors { (x y : ℕ) → IsTrue (in_part part x y) → source_color part mix.texture x y < 2 ^ 24 }
    requires pattern { 2048 ≤ length pattern.old }
    requires source { 2048 ≤ length source.old }
    ensures painted { IsRepainted size (in_part part) (mixed_color size (picture_of size cells.old) part mix.entry)
        (picture_of size cells.old) (picture_of size cells.new) }
    ensures kept { KeepsRest size cells.old cells.new }
{
    match copied_texture(mix) {
        None => mix_other(cells, size, part, mix, pattern, source),
        Some(texture) => paste_part(cells, size, part, texture),
    }
}

/// The texture that a raster operation copies, if that is all it does.
fn copied_texture<'a>(mix: Mix<'a>) -> Option<Texture<'a>>
    ensures { IfSome result (λ texture. (mix.entry.rop ≡ 0xCC) × (mix.entry.texture ≡ Some texture)) }
{
    if mix.rop != SRCCOPY {
        return None;
    }
    match mix.texture {
        None => None,
        Some(texture) => Some(texture),
    }
}

/// The same of any operation: with a texture tile by tile, else row by row. The two rows are for the operands of one row.
fn mix_other(
    cells: &mut [Cell],
    size: Size,
    part: Part,
    mix: Mix,
    pattern: &mut [u32],
    source: &mut [u32],
)
    requires tiled { IsTiled size cells.old }
    requires inside { IsInside size part }
    requires own { OwnsPart cells.old part }
    requires texture { IfSome mix.texture (CoversPart part) }
    requires brush_colors { (x y : ℕ) → pattern_of (option_copied mix.brush) (pos x) (pos y) < 2 ^ 24 }
    requires source_colors { (x y : ℕ) → IsTrue (in_part part x y) → source_color part mix.texture x y < 2 ^ 24 }
    requires pattern { 2048 ≤ length pattern.old }
    requires source { 2048 ≤ length source.old }
    ensures painted { IsRepainted size (in_part part) (mixed_color size (picture_of size cells.old) part mix.entry)
        (picture_of size cells.old) (picture_of size cells.new) }
    ensures kept { KeepsRest size cells.old cells.new }
{
    match mix.texture {
        None => mix_rows(
            cells,
            size,
            part,
            mix,
            &mut pattern[..part.w],
            &mut source[..part.w],
        ),
        Some(texture) => blend_part(cells, size, part, mix.rop, mix.brush, texture),
    }
}

/// The same, row by row. Two rows of the part's width are for the operands of one row.
fn mix_rows(
    cells: &mut [Cell],
    size: Size,
    part: Part,
    mix: Mix,
    pattern: &mut [u32],
    source: &mut [u32],
)
    requires tiled { IsTiled size cells.old }
    requires inside { IsInside size part }
    requires own { OwnsPart cells.old part }
    requires texture { IfSome mix.texture (CoversPart part) }
    requires brush_colors { (x y : ℕ) → pattern_of (option_copied mix.brush) (pos x) (pos y) < 2 ^ 24 }
    requires source_colors { (x y : ℕ) → IsTrue (in_part part x y) → source_color part mix.texture x y < 2 ^ 24 }
    requires pattern { length pattern.old ≡ part.w }
    requires source { length source.old ≡ part.w }
    ensures painted { IsRepainted size (in_part part) (mixed_color size (picture_of size cells.old) part mix.entry)
        (picture_of size cells.old) (picture_of size cells.new) }
    ensures kept { KeepsRest size cells.old cells.new }
{
    ready_pattern(pattern, mix.brush);
    ready_source(source, mix.texture);
    for y in part.y..part.y + part.h {
        set_pattern(pattern, mix.brush, part.x, y);
        let from = source_row(mix.texture, source, part, y);
        mix_row(cells, size, part.x, y, mix.rop, pattern, from);
    }
}

/// The source of row y of a part: a texture's own row, or a blank one where the texture is missing.
fn source_row<'a>(texture: Option<Texture<'a>>, blank: &'a [u32], part: Part, y: usize) -> &'a [u32]
    requires above { part.y ≤ y }
    requires below { y < part.y + part.h }
    requires texture { IfSome texture (CoversPart part) }
    requires wide { length blank.now ≡ part.w }
    requires ready { IsReady texture blank.now }
    ensures wide { length result.now ≡ part.w }
    ensures colors { (k : ℕ) → k < part.w → get_or result.now k 0 ≡ source_color part texture.entry (part.x + k) y }
{
    match texture {
        None => blank,
        Some(texture) => {
            let from = texture.w * (texture.y + (y - part.y)) + texture.x;
            &texture.pixels[from..from + part.w]
        }
    }
}
