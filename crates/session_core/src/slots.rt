//! What slots hold behind some drawings.

ghost use Rattle.std.specs.Prelude.{◌≡◌, ◌+◌, ◌<◌, ◌≤◌, ◌^◌, ◌++◌, IfOk, OnOk, length, option_copied, option_to_list};
ghost use Rattle.draw_ops.specs.Slots.{lookup, glyph_slot};
ghost use Rattle.draw_ops.specs.Drawing.{state_after_drawings};
ghost use Rattle.session_rules.specs.Pending.{run_glyphs};
ghost use Rattle.session_core.specs.Filled.{image_load, brush_load, glyph_load, sides_saved, sides_of};

use crate::OutOfMemory;
use crate::filled::{Slot, glyph_slot, last_filling};
use draw_ops::{Drawing, Shape};
use px_core::Size;
use std::alloc::Global;
use surface_parts::{LoadedBrush, LoadedGlyph, LoadedImage};
use tile_surface::Tiles;

/// The image in a slot.
pub fn image_after(
    surface: &Tiles,
    before: &[Drawing],
    slot: u8,
) -> Result<Option<LoadedImage>, OutOfMemory>
    requires { surface.now.state.count + length before.now < 2 ^ 64 }
    ensures { IfOk result (λ image. image ≡ lookup slot (state_after_drawings surface.now.size surface.now.state before.now).images) }
{
    surface.recall_sound();
    match last_filling(Slot::Image(slot), before) {
        Some(i) => loaded_image(&before[i], surface.count() + i as u64 + 1),
        None => shared_image(surface.image(slot)),
    }
}

/// The image that a drawing loads as the n-th.
fn loaded_image(d: &Drawing, n: u64) -> Result<Option<LoadedImage>, OutOfMemory>
    ensures { IfOk result (λ image. image ≡ image_load d.now.shape n) }
{
    match &d.shape {
        Shape::LoadImage { image, .. } => Ok(Some(LoadedImage::new(n, image.share()?))),
        _ => Ok(None),
    }
}

/// One more handle of an image.
pub fn shared_image(image: Option<&LoadedImage>) -> Result<Option<LoadedImage>, OutOfMemory>
    ensures { IfOk result (λ shared. shared ≡ option_copied image.entry) }
{
    match image {
        Some(image) => Ok(Some(image.share()?)),
        None => Ok(None),
    }
}

/// The brush in a slot, which is below 64.
pub fn brush_after(
    surface: &Tiles,
    before: &[Drawing],
    slot: u8,
) -> Result<Option<LoadedBrush>, OutOfMemory>
    requires slot { slot ≤ 63 }
    requires few { surface.now.state.count + length before.now < 2 ^ 64 }
    ensures { IfOk result (λ brush. brush ≡ lookup slot (state_after_drawings surface.now.size surface.now.state before.now).brushes) }
{
    surface.recall_sound();
    match last_filling(Slot::Brush(slot), before) {
        Some(i) => loaded_brush(&before[i], surface.count() + i as u64 + 1),
        None => shared_brush(surface.brush(slot)),
    }
}

/// The brush that a drawing loads as the n-th.
fn loaded_brush(d: &Drawing, n: u64) -> Result<Option<LoadedBrush>, OutOfMemory>
    ensures { IfOk result (λ brush. brush ≡ brush_load d.now.shape n) }
{
    match &d.shape {
        Shape::LoadBrush { brush, .. } => Ok(Some(LoadedBrush::new(n, brush.share()?))),
        _ => Ok(None),
    }
}

/// One more handle of a brush.
pub fn shared_brush(brush: Option<&LoadedBrush>) -> Result<Option<LoadedBrush>, OutOfMemory>
    ensures { IfOk result (λ shared. shared ≡ option_copied brush.entry) }
{
    match brush {
        Some(brush) => Ok(Some(brush.share()?)),
        None => Ok(None),
    }
}

/// The glyph of a font, which is below 4, and a code.
fn glyph_after(
    alloc: Global,
    surface: &Tiles,
    before: &[Drawing],
    font: u8,
    code: u8,
) -> Result<Option<LoadedGlyph>, OutOfMemory>
    requires font { font ≤ 3 }
    requires few { surface.now.state.count + length before.now < 2 ^ 64 }
    ensures { IfOk result (λ glyph. glyph ≡ lookup (glyph_slot font code) (state_after_drawings surface.now.size surface.now.state before.now).glyphs) }
{
    surface.recall_sound();
    match last_filling(glyph_slot(font, code), before) {
        Some(i) => loaded_glyph(alloc, &before[i], surface.count() + i as u64 + 1),
        None => shared_glyph(surface.glyph(font, code)),
    }
}

/// The glyph that a drawing loads as the n-th.
fn loaded_glyph(alloc: Global, d: &Drawing, n: u64) -> Result<Option<LoadedGlyph>, OutOfMemory>
    ensures { IfOk result (λ glyph. glyph ≡ glyph_load d.now.shape n) }
{
    match &d.shape {
        Shape::LoadGlyph { glyph, .. } => {
            let glyph = LoadedGlyph::new(alloc, n, glyph.share()?)?;
            Ok(Some(glyph))
        }
        _ => Ok(None),
    }
}

/// One more handle of a glyph.
fn shared_glyph(glyph: Option<&LoadedGlyph>) -> Result<Option<LoadedGlyph>, OutOfMemory>
    ensures { IfOk result (λ shared. shared ≡ option_copied glyph.entry) }
{
    match glyph {
        Some(glyph) => Ok(Some(glyph.share()?)),
        None => Ok(None),
    }
}

/// The glyphs of a run.
pub fn glyphs_after(
    alloc: Global,
    surface: &Tiles,
    before: &[Drawing],
    font: u8,
    pairs: &[(u8, u8)],
) -> Result<Vec<LoadedGlyph>, OutOfMemory>
    requires font { font ≤ 3 }
    requires few { surface.now.state.count + length before.now < 2 ^ 64 }
    ensures { IfOk result (λ glyphs. glyphs.items ≡ run_glyphs (state_after_drawings surface.now.size surface.now.state before.now).glyphs font pairs.now) }
{
    let mut glyphs = Vec::with_capacity(alloc, pairs.len())?;
    for pair in pairs {
        let glyph = glyph_after(alloc, surface, before, font, pair.0)?;
        push_glyph(&mut glyphs, glyph)?;
    }
    Ok(glyphs)
}

/// Appends a glyph that may be missing.
fn push_glyph(glyphs: &mut Vec<LoadedGlyph>, glyph: Option<LoadedGlyph>) -> Result<(), OutOfMemory>
    ensures { OnOk result (glyphs.new.items ≡ glyphs.old.items ++ option_to_list glyph) }
{
    if let Some(glyph) = glyph {
        glyphs.push(glyph)?;
    }
    Ok(())
}

/// The sides of the block in a slot, which is below 16.
pub fn block_sides(surface: &Tiles, before: &[Drawing], slot: u8) -> Option<Size>
    requires { slot ≤ 15 }
    ensures { result ≡ sides_of (lookup slot (state_after_drawings surface.now.size surface.now.state before.now).blocks) }
{
    surface.recall_sound();
    match last_filling(Slot::Block(slot), before) {
        Some(i) => saved_sides(&before[i].shape),
        None => surface.block_sides(slot),
    }
}

/// The sides of the block that a shape saves.
fn saved_sides(shape: &Shape) -> Option<Size>
    ensures { result ≡ sides_saved shape.now }
{
    match shape {
        Shape::Save { rect, .. } => Some(Size {
            w: rect.w,
            h: rect.h,
        }),
        _ => None,
    }
}
