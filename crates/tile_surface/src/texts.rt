//! Texts, one glyph after another, within a clip.
ghost use Rattle.std.specs.Prelude.{◌≡◌, ℕ, ◌≤◌, None, Some, OnOk, length, map};
ghost use Rattle.px_core.specs.Picture.{both, painted};
ghost use Rattle.px_core.specs.Rectangle.{in_clip};
ghost use Rattle.rop3_core.specs.Palette.{session_colors};
ghost use Rattle.draw_ops.specs.Drawing.{writing};
ghost use Rattle.draw_ops.specs.Fits.{clip_rule, glyph_rule};
ghost use Rattle.draw_ops.specs.Formulas.{glyph_area, picture_after, solid};
ghost use Rattle.surface_parts.specs.Bits.{IsPenNear};
ghost use Rattle.surface_parts.specs.Pens.{IsPenAtStart};
ghost use Rattle.surface_parts.specs.Surfaces.{AllInSlots};
ghost use Rattle.surface_parts.specs.Texts.{glyphs_held};
ghost use Rattle.tile_surface.specs.Cells.{cell_pixels, picture_of, IsTiled};
ghost use Rattle.tile_surface.specs.Needed.{OwnsGlyph, OwnsRun};
ghost use Rattle.tile_surface.specs.Ownership.{KeepsRest, StaysOwn};

use crate::cell::Cell;
use crate::inks::ink_part;
use crate::own::own_rect;
use draw_ops::Glyph;
use std::alloc::Global;
use surface_parts::{Bits, Script, Slots, Window, cell_of, source_place, visible};
use wire_num::OutOfMemory;

/// The bits of a byte.
const BYTE_BITS: usize = 8;

/// What a number of bits lacks at most to whole bytes.
const PADDING: usize = 7;

/// Makes each tile with a pixel of a run's cells, within a clip, the surface's own. The colours of all tiles stay, also after an `Err`.
pub(crate) fn own_run(
    cells: &mut [Cell],
    alloc: Global,
    window: Window,
    slots: &Slots,
    script: Script,
    run: &[(u8, u8)],
) -> Result<(), OutOfMemory>
    requires tiled { IsTiled window.size cells.old }
    requires clip { clip_rule window.size window.clip ≡ None }
    requires glyphs { AllInSlots (λ glyph. glyph_rule glyph.content ≡ None) slots.now.glyphs }
    requires pen { IsPenAtStart script.x script.y }
    requires short { length run.now ≤ 64 }
    ensures same { map cell_pixels cells.new ≡ map cell_pixels cells.old }
    ensures stays { StaysOwn cells.old cells.new }
    ensures own { OnOk result (OwnsRun window.size cells.new (in_clip window.clip) (glyphs_held slots.now script.font) script.x script.y run.now) }
{
    let mut moved = 0;
    for pair in run {
        moved += u32::from(pair.1);
        let pen = Script {
            x: script.x + moved as i32,
            ..script
        };
        own_code(cells, alloc, window, slots, pen, pair.0)?;
    }
    Ok(())
}

/// Draws a run of glyphs; each one's delta moves the pen to the right before it.
pub(crate) fn write_run(
    cells: &mut [Cell],
    window: Window,
    slots: &Slots,
    script: Script,
    run: &[(u8, u8)],
)
    requires tiled { IsTiled window.size cells.old }
    requires clip { clip_rule window.size window.clip ≡ None }
    requires glyphs { AllInSlots (λ glyph. glyph_rule glyph.content ≡ None) slots.now.glyphs }
    requires pen { IsPenAtStart script.x script.y }
    requires short { length run.now ≤ 64 }
    requires own { OwnsRun window.size cells.old (in_clip window.clip) (glyphs_held slots.now script.font) script.x script.y run.now }
    ensures painted { picture_of window.size cells.new ≡ picture_after window.size (in_clip window.clip)
        (writing (glyphs_held slots.now script.font) script.x script.y script.color run.now) (picture_of window.size cells.old) }
    ensures kept { KeepsRest window.size cells.old cells.new }
{
    let mut moved = 0;
    for pair in run {
        moved += u32::from(pair.1);
        let pen = Script {
            x: script.x + moved as i32,
            ..script
        };
        draw_code(cells, window, slots, pen, pair.0);
    }
}

/// Makes the tiles of the glyph of a code where the pen stands the surface's own; there are none where the font has no glyph.
fn own_code(
    cells: &mut [Cell],
    alloc: Global,
    window: Window,
    slots: &Slots,
    pen: Script,
    code: u8,
) -> Result<(), OutOfMemory>
    requires tiled { IsTiled window.size cells.old }
    requires clip { clip_rule window.size window.clip ≡ None }
    requires glyphs { AllInSlots (λ glyph. glyph_rule glyph.content ≡ None) slots.now.glyphs }
    requires pen { IsPenNear pen.x pen.y }
    ensures same { map cell_pixels cells.new ≡ map cell_pixels cells.old }
    ensures stays { StaysOwn cells.old cells.new }
    ensures own { OnOk result (OwnsGlyph window.size cells.new (in_clip window.clip) (glyphs_held slots.now pen.font code) pen.x pen.y) }
{
    match slots.glyph(pen.font, code) {
        None => Ok(()),
        Some(glyph) => own_glyph(cells, alloc, window, glyph.content(), pen),
    }
}

/// Draws the glyph of a code where the pen stands; there is nothing to draw where the font has none.
fn draw_code(cells: &mut [Cell], window: Window, slots: &Slots, pen: Script, code: u8)
    requires tiled { IsTiled window.size cells.old }
    requires clip { clip_rule window.size window.clip ≡ None }
    requires glyphs { AllInSlots (λ glyph. glyph_rule glyph.content ≡ None) slots.now.glyphs }
    requires pen { IsPenNear pen.x pen.y }
    requires own { OwnsGlyph window.size cells.old (in_clip window.clip) (glyphs_held slots.now pen.font code) pen.x pen.y }
    ensures painted { picture_of window.size cells.new ≡ painted window.size
        (both (in_clip window.clip) (glyph_area (glyphs_held slots.now pen.font code) pen.x pen.y))
        (solid session_colors pen.color) (picture_of window.size cells.old) }
    ensures kept { KeepsRest window.size cells.old cells.new }
{
    match slots.glyph(pen.font, code) {
        None => {}
        Some(glyph) => draw_glyph(cells, window, glyph.content(), pen),
    }
}

/// Makes the tiles of a glyph's cell, with the pen at its place, the surface's own. The colours of all tiles stay, also after an `Err`.
fn own_glyph(
    cells: &mut [Cell],
    alloc: Global,
    window: Window,
    glyph: &Glyph,
    pen: Script,
) -> Result<(), OutOfMemory>
    requires tiled { IsTiled window.size cells.old }
    requires clip { clip_rule window.size window.clip ≡ None }
    requires rule { glyph_rule glyph.now ≡ None }
    requires pen { IsPenNear pen.x pen.y }
    ensures same { map cell_pixels cells.new ≡ map cell_pixels cells.old }
    ensures stays { StaysOwn cells.old cells.new }
    ensures own { OnOk result (OwnsGlyph window.size cells.new (in_clip window.clip) (Some glyph.now) pen.x pen.y) }
{
    own_rect(cells, alloc, window, cell_of(glyph, pen.x, pen.y))
}

/// Gives the pixels of a glyph's one bits one colour, with the pen at its place.
fn draw_glyph(cells: &mut [Cell], window: Window, glyph: &Glyph, pen: Script)
    requires tiled { IsTiled window.size cells.old }
    requires clip { clip_rule window.size window.clip ≡ None }
    requires rule { glyph_rule glyph.now ≡ None }
    requires pen { IsPenNear pen.x pen.y }
    requires own { OwnsGlyph window.size cells.old (in_clip window.clip) (Some glyph.now) pen.x pen.y }
    ensures painted { picture_of window.size cells.new ≡ painted window.size
        (both (in_clip window.clip) (glyph_area (Some glyph.now) pen.x pen.y))
        (solid session_colors pen.color) (picture_of window.size cells.old) }
    ensures kept { KeepsRest window.size cells.old cells.new }
{
    let cell = cell_of(glyph, pen.x, pen.y);
    match visible(window, cell) {
        None => {}
        Some(part) => {
            let bits = Bits {
                bytes: glyph.bits(),
                row_bytes: (usize::from(glyph.cx()) + PADDING) / BYTE_BITS,
                column: source_place(part.x, cell.x, 0),
                row: source_place(part.y, cell.y, 0),
            };
            ink_part(cells, window.size, part, bits, pen.color)
        }
    }
}
