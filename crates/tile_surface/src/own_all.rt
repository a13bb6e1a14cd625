//! The tiles of drawings one after another become the surface's own before the first of them is drawn.
ghost use Rattle.std.specs.Prelude.{◌≡◌, ◌*◌, ◌≤◌, None, All, OnOk, length, map};
ghost use Rattle.px_core.specs.Picture.{both};
ghost use Rattle.px_core.specs.Rectangle.{in_clip, IsPlaced};
ghost use Rattle.draw_ops.specs.Fits.{clip_rule, glyph_rule};
ghost use Rattle.surface_parts.specs.Pens.{IsPenAtStart};
ghost use Rattle.surface_parts.specs.Surfaces.{AllInSlots};
ghost use Rattle.tile_surface.specs.Cells.{cell_pixels, IsTiled};
ghost use Rattle.tile_surface.specs.Later.{from_corner, moved_by, run_box, IsFirstPaintable, IsPlacedShape, OwnsAll, OwnsEach, OwnsLater};
ghost use Rattle.tile_surface.specs.Ownership.{OwnsArea, StaysOwn};

use crate::cell::Cell;
use crate::lines::own_line;
use crate::own::own_rect;
use crate::paint::own_shape;
use draw_ops::{Drawing, Shape};
use px_core::{Rect, Size};
use std::alloc::Global;
use surface_parts::{Ends, Slots, Window};
use wire_num::OutOfMemory;

/// The most pixels that the cell of a glyph begins to the left of the pen or above it.
const REACH: i32 = 64;

/// A glyph lies in a square with these sides around the pen, in pixels: its cell begins at most 64 from the pen both ways, and has sides of 32.
const SQUARE: u32 = 160;

/// More pixels than lie to the right of a place where a block may be put back, or below it.
const REST: u32 = 65_536;

/// Makes each tile that drawings paint on the surface's own. The colours of all tiles stay, also after an `Err`.
///
/// What a drawing finds in the slots depends on those before it. So of the first one it's exactly the tiles that it paints on, and of each
/// further one those that it may paint on, whatever the slots hold.
pub(crate) fn own_all(
    cells: &mut [Cell],
    alloc: Global,
    size: Size,
    slots: &Slots,
    ds: &[Drawing],
) -> Result<(), OutOfMemory>
    requires tiled { IsTiled size cells.old }
    requires first { IsFirstPaintable size slots.now ds.now }
    requires placed { All (λ d. IsPlacedShape size d.clip d.shape) ds.now }
    requires glyphs { AllInSlots (λ glyph. glyph_rule glyph.content ≡ None) slots.now.glyphs }
    ensures same { map cell_pixels cells.new ≡ map cell_pixels cells.old }
    ensures stays { StaysOwn cells.old cells.new }
    ensures own { OnOk result (OwnsAll size slots.now cells.new ds.now) }
{
    match ds.split_first() {
        None => Ok(()),
        Some((first, later)) => {
            own_shape(
                cells,
                alloc,
                Window {
                    size,
                    clip: first.clip,
                },
                slots,
                &first.shape,
            )?;
            own_each(cells, alloc, size, later)
        }
    }
}

/// Makes each tile that drawings may paint on, whatever the slots hold, the surface's own.
fn own_each(
    cells: &mut [Cell],
    alloc: Global,
    size: Size,
    ds: &[Drawing],
) -> Result<(), OutOfMemory>
    requires tiled { IsTiled size cells.old }
    requires placed { All (λ d. IsPlacedShape size d.clip d.shape) ds.now }
    ensures same { map cell_pixels cells.new ≡ map cell_pixels cells.old }
    ensures stays { StaysOwn cells.old cells.new }
    ensures own { OnOk result (OwnsEach size cells.new ds.now) }
{
    for d in ds {
        own_later(cells, alloc, Window { size, clip: d.clip }, &d.shape)?;
    }
    Ok(())
}

/// Makes each tile that a shape may paint on, within a clip and whatever the slots hold, the surface's own.
fn own_later(
    cells: &mut [Cell],
    alloc: Global,
    window: Window,
    shape: &Shape,
) -> Result<(), OutOfMemory>
    requires tiled { IsTiled window.size cells.old }
    requires placed { IsPlacedShape window.size window.clip shape.now }
    ensures same { map cell_pixels cells.new ≡ map cell_pixels cells.old }
    ensures stays { StaysOwn cells.old cells.new }
    ensures own { OnOk result (OwnsLater window.size cells.new window.clip shape.now) }
{
    match shape {
        Shape::Fill { rect, .. } => own_rect(cells, alloc, window, *rect),
        Shape::Dst { rect, .. } => own_rect(cells, alloc, window, *rect),
        Shape::Pat { rect, .. } => own_rect(cells, alloc, window, *rect),
        Shape::Copy { rect, .. } => own_rect(cells, alloc, window, *rect),
        Shape::Blit { rect, .. } => own_rect(cells, alloc, window, *rect),
        Shape::Blit3 { rect, .. } => own_rect(cells, alloc, window, *rect),
        Shape::Text { x, y, run, .. } => {
            let rect = run_rect(*x, *y, run.pairs());
            own_rect(cells, alloc, window, rect)
        }
        Shape::Line { x0, y0, x1, y1, .. } => {
            let ends = Ends {
                x0: *x0,
                y0: *y0,
                x1: *x1,
                y1: *y1,
            };
            own_line(cells, alloc, window, ends)
        }
        Shape::Restore { x, y, .. } => own_rest(cells, alloc, window, *x, *y),
        Shape::Save { .. } => Ok(()),
        Shape::LoadImage { .. } => Ok(()),
        Shape::LoadBrush { .. } => Ok(()),
        Shape::LoadGlyph { .. } => Ok(()),
    }
}

/// Makes each tile with a pixel to the right of and below a corner, within a clip, the surface's own.
fn own_rest(
    cells: &mut [Cell],
    alloc: Global,
    window: Window,
    x: i32,
    y: i32,
) -> Result<(), OutOfMemory>
    requires tiled { IsTiled window.size cells.old }
    requires clip { clip_rule window.size window.clip ≡ None }
    requires corner { IsPenAtStart x y }
    ensures same { map cell_pixels cells.new ≡ map cell_pixels cells.old }
    ensures stays { StaysOwn cells.old cells.new }
    ensures own { OnOk result (OwnsArea window.size cells.new (both (in_clip window.clip) (from_corner x y))) }
{
    let rect = Rect {
        x,
        y,
        w: REST,
        h: REST,
    };
    own_rect(cells, alloc, window, rect)
}

/// The rectangle in which a run from a pen at (x, y) lies whatever its font holds.
fn run_rect(x: i32, y: i32, run: &[(u8, u8)]) -> Rect
    requires pen { IsPenAtStart x y }
    requires short { length run.now ≤ 64 }
    ensures rect { result ≡ run_box x y run.now }
    ensures placed { IsPlaced result }
{
    Rect {
        x: x - REACH,
        y: y - REACH,
        w: move_of(run) + SQUARE,
        h: SQUARE,
    }
}

/// How far a run moves the pen to the right in all, in pixels.
fn move_of(run: &[(u8, u8)]) -> u32
    requires { length run.now ≤ 64 }
    ensures moved { result ≡ moved_by run.now }
    ensures short { result ≤ 255 * length run.now }
{
    let mut moved = 0;
    for pair in run {
        moved += u32::from(pair.1);
    }
    moved
}
