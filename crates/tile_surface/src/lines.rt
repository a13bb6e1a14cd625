//! Lines, one pixel for each step along their longer side, within a clip.
//!
//! Coordinates are shifted by 4,096, so that none of an end's is negative.
ghost use Rattle.std.specs.Prelude.{◌≡◌, ℕ, ◌+◌, ◌-◌, ◌<◌, ◌≤◌, ◌==◌, ◌&&◌, None, IfSome, IsTrue, OnOk, length, map};
ghost use Rattle.px_core.specs.Picture.{both};
ghost use Rattle.px_core.specs.Rectangle.{in_clip, whole};
ghost use Rattle.draw_ops.specs.Fits.{clip_rule, line_rule};
ghost use Rattle.draw_ops.specs.Formulas.{line_area, picture_after};
ghost use Rattle.surface_parts.specs.Courses.{apart, is_course_pixel, is_dot, IsCourse};
ghost use Rattle.surface_parts.specs.Lined.{lined};
ghost use Rattle.surface_parts.specs.Parts.{in_part, IsInside, IsRepainted};
ghost use Rattle.tile_surface.specs.Cells.{cell_pixels, picture_of, IsTiled};
ghost use Rattle.tile_surface.specs.Needed.{is_place, OwnsPixels};
ghost use Rattle.tile_surface.specs.Ownership.{KeepsRest, OwnsArea, StaysOwn};

use crate::cell::Cell;
use crate::own::own_at;
use crate::rows::write_dot;
use px_core::{Size, whole};
use std::alloc::Global;
use surface_parts::{
    Course, Dot, Ends, Part, Window, course_of, risen, steps_in, towards, visible,
};
use wire_num::OutOfMemory;

/// How far coordinates are shifted.
const SHIFT: usize = 4_096;

/// Makes each tile with a pixel of a line, within a clip, the surface's own. The colours of all tiles stay, also after an `Err`.
pub(crate) fn own_line(
    cells: &mut [Cell],
    alloc: Global,
    window: Window,
    ends: Ends,
) -> Result<(), OutOfMemory>
    requires tiled { IsTiled window.size cells.old }
    requires clip { clip_rule window.size window.clip ≡ None }
    requires ends { line_rule ends.x0 ends.y0 ends.x1 ends.y1 ≡ None }
    ensures same { map cell_pixels cells.new ≡ map cell_pixels cells.old }
    ensures stays { StaysOwn cells.old cells.new }
    ensures own { OnOk result (OwnsArea window.size cells.new (both (in_clip window.clip) (line_area ends.x0 ends.y0 ends.x1 ends.y1))) }
{
    match visible(window, whole(window.size)) {
        None => Ok(()),
        Some(part) => own_course(cells, alloc, part, course_of(ends)),
    }
}

/// Gives the pixels of a line one colour, within a clip.
pub(crate) fn draw_line(cells: &mut [Cell], window: Window, ends: Ends, color: u32)
    requires tiled { IsTiled window.size cells.old }
    requires clip { clip_rule window.size window.clip ≡ None }
    requires ends { line_rule ends.x0 ends.y0 ends.x1 ends.y1 ≡ None }
    requires own { OwnsArea window.size cells.old (both (in_clip window.clip) (line_area ends.x0 ends.y0 ends.x1 ends.y1)) }
    ensures painted { picture_of window.size cells.new ≡ picture_after window.size (in_clip window.clip) (lined ends color) (picture_of window.size cells.old) }
    ensures kept { KeepsRest window.size cells.old cells.new }
{
    match visible(window, whole(window.size)) {
        None => {}
        Some(part) => draw_course(cells, window.size, part, course_of(ends), color),
    }
}

/// Makes the tiles of a line's pixels in a part the surface's own. The colours of all tiles stay, also after an `Err`.
fn own_course(
    cells: &mut [Cell],
    alloc: Global,
    part: Part,
    course: Course,
) -> Result<(), OutOfMemory>
    requires cells { length cells.old ≡ 1024 }
    requires columns { part.x + part.w ≤ 2048 }
    requires rows { part.y + part.h ≤ 2048 }
    requires course { IsCourse course }
    ensures same { map cell_pixels cells.new ≡ map cell_pixels cells.old }
    ensures stays { StaysOwn cells.old cells.new }
    ensures own { OnOk result (OwnsPixels cells.new (λ x y. in_part part x y && is_course_pixel course (apart course.from_u course.to_u + 1) x y)) }
{
    let steps = steps_in(part, course);
    for i in steps.from..steps.end {
        let u = towards(course.from_u, course.to_u, i);
        let v = towards(course.from_v, course.to_v, risen(course, i));
        let dot = Dot {
            is_steep: course.is_steep,
            u,
            v,
        };
        own_dot(cells, alloc, part, dot)?;
    }
    Ok(())
}

/// Gives the pixels of a line that lie in a part one colour.
fn draw_course(cells: &mut [Cell], size: Size, part: Part, course: Course, color: u32)
    requires tiled { IsTiled size cells.old }
    requires inside { IsInside size part }
    requires course { IsCourse course }
    requires own { OwnsPixels cells.old (λ x y. in_part part x y && is_course_pixel course (apart course.from_u course.to_u + 1) x y) }
    ensures painted { IsRepainted size (λ x y. in_part part x y && is_course_pixel course (apart course.from_u course.to_u + 1) x y) (λ x y. color)
        (picture_of size cells.old) (picture_of size cells.new) }
    ensures kept { KeepsRest size cells.old cells.new }
{
    let steps = steps_in(part, course);
    for i in steps.from..steps.end {
        let u = towards(course.from_u, course.to_u, i);
        let v = towards(course.from_v, course.to_v, risen(course, i));
        let dot = Dot {
            is_steep: course.is_steep,
            u,
            v,
        };
        draw_dot(cells, size, part, dot, color);
    }
}

/// Makes the tile of one step's pixel, where it lies in a part, the surface's own.
fn own_dot(cells: &mut [Cell], alloc: Global, part: Part, dot: Dot) -> Result<(), OutOfMemory>
    requires cells { length cells.old ≡ 1024 }
    requires columns { part.x + part.w ≤ 2048 }
    requires rows { part.y + part.h ≤ 2048 }
    ensures same { map cell_pixels cells.new ≡ map cell_pixels cells.old }
    ensures stays { StaysOwn cells.old cells.new }
    ensures own { OnOk result (OwnsPixels cells.new (λ x y. in_part part x y && is_dot dot.is_steep dot.u dot.v x y)) }
{
    match dot_in(part, dot) {
        None => Ok(()),
        Some((x, y)) => own_at(cells, alloc, x, y),
    }
}

/// Gives one step's pixel a colour where it lies in a part.
fn draw_dot(cells: &mut [Cell], size: Size, part: Part, dot: Dot, color: u32)
    requires tiled { IsTiled size cells.old }
    requires inside { IsInside size part }
    requires own { OwnsPixels cells.old (λ x y. in_part part x y && is_dot dot.is_steep dot.u dot.v x y) }
    ensures painted { IsRepainted size (λ x y. in_part part x y && is_dot dot.is_steep dot.u dot.v x y) (λ x y. color)
        (picture_of size cells.old) (picture_of size cells.new) }
    ensures kept { KeepsRest size cells.old cells.new }
{
    match dot_in(part, dot) {
        None => {}
        Some((x, y)) => write_dot(cells, size, x, y, color),
    }
}

/// The pixel of a part that a step's coordinates name, where it has one.
fn dot_in(part: Part, dot: Dot) -> Option<(usize, usize)>
    requires columns { part.x + part.w ≤ 2048 }
    requires rows { part.y + part.h ≤ 2048 }
    ensures inside { IfSome result (λ place. IsTrue (in_part part place.0 place.1)) }
    ensures pixel { (x y : ℕ) → (in_part part x y && is_dot dot.is_steep dot.u dot.v x y) ≡ is_place result x y }
{
    if dot.is_steep {
        pixel_in(part, dot.v, dot.u)
    } else {
        pixel_in(part, dot.u, dot.v)
    }
}

/// The pixel of a part at a shifted column and a shifted row, where it has one.
fn pixel_in(part: Part, x: usize, y: usize) -> Option<(usize, usize)>
    requires columns { part.x + part.w ≤ 2048 }
    requires rows { part.y + part.h ≤ 2048 }
    ensures inside { IfSome result (λ place. IsTrue (in_part part place.0 place.1)) }
    ensures pixel { (u v : ℕ) → (in_part part u v && ((u + 4096 == x) && (v + 4096 == y))) ≡ is_place result u v }
{
    let left = part.x + SHIFT;
    let top = part.y + SHIFT;
    if left <= x && x < left + part.w && top <= y && y < top + part.h {
        Some((x - SHIFT, y - SHIFT))
    } else {
        None
    }
}
