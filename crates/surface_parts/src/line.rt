//! Lines, one pixel for each step along their longer side.
//!
//! Coordinates are shifted by 4,096, so that none of an end's is negative.
ghost use Rattle.std.specs.Prelude.{◌≡◌, ℕ, ◌+◌, ◌-◌, ◌<◌, ◌≤◌, ◌==◌, ◌&&◌, None, pos, negsuc, ◌+ℤ◌, ◌≤ℤ◌};
ghost use Rattle.px_core.specs.Rectangle.{in_clip};
ghost use Rattle.draw_ops.specs.Fits.{clip_rule, line_rule};
ghost use Rattle.draw_ops.specs.Formulas.{picture_after};
ghost use Rattle.surface_parts.specs.Lined.{lined, IsCourseOf};
ghost use Rattle.surface_parts.specs.Parts.{in_part, IsCanvas, IsInside, IsRepainted};
ghost use Rattle.surface_parts.specs.Courses.{apart, step, rise, is_course_pixel, is_dot, IsCourse};
ghost use Rattle.surface_parts.specs.SeenSteps.{side_along, AreSeenSteps, HasStepsBetween};

use crate::part::{Part, visible};
use crate::window::Window;
use px_core::{Rect, Size};

/// How far coordinates are shifted.
const SHIFT: usize = 4_096;

/// The ends of a line.
#[derive(Clone, Copy)]
pub struct Ends {
    pub x0: i32,
    pub y0: i32,
    pub x1: i32,
    pub y1: i32,
}

/// The ends of a line as its longer side sees them: the first coordinate is the one that changes with every step, the row's where the line is steep.
#[derive(Clone, Copy)]
pub struct Course {
    pub is_steep: bool,
    pub from_u: usize,
    pub from_v: usize,
    pub to_u: usize,
    pub to_v: usize,
}

/// Some steps of a course that follow each other, counted from 0: the first one, and the first one behind them.
#[derive(Clone, Copy)]
pub struct Steps {
    pub from: usize,
    pub end: usize,
}

/// The pixel of one step, by its two coordinates as a course sees them.
#[derive(Clone, Copy)]
pub struct Dot {
    pub is_steep: bool,
    pub u: usize,
    pub v: usize,
}

/// Gives the pixels of a line that lie in a part one colour.
pub fn draw_course(pixels: &mut [u32], size: Size, part: Part, course: Course, color: u32)
    requires canvas { IsCanvas size pixels.old }
    requires inside { IsInside size part }
    requires course { IsCourse course }
    ensures { IsRepainted size (λ x y. in_part part x y && is_course_pixel course (apart course.from_u course.to_u + 1) x y) (λ x y. color) pixels.old pixels.new }
{
    let steps = steps_in(part, course);
    for i in steps.from..steps.end {
        let u = towards(course.from_u, course.to_u, i);
        let v = towards(course.from_v, course.to_v, risen(course, i));
        let dot = Dot {
            is_steep: course.is_steep,
            u,
            v,
        };
        draw_dot(pixels, size, part, dot, color);
    }
}

/// The steps of a course that can have pixels in a part, by the coordinate of its longer side: no more than the part has pixels that way.
pub fn steps_in(part: Part, course: Course) -> Steps
    requires columns { part.x + part.w ≤ 2048 }
    requires rows { part.y + part.h ≤ 2048 }
    requires course { IsCourse course }
    ensures ordered { result.from ≤ result.end }
    ensures within { result.end ≤ apart course.from_u course.to_u + 1 }
    ensures few { result.end ≤ result.from + side_along course part }
    ensures seen { AreSeenSteps part course result }
{
    if course.is_steep {
        steps_between(course, part.y + SHIFT, part.y + SHIFT + part.h)
    } else {
        steps_between(course, part.x + SHIFT, part.x + SHIFT + part.w)
    }
}

/// The steps of a course at which the coordinate of the longer side is at least `low` and below `high`.
fn steps_between(course: Course, low: usize, high: usize) -> Steps
    requires course { IsCourse course }
    requires bounds { low ≤ high }
    ensures ordered { result.from ≤ result.end }
    ensures within { result.end ≤ apart course.from_u course.to_u + 1 }
    ensures few { result.end ≤ result.from + (high - low) }
    ensures seen { HasStepsBetween course low high result }
{
    let behind_last = distance(course.from_u, course.to_u) + 1;
    let (from, end) = if course.from_u <= course.to_u {
        (
            low.saturating_sub(course.from_u),
            high.saturating_sub(course.from_u),
        )
    } else {
        let behind = course.from_u + 1;
        (behind.saturating_sub(high), behind.saturating_sub(low))
    };
    let end = end.min(behind_last);
    Steps {
        from: from.min(end),
        end,
    }
}

/// How far the second coordinate has moved after so many steps.
pub fn risen(course: Course, i: usize) -> usize
    requires course { IsCourse course }
    requires step { i ≤ apart course.from_u course.to_u }
    ensures rise { result ≡ rise course i }
    ensures bound { result ≤ apart course.from_v course.to_v }
{
    let du = distance(course.from_u, course.to_u);
    let dv = distance(course.from_v, course.to_v);
    (2 * (i * dv) + du) / (2 * du)
}

/// How far two coordinates are apart.
pub fn distance(a: usize, b: usize) -> usize
    ensures { result ≡ apart a b }
{
    if a < b { b - a } else { a - b }
}

/// So many steps from one coordinate towards another.
pub fn towards(from: usize, to: usize, n: usize) -> usize
    requires small { from ≤ 8191 }
    requires far { to ≤ 8191 }
    requires within { n ≤ apart from to }
    ensures step { result ≡ step from to n }
    ensures bound { result ≤ 8191 }
{
    if from <= to { from + n } else { from - n }
}

/// Gives one pixel a colour where it lies in a part.
fn draw_dot(pixels: &mut [u32], size: Size, part: Part, dot: Dot, color: u32)
    requires canvas { IsCanvas size pixels.old }
    requires inside { IsInside size part }
    ensures { IsRepainted size (λ x y. in_part part x y && is_dot dot.is_steep dot.u dot.v x y) (λ x y. color) pixels.old pixels.new }
{
    let (x, y) = if dot.is_steep {
        (dot.v, dot.u)
    } else {
        (dot.u, dot.v)
    };
    draw_pixel(pixels, size, part, x, y, color)
}

/// Gives one pixel a colour where it lies in a part.
fn draw_pixel(pixels: &mut [u32], size: Size, part: Part, x: usize, y: usize, color: u32)
    requires canvas { IsCanvas size pixels.old }
    requires inside { IsInside size part }
    ensures { IsRepainted size (λ u v. in_part part u v && ((u + 4096 == x) && (v + 4096 == y))) (λ u v. color) pixels.old pixels.new }
{
    let left = part.x + SHIFT;
    let top = part.y + SHIFT;
    if left <= x && x < left + part.w && top <= y && y < top + part.h {
        let at = size.w as usize * (y - SHIFT) + (x - SHIFT);
        pixels[at] = color;
    }
}

/// Gives the pixels of a line one colour, within a clip.
pub fn draw_line(pixels: &mut [u32], window: Window, ends: Ends, color: u32)
    requires canvas { IsCanvas window.size pixels.old }
    requires clip { clip_rule window.size window.clip ≡ None }
    requires ends { line_rule ends.x0 ends.y0 ends.x1 ends.y1 ≡ None }
    ensures { pixels.new ≡ picture_after window.size (in_clip window.clip) (lined ends color) pixels.old }
{
    let whole = Rect {
        x: 0,
        y: 0,
        w: window.size.w,
        h: window.size.h,
    };
    match visible(window, whole) {
        None => {}
        Some(part) => draw_course(pixels, window.size, part, course_of(ends), color),
    }
}

/// The way of a line along its longer side.
pub fn course_of(ends: Ends) -> Course
    requires { line_rule ends.x0 ends.y0 ends.x1 ends.y1 ≡ None }
    ensures course { IsCourse result }
    ensures from { IsCourseOf ends result }
{
    let x0 = shifted(ends.x0);
    let y0 = shifted(ends.y0);
    let x1 = shifted(ends.x1);
    let y1 = shifted(ends.y1);
    if distance(y0, y1) <= distance(x0, x1) {
        Course {
            is_steep: false,
            from_u: x0,
            from_v: y0,
            to_u: x1,
            to_v: y1,
        }
    } else {
        Course {
            is_steep: true,
            from_u: y0,
            from_v: x0,
            to_u: y1,
            to_v: x1,
        }
    }
}

/// A coordinate, shifted.
fn shifted(z: i32) -> usize
    requires low { negsuc 4095 ≤ℤ z }
    requires high { z ≤ℤ pos 4095 }
    ensures value { pos result ≡ z +ℤ pos 4096 }
    ensures bound { result ≤ 8191 }
{
    (z + SHIFT as i32) as usize
}
