//! The rectangle of a text: the smallest one that has the cells of all its glyphs.

ghost use Rattle.std.specs.Prelude.{◌≡◌, ◌<◌, ◌≤◌, ◌-◌, pos, negsuc, ◌≤ℤ◌, ◌+ℤ◌, ◌-ℤ◌, None, length, drop};
ghost use Rattle.std.specs.Int.{int_min, int_max};
ghost use Rattle.px_core.specs.Picture.{nat_of};
ghost use Rattle.px_core.specs.Rectangle.{joint};
ghost use Rattle.draw_ops.specs.Fits.{glyph_rule};
ghost use Rattle.draw_ops.specs.Formulas.{glyph_cell, joint_of};
ghost use Rattle.session_core.specs.Cells.{cells_along, ArePlain, IsPen, IsStretch, IsReached};

use draw_ops::Glyph;
use px_core::Rect;
use surface_parts::LoadedGlyph;

/// The rectangle of some glyphs, each of which is drawn after its delta moved the pen from (x, y) to the right.
pub fn run_rect(glyphs: &[LoadedGlyph], pairs: &[(u8, u8)], x: i32, y: i32) -> Rect
    requires some { 1 ≤ length pairs.now }
    requires each { length glyphs.now ≡ length pairs.now }
    requires plain { ArePlain glyphs.now }
    requires pen { IsPen x y (length pairs.now) }
    ensures rect { result ≡ joint_of (cells_along glyphs.now pairs.now x y) }
    ensures reached { IsReached result }
{
    rect_from(glyphs, pairs, 0, x, y)
}

/// The rectangle of the glyphs from a place on.
fn rect_from(glyphs: &[LoadedGlyph], pairs: &[(u8, u8)], i: usize, x: i32, y: i32) -> Rect
    requires some { i < length pairs.now }
    requires each { length glyphs.now ≡ length pairs.now }
    requires plain { ArePlain glyphs.now }
    requires pen { IsPen x y (length pairs.now - i) }
    ensures rect { result ≡ joint_of (cells_along (drop i glyphs.now) (drop i pairs.now) x y) }
    ensures reached { IsReached result }
{
    let pen = moved(x, pairs[i].1);
    let first = cell(glyphs[i].content(), pen, y);
    if i + 1 == pairs.len() {
        first
    } else {
        joint(first, rect_from(glyphs, pairs, i + 1, pen, y))
    }
}

/// Where a pen stands after a delta.
fn moved(x: i32, delta: u8) -> i32
    requires left { negsuc 4095 ≤ℤ x }
    requires right { x ≤ℤ pos 25000 }
    ensures { result ≡ x +ℤ pos delta }
{
    x + i32::from(delta)
}

/// The cell of a glyph that a pen draws.
fn cell(glyph: &Glyph, x: i32, y: i32) -> Rect
    requires plain { glyph_rule glyph.now ≡ None }
    requires pen { IsPen x y 0 }
    ensures cell { result ≡ glyph_cell glyph.now x y }
    ensures reached { IsReached result }
{
    Rect {
        x: x + glyph.x(),
        y: y + glyph.y(),
        w: u32::from(glyph.cx()),
        h: u32::from(glyph.cy()),
    }
}

/// The smallest rectangle that has the pixels of two.
fn joint(a: Rect, b: Rect) -> Rect
    requires first { IsReached a }
    requires second { IsReached b }
    ensures joint { result ≡ joint a b }
    ensures reached { IsReached result }
{
    Rect {
        x: lesser(a.x, b.x),
        y: lesser(a.y, b.y),
        w: joint_length(a.x, a.w, b.x, b.w),
        h: joint_length(a.y, a.h, b.y, b.h),
    }
}

/// How long the smallest stretch is that has the numbers of two.
fn joint_length(a: i32, m: u32, b: i32, n: u32) -> u32
    requires first { IsStretch a m }
    requires second { IsStretch b n }
    ensures { result ≡ nat_of (int_max (a +ℤ pos m) (b +ℤ pos n) -ℤ int_min a b) }
{
    let end = greater(end_of(a, m), end_of(b, n));
    end.abs_diff(lesser(a, b))
}

/// The first number behind a stretch.
fn end_of(from: i32, length: u32) -> i32
    requires { IsStretch from length }
    ensures { result ≡ from +ℤ pos length }
{
    from + length as i32
}

/// The lesser of two numbers.
pub fn lesser(a: i32, b: i32) -> i32
    ensures { result ≡ int_min a b }
{
    if a < b { a } else { b }
}

/// The greater of two numbers.
fn greater(a: i32, b: i32) -> i32
    ensures { result ≡ int_max a b }
{
    if a < b { b } else { a }
}
