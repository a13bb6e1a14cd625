//! The rules that a drawing must keep, one function each: what it answers is the rule's number where the rule is broken (profile).
ghost use Rattle.std.specs.Prelude.{◌≡◌, ◌+◌, ◌*◌, ◌/◌, ◌&&◌, ◌||◌, nat_le};
ghost use Rattle.std.specs.Ordering.{int_eq};
ghost use Rattle.draw_ops.specs.Fits.{first_some, broken_if, is_corner, rect_rule, place_rule, clip_rule, no_clip_rule, code_rule, copied_rule};
ghost use Rattle.draw_ops.specs.Fits.{limit_rule, codes_rule, image_rule, is_offset, glyph_rule, line_rule, starts_at_0, deltas_are_small, run_rule};
ghost use Rattle.draw_ops.specs.Fits.{saved_rule};

use crate::glyph::Glyph;
use crate::image::Image;
use crate::rect_rule::{is_drawn_corner, keeps_rect_rule};
use px_core::{Rect, Size, has_pixel, is_inside};
use rop3_core::{needs_pattern, needs_source};

/// A rectangle's sides and corner, and the place of a text or of a restored block.
const PLACE_RULE: u8 = 1;

/// The clip.
const CLIP_RULE: u8 = 2;

/// What the code needs.
const CODE_RULE: u8 = 3;

/// The source rectangle of a copy.
const SOURCE_RULE: u8 = 4;

/// The numbers of slots, fonts and glyphs.
const LIMIT_RULE: u8 = 5;

/// What is loaded.
const CONTENT_RULE: u8 = 6;

/// A line's ends.
const LINE_RULE: u8 = 7;

/// A run.
const RUN_RULE: u8 = 8;

/// The rectangle of a save.
const SAVE_RULE: u8 = 9;

/// The greatest code of a glyph.
const GREATEST_CODE: u8 = 255;

/// The most columns, and the most rows, of an image.
const IMAGE_SIDE_LIMIT: u16 = 64;

/// The most columns, and the most rows, of a glyph.
const GLYPH_SIDE_LIMIT: u16 = 32;

/// The least offset of a glyph.
const LEAST_OFFSET: i32 = -64;

/// The greatest offset of a glyph.
const GREATEST_OFFSET: i32 = 64;

/// The most glyphs of a run.
const RUN_LIMIT: usize = 64;

/// The greatest delta of a run.
const GREATEST_DELTA: u8 = 127;

/// The first of some refusals.
pub(crate) fn first_broken(rules: &[Option<u8>]) -> Option<u8>
    ensures { result ≡ first_some rules.now }
{
    for rule in rules {
        if let Some(rule) = rule {
            return Some(*rule);
        }
    }
    None
}

/// A rule's number where a test says that it is broken.
fn broken_if(test: bool, rule: u8) -> Option<u8>
    ensures { result ≡ broken_if test rule }
{
    if test { Some(rule) } else { None }
}

/// The rule of a rectangle's sides and corner.
pub(crate) fn rect_rule(r: Rect) -> Option<u8>
    ensures { result ≡ rect_rule r }
{
    broken_if(!keeps_rect_rule(r), PLACE_RULE)
}

/// The rule of the place of a text or of a restored block.
pub(crate) fn place_rule(x: i32, y: i32) -> Option<u8>
    ensures { result ≡ place_rule x y }
{
    broken_if(!is_drawn_point(x, y), PLACE_RULE)
}

/// The rule of a clip.
pub(crate) fn clip_rule(s: Size, clip: Option<Rect>) -> Option<u8>
    ensures { result ≡ clip_rule s clip }
{
    match clip {
        None => None,
        Some(clip) => broken_if(!(has_pixel(clip) && is_inside(s, clip)), CLIP_RULE),
    }
}

/// The rule that there is no clip.
pub(crate) fn no_clip_rule(clip: Option<Rect>) -> Option<u8>
    ensures { result ≡ no_clip_rule clip }
{
    match clip {
        None => None,
        Some(_) => Some(CLIP_RULE),
    }
}

/// The rule of what a code needs.
pub(crate) fn code_rule(has_pattern: bool, has_source: bool, code: u8) -> Option<u8>
    ensures { result ≡ code_rule has_pattern has_source code }
{
    let lacks_pattern = needs_pattern(code) && !has_pattern;
    let lacks_source = needs_source(code) && !has_source;
    broken_if(lacks_pattern || lacks_source, CODE_RULE)
}

/// The rule of the source rectangle of a copy.
pub(crate) fn copied_rule(s: Size, r: Rect, sx: i32, sy: i32) -> Option<u8>
    ensures { result ≡ copied_rule s r sx sy }
{
    let source = Rect {
        x: sx,
        y: sy,
        w: r.w,
        h: r.h,
    };
    broken_if(!is_inside(s, source), SOURCE_RULE)
}

/// The rule of a slot's, a font's or a glyph's number.
pub(crate) fn limit_rule(most: u8, number: u8) -> Option<u8>
    ensures { result ≡ limit_rule most number }
{
    broken_if(most < number, LIMIT_RULE)
}

/// The rule of the codes of a run.
pub(crate) fn codes_rule(pairs: &[(u8, u8)]) -> Option<u8>
    ensures { result ≡ codes_rule pairs.now }
{
    for pair in pairs {
        if let Some(rule) = limit_rule(GREATEST_CODE, pair.0) {
            return Some(rule);
        }
    }
    None
}

/// The rule of an image.
pub(crate) fn image_rule(image: &Image) -> Option<u8>
    ensures { result ≡ image_rule image.now }
{
    let pixels = usize::from(image.w()) * usize::from(image.h());
    let is_wide = 1 <= image.w() && image.w() <= IMAGE_SIDE_LIMIT;
    let is_high = 1 <= image.h() && image.h() <= IMAGE_SIDE_LIMIT;
    let is_whole = image.pixels().len() == pixels;
    broken_if(!(is_wide && (is_high && is_whole)), CONTENT_RULE)
}

/// Whether a glyph's cell may be so far from the pen.
fn is_offset(at: i32) -> bool
    ensures { result ≡ is_offset at }
{
    LEAST_OFFSET <= at && at <= GREATEST_OFFSET
}

/// Whether a glyph's cell may be so far from the pen both ways.
fn is_near(x: i32, y: i32) -> bool
    ensures { result ≡ (is_offset x && is_offset y) }
{
    is_offset(x) && is_offset(y)
}

/// Whether a glyph may have so many columns or rows.
fn is_glyph_side(side: u16) -> bool
    ensures { result ≡ (nat_le 1 side && nat_le side 32) }
{
    1 <= side && side <= GLYPH_SIDE_LIMIT
}

/// The number of bytes of a glyph's rows.
fn glyph_bytes(cx: u16, cy: u16) -> usize
    ensures { result ≡ (cx + 7) / 8 * cy }
{
    (usize::from(cx) + 7) / 8 * usize::from(cy)
}

/// The rule of a glyph.
pub(crate) fn glyph_rule(glyph: &Glyph) -> Option<u8>
    ensures { result ≡ glyph_rule glyph.now }
{
    let is_near = is_near(glyph.x(), glyph.y());
    let is_whole = glyph.bits().len() == glyph_bytes(glyph.cx(), glyph.cy());
    let is_high = is_glyph_side(glyph.cy());
    broken_if(
        !(is_glyph_side(glyph.cx()) && (is_high && (is_near && is_whole))),
        CONTENT_RULE,
    )
}

/// Whether a line is upright or level.
fn is_straight(x0: i32, y0: i32, x1: i32, y1: i32) -> bool
    ensures { result ≡ (int_eq x0 x1 || int_eq y0 y1) }
{
    x0 == x1 || y0 == y1
}

/// Whether a point lies in the range of corners.
fn is_drawn_point(x: i32, y: i32) -> bool
    ensures { result ≡ (is_corner x && is_corner y) }
{
    is_drawn_corner(x) && is_drawn_corner(y)
}

/// Whether both ends of a line lie in the range of corners.
fn are_drawn_ends(x0: i32, y0: i32, x1: i32, y1: i32) -> bool
    ensures { result ≡ ((is_corner x0 && is_corner y0) && (is_corner x1 && is_corner y1)) }
{
    is_drawn_point(x0, y0) && is_drawn_point(x1, y1)
}

/// The rule of a line's ends.
pub(crate) fn line_rule(x0: i32, y0: i32, x1: i32, y1: i32) -> Option<u8>
    ensures { result ≡ line_rule x0 y0 x1 y1 }
{
    let is_near = are_drawn_ends(x0, y0, x1, y1);
    let is_broken = is_straight(x0, y0, x1, y1) || !is_near;
    broken_if(is_broken, LINE_RULE)
}

/// Whether a run's first delta is 0.
fn starts_at_0(pairs: &[(u8, u8)]) -> bool
    ensures { result ≡ starts_at_0 pairs.now }
{
    match pairs.first() {
        None => false,
        Some(pair) => pair.1 == 0,
    }
}

/// Whether no delta of a run is above its limit.
fn deltas_are_small(pairs: &[(u8, u8)]) -> bool
    ensures { result ≡ deltas_are_small pairs.now }
{
    for pair in pairs {
        if pair.1 > GREATEST_DELTA {
            return false;
        }
    }
    true
}

/// The rule of a run.
pub(crate) fn run_rule(pairs: &[(u8, u8)]) -> Option<u8>
    ensures { result ≡ run_rule pairs.now }
{
    let is_short = pairs.len() <= RUN_LIMIT;
    broken_if(
        !(is_short && (starts_at_0(pairs) && deltas_are_small(pairs))),
        RUN_RULE,
    )
}

/// The rule of the rectangle of a save.
pub(crate) fn saved_rule(s: Size, r: Rect) -> Option<u8>
    ensures { result ≡ saved_rule s r }
{
    broken_if(!is_inside(s, r), SAVE_RULE)
}
