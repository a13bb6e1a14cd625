//! Rectangles, points, and the clip at a line's end.
ghost use Rattle.std.specs.Prelude.{◌≡◌, ◌∷◌, [], MatchOption};
ghost use Rattle.script_rules.specs.Fields.{rect_fields, rect_of, is_clip_word, with_clip, without_clip};
ghost use Rattle.script_rules.specs.Fields.Field.{Coordinate};
ghost use Rattle.script_lines.specs.Reading.{Reads, ReadsNone, numbers_of, clip_of};

use crate::field::{next_coordinate, next_count};
use draw_ops::{Drawing, Shape};
use line_text::{Parts, is_same_word};
use px_core::Rect;

/// The word before a clip.
const CLIP: &[u8] = b"clip";

/// A point in pixels.
#[derive(Clone, Copy)]
pub(crate) struct Point {
    pub(crate) x: i32,
    pub(crate) y: i32,
}

/// The rectangle that the next words are.
pub(crate) fn next_rect(words: &mut Parts<'_>) -> Option<Rect>
    ensures { MatchOption result (ReadsNone rect_fields words.old) (λ r. Reads rect_fields (numbers_of r) words.old words.new) }
{
    let x = next_coordinate(words)?;
    let y = next_coordinate(words)?;
    let w = next_count(words)?;
    let h = next_count(words)?;
    Some(Rect {
        x,
        y,
        w: u32::from(w),
        h: u32::from(h),
    })
}

/// The point that the next words are.
pub(crate) fn next_point(words: &mut Parts<'_>) -> Option<Point>
    ensures { MatchOption result (ReadsNone (Coordinate ∷ Coordinate ∷ []) words.old) (λ p. Reads (Coordinate ∷ Coordinate ∷ []) (p.x ∷ p.y ∷ []) words.old words.new) }
{
    let x = next_coordinate(words)?;
    let y = next_coordinate(words)?;
    Some(Point { x, y })
}

/// The clip that stands at a line's end, where one does; `None` where anything else is left.
fn last_clip(words: &mut Parts<'_>) -> Option<Option<Rect>>
    ensures { result ≡ clip_of words.old }
{
    let Some(word) = words.next_part() else {
        return Some(None);
    };
    if is_clip_word(word) {
        last_rect(words).map(Some)
    } else {
        None
    }
}

/// Whether a word says that a clip follows.
pub(crate) fn is_clip_word(word: &[u8]) -> bool
    ensures { result ≡ is_clip_word word.now }
{
    is_same_word(word, CLIP)
}

/// The rectangle that all words left are.
pub(crate) fn last_rect(words: &mut Parts<'_>) -> Option<Rect>
    ensures { result ≡ rect_of words.old }
{
    let rect = next_rect(words)?;
    match words.next_part() {
        Some(_) => None,
        None => Some(rect),
    }
}

/// A drawing of a shape, with the clip that the words after its fields give; `None` where they are anything else. It is compiled into the
/// forms that call it, since else a shape is copied for the call and a drawing back.
#[inline(always)]
pub(crate) fn clipped(shape: Shape, words: &mut Parts<'_>) -> Option<Drawing>
    ensures { result ≡ with_clip shape words.old }
{
    match last_clip(words) {
        Some(clip) => Some(Drawing { shape, clip }),
        None => None,
    }
}

/// A drawing of a shape, where no words are left.
pub(crate) fn unclipped(shape: Shape, words: &mut Parts<'_>) -> Option<Drawing>
    ensures { result ≡ without_clip shape words.old }
{
    match words.next_part() {
        Some(_) => None,
        None => Some(Drawing { shape, clip: None }),
    }
}
