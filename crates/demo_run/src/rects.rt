//! Rectangles that are drawn by their numbers.

ghost use Rattle.std.specs.Prelude.{◌≡◌, ◌≤◌, pos};
ghost use Rattle.demo_run.specs.Numbers.{number_below, after_word};
ghost use Rattle.demo_run.specs.Steps.{sides_drawn, rect_drawn, inner_drawn};

use crate::numbers::below;
use px_core::{Rect, Size};
use rand_pcg::Lcg64Xsh32;

/// The columns and the rows of the picture.
pub(crate) const COLUMNS: u32 = 256;

pub(crate) const ROWS: u32 = 192;

/// The greatest side of a rectangle in pixels.
const MOST_SIDE: u32 = 64;

/// A pixel of the picture: its column, and then its row.
pub(crate) fn pixel(words: &mut Lcg64Xsh32) -> (i32, i32)
    ensures column { result.0 ≡ pos (number_below 256 words.old) }
    ensures row { result.1 ≡ pos (number_below 192 (after_word words.old)) }
    ensures after { words.new ≡ after_word (after_word words.old) }
{
    let x = below(words, COLUMNS);
    let y = below(words, ROWS);
    (x as i32, y as i32)
}

/// The sides of a rectangle.
pub(crate) fn sides(words: &mut Lcg64Xsh32) -> Size
    ensures value { result ≡ (sides_drawn words.old).value }
    ensures after { words.new ≡ (sides_drawn words.old).after }
    ensures columns { result.w ≤ 64 }
    ensures rows { result.h ≤ 64 }
{
    let w = below(words, MOST_SIDE);
    let h = below(words, MOST_SIDE);
    Size { w: 1 + w, h: 1 + h }
}

/// A rectangle whose upper left pixel is on the picture.
pub(crate) fn rect(words: &mut Lcg64Xsh32) -> Rect
    ensures value { result ≡ (rect_drawn words.old).value }
    ensures after { words.new ≡ (rect_drawn words.old).after }
{
    let (x, y) = pixel(words);
    let Size { w, h } = sides(words);
    Rect { x, y, w, h }
}

/// A rectangle that lies on the picture; its sides are drawn first.
pub(crate) fn inner_rect(words: &mut Lcg64Xsh32) -> Rect
    ensures value { result ≡ (inner_drawn words.old).value }
    ensures after { words.new ≡ (inner_drawn words.old).after }
{
    let Size { w, h } = sides(words);
    let x = below(words, COLUMNS + 1 - w);
    let y = below(words, ROWS + 1 - h);
    Rect {
        x: x as i32,
        y: y as i32,
        w,
        h,
    }
}
