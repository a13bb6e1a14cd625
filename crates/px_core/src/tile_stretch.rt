//! The rows, or the columns, of tiles that a stretch of pixels touches, wherever it stands.
ghost use Rattle.std.specs.Prelude.{◌≡◌, ℕ, ◌≤◌, pos, ◌+ℤ◌, IsTrue};
ghost use Rattle.std.specs.Int.{int_min};
ghost use Rattle.px_core.specs.Picture.{nat_of};
ghost use Rattle.px_core.specs.Rectangle.{is_session_size};
ghost use Rattle.px_core.specs.TileFlags.{is_between, touches};

use crate::rectangle::{Rect, earlier, end_of};
use crate::surface::Size;
use crate::tile::TILE_SIDE;

/// Some rows, or columns, of tiles that follow each other: the first one, and the first one behind them.
#[derive(Clone, Copy)]
pub struct TileStretch {
    pub from: usize,
    pub end: usize,
}

/// The columns of tiles that have a pixel column of a rectangle on a picture.
pub fn touched_columns(r: Rect, s: Size) -> TileStretch
    requires { IsTrue (is_session_size s.w s.h) }
    ensures ordered { result.from ≤ result.end }
    ensures inside { result.end ≤ 32 }
    ensures touched { (k : ℕ) → is_between result.from result.end k ≡ touches r.x r.w s.w k }
{
    touched(r.x, r.w, s.w)
}

/// The rows of tiles that have a pixel row of a rectangle on a picture.
pub fn touched_rows(r: Rect, s: Size) -> TileStretch
    requires { IsTrue (is_session_size s.w s.h) }
    ensures ordered { result.from ≤ result.end }
    ensures inside { result.end ≤ 32 }
    ensures touched { (k : ℕ) → is_between result.from result.end k ≡ touches r.y r.h s.h k }
{
    touched(r.y, r.h, s.h)
}

/// The rows (or columns) of tiles that have one of `length` pixel rows from `from` on, on a picture of `limit` rows.
fn touched(from: i32, length: u32, limit: u32) -> TileStretch
    requires { limit ≤ 2048 }
    ensures ordered { result.from ≤ result.end }
    ensures inside { result.end ≤ 32 }
    ensures touched { (k : ℕ) → is_between result.from result.end k ≡ touches from length limit k }
{
    let first = first_on(from);
    let end = end_on(from, length, limit);
    if first < end {
        TileStretch {
            from: (first / TILE_SIDE) as usize,
            end: ((end + (TILE_SIDE - 1)) / TILE_SIDE) as usize,
        }
    } else {
        TileStretch { from: 0, end: 0 }
    }
}

/// The first number of a stretch that isn't negative.
fn first_on(from: i32) -> u32
    ensures { result ≡ nat_of from }
{
    if from < 0 { 0 } else { from as u32 }
}

/// The first number behind a stretch and a picture of `limit` rows, and 0 where the stretch ends before the picture.
fn end_on(from: i32, length: u32, limit: u32) -> u32
    requires { limit ≤ 2048 }
    ensures end { result ≡ nat_of (int_min (from +ℤ pos length) (pos limit)) }
    ensures below { result ≤ 2048 }
{
    let end = earlier(end_of(from, length), i64::from(limit));
    if end < 0 { 0 } else { end as u32 }
}
