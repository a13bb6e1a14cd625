//! Sets of tiles: squares of 64 by 64 pixels, numbered row by row, 32 to a row (profile).
ghost use Rattle.std.specs.Prelude.{◌≡◌, ◌≤◌, ◌<◌, length, IsTrue};
ghost use Rattle.px_core.specs.Rectangle.{is_session_size, IsPlaced};
ghost use Rattle.px_core.specs.Tiles.{no_tiles, either_tiles, tiles_of, share_tile};
ghost use Rattle.px_core.specs.TileFlags.{tiles, row_tiles, IsNextTile, IsShared, EndsBelow};

use crate::rectangle::Rect;
use crate::surface::Size;
use crate::tile::{TILES, TILES_IN_ROW};
use crate::tile_stretch::{TileStretch, touched_columns, touched_rows};
use std::marker::Model;

/// A set of tiles, by their numbers from 0 to 1,023. Tile `32 * row + column` has 64 by 64 pixels.
#[derive(Debug, Drop)]
pub struct TileSet {
    flags: [bool; 1024],
    end: u32,
}

impl Model for TileSet {
    ghost use Rattle.std.specs.Prelude.{List, Bool};
    ghost use Rattle.px_core.specs.TileFlags.{tiles, EndsBelow};

    ghost Value = { List Bool };

    ghost view = { λ s. s.flags };

    ghost invariant = { λ s. EndsBelow (tiles s.flags) s.end };
}

impl TileSet {
    /// No tile.
    pub fn none() -> TileSet
        ensures { tiles result ≡ no_tiles }
    {
        TileSet {
            flags: [false; 1024],
            end: 0,
        }
    }

    /// Adds each tile that has a pixel of a rectangle on a picture.
    pub fn add(&mut self, r: Rect, s: Size)
        requires placed { IsPlaced r }
        requires size { IsTrue (is_session_size s.w s.h) }
        ensures { tiles self.new ≡ either_tiles (tiles self.old) (tiles_of s r) }
    {
        let columns = touched_columns(r, s);
        let rows = touched_rows(r, s);
        let end = self.end.max(TILES_IN_ROW * rows.end as u32);
        for row in rows.from..rows.end {
            set_row(&mut self.flags, row, columns);
        }
        self.end = end;
    }

    /// A number that no tile of the set has, nor has one a greater number.
    pub fn end(&self) -> u32
        ensures ends { EndsBelow (tiles self.now) result }
    {
        self.end
    }

    /// Whether a tile is in the set; a number above 1,023 isn't.
    pub fn has(&self, tile: u32) -> bool
        ensures { result ≡ tiles self.now tile }
    {
        if tile < TILES {
            self.flags[tile as usize]
        } else {
            false
        }
    }

    /// Whether a tile of the set has a pixel of a rectangle on a picture.
    pub fn meets(&self, r: Rect, s: Size) -> bool
        requires placed { IsPlaced r }
        requires size { IsTrue (is_session_size s.w s.h) }
        ensures { result ≡ share_tile s (tiles self.now) (tiles_of s r) }
    {
        let columns = touched_columns(r, s);
        let rows = touched_rows(r, s);
        for row in rows.from..rows.end {
            if is_row_met(&self.flags, row, columns) {
                return true;
            }
        }
        false
    }

    /// The least tile of the set that isn't below a number; `None` exactly where there is none.
    pub fn next(&self, from: u32) -> Option<u32>
        ensures { IsNextTile (tiles self.now) from result }
    {
        for tile in from..self.end.min(TILES) {
            if self.flags[tile as usize] {
                return Some(tile);
            }
        }
        None
    }
}

/// Adds the tiles of some columns in a row.
fn set_row(flags: &mut [bool], row: usize, columns: TileStretch)
    requires count { length flags.old ≡ 1024 }
    requires row { row < 32 }
    requires ordered { columns.from ≤ columns.end }
    requires columns { columns.end ≤ 32 }
    ensures set { tiles flags.new ≡ either_tiles (tiles flags.old) (row_tiles row columns.from columns.end) }
{
    for column in columns.from..columns.end {
        flags[TILES_IN_ROW as usize * row + column] = true;
    }
}

/// Whether a tile of some columns in a row is in a set.
fn is_row_met(flags: &[bool], row: usize, columns: TileStretch) -> bool
    requires count { length flags.now ≡ 1024 }
    requires row { row < 32 }
    requires ordered { columns.from ≤ columns.end }
    requires columns { columns.end ≤ 32 }
    ensures { IsShared result (tiles flags.now) (row_tiles row columns.from columns.end) }
{
    for column in columns.from..columns.end {
        if flags[TILES_IN_ROW as usize * row + column] {
            return true;
        }
    }
    false
}
