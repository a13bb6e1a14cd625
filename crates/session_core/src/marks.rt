//! The marks of tiles and of slots of saved blocks.
ghost use Rattle.std.specs.Prelude.{◌≡◌, ℕ, ◌≤◌, ◌<◌, IfOk, IfSome, length, IsTrue};
ghost use Rattle.px_core.specs.Rectangle.{is_session_size};
ghost use Rattle.px_core.specs.Tiles.{either_tiles, tile_rect, tiles_of};
ghost use Rattle.px_core.specs.TileFlags.{tiles, box_tiles, row_tiles};
ghost use Rattle.session_core.specs.Marking.{unmarked, marks_in, noted, past};
ghost use Rattle.session_core.specs.About.{is_into};

use draw_ops::OutOfMemory;
use px_core::{
    Rect, Size, TILES, TILES_IN_ROW, TileSet, TileStretch, tile_rect, touched_columns, touched_rows,
};
use std::alloc::Global;
use std::marker::Model;

/// How many slots of saved blocks drawings may name.
const SLOTS: u8 = 16;

/// For each tile the number of entries up to the last one that touched it, and 0 where none did; likewise for each slot of saved blocks.
///
/// The tiles' numbers stand in a box, 8 KiB, so that whoever holds a session by value moves no more than a handle of them.
#[derive(Drop)]
pub struct Marks {
    tiles: Box<[u64; 1024]>,
    slots: [u64; 16],
}

impl Model for Marks {
    ghost use Rattle.std.specs.Prelude.{◌≡◌, length};
    ghost use Rattle.std.specs.Box.{box_value};
    ghost use Rattle.session_core.specs.Marking.{Marked};

    ghost Value = { Marked };

    ghost view = { λ m. record { tiles = box_value m.tiles; slots = m.slots } };

    ghost invariant = { λ m. (length (box_value m.tiles) ≡ 1024) × (length m.slots ≡ 16) };
}

impl Marks {
    /// Nothing is touched, and no slot is saved into.
    pub fn new(alloc: Global) -> Result<Marks, OutOfMemory>
        ensures { IfOk result (λ marks. marks ≡ unmarked) }
    {
        let tiles = Box::new(alloc, [0; 1024])?;
        Ok(Marks {
            tiles,
            slots: [0; 16],
        })
    }

    /// Notes the tiles of a rectangle that a drawing touches, and the slot that it saves into, if any, by an entry's number.
    pub fn note(&mut self, rect: Rect, saves: Option<u8>, s: Size, number: u64)
        requires size { IsTrue (is_session_size s.w s.h) }
        requires slot { IfSome saves (λ slot. slot ≤ 15) }
        ensures tiles { marks_in self.new.tiles ≡ noted (tiles_of s rect) number (marks_in self.old.tiles) }
        ensures slots { marks_in self.new.slots ≡ noted (is_into saves) number (marks_in self.old.slots) }
    {
        self.note_tiles(rect, s, number);
        match saves {
            None => {}
            Some(slot) => {
                self.slots[usize::from(slot)] = number;
            }
        }
    }

    /// Notes each tile that has a pixel of a rectangle on a picture.
    fn note_tiles(&mut self, r: Rect, s: Size, number: u64)
        requires { IsTrue (is_session_size s.w s.h) }
        ensures tiles { marks_in self.new.tiles ≡ noted (tiles_of s r) number (marks_in self.old.tiles) }
        ensures slots { self.new.slots ≡ self.old.slots }
    {
        let columns = touched_columns(r, s);
        let rows = touched_rows(r, s);
        note_rows(self.tiles.as_mut_slice(), rows, columns, number);
    }

    /// Adds the tiles that are noted past a number to a set.
    pub fn add_past(&self, before: u64, s: Size, set: &mut TileSet)
        requires size { IsTrue (is_session_size s.w s.h) }
        requires on_picture { (tile : ℕ) → IsTrue (past before self.now.tiles tile) → IsTrue (tiles_of s (tile_rect tile) tile) }
        ensures { tiles set.new ≡ either_tiles (tiles set.old) (past before self.now.tiles) }
    {
        self.recall_ends();
        for tile in 0..TILES {
            if self.is_touched_past(before, tile) {
                set.add(tile_rect(tile), s);
            }
        }
    }

    /// Whether a tile is noted past a number.
    fn is_touched_past(&self, before: u64, tile: u32) -> bool
        requires { tile < 1024 }
        ensures { result ≡ past before self.now.tiles tile }
    {
        before < self.tiles[tile as usize]
    }

    /// Whether a slot is noted past a number. None above 15 is.
    pub fn is_saved_past(&self, before: u64, slot: u8) -> bool
        ensures { result ≡ past before self.now.slots slot }
    {
        slot < SLOTS && before < self.slots[usize::from(slot)]
    }

    /// No tile above 1,023 and no slot above 15 is noted; it does nothing.
    pub fn recall_ends(&self)
        ensures tiles { (tile : ℕ) → 1024 ≤ tile → marks_in self.now.tiles tile ≡ 0 }
        ensures slots { (slot : ℕ) → 16 ≤ slot → marks_in self.now.slots slot ≡ 0 }
    {
        let _last = self.slots[15];
    }
}

/// Notes the tiles of some columns in some rows.
fn note_rows(numbers: &mut [u64], rows: TileStretch, columns: TileStretch, number: u64)
    requires count { length numbers.old ≡ 1024 }
    requires rows { rows.from ≤ rows.end }
    requires low { rows.end ≤ 32 }
    requires columns { columns.from ≤ columns.end }
    requires right { columns.end ≤ 32 }
    ensures { (t : ℕ) → marks_in numbers.new t ≡ noted (box_tiles rows.from rows.end columns.from columns.end) number (marks_in numbers.old) t }
{
    for row in rows.from..rows.end {
        note_row(numbers, row, columns, number);
    }
}

/// Notes the tiles of some columns in a row.
fn note_row(numbers: &mut [u64], row: usize, columns: TileStretch, number: u64)
    requires count { length numbers.old ≡ 1024 }
    requires row { row < 32 }
    requires ordered { columns.from ≤ columns.end }
    requires columns { columns.end ≤ 32 }
    ensures { marks_in numbers.new ≡ noted (row_tiles row columns.from columns.end) number (marks_in numbers.old) }
{
    for column in columns.from..columns.end {
        numbers[TILES_IN_ROW as usize * row + column] = number;
    }
}
