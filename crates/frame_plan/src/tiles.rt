//! The tiles of a frame, which its session lends.
ghost use Rattle.std.specs.Prelude.{◌≡◌, ℕ, false, ◌+◌, ◌*◌, ◌/◌, ◌≤◌, ◌<◌, ◌&&◌, map, All, IfOk, IsTrue};
ghost use Rattle.px_core.specs.Rectangle.{is_session_size, has_pixel};
ghost use Rattle.px_core.specs.Tiles.{either_tiles, tile_on, tiles_in};
ghost use Rattle.px_core.specs.TileFlags.{tiles};
ghost use Rattle.frame_plan.specs.Takes.{tile_taken};
ghost use Rattle.frame_plan.specs.TileParts.{picture_by, IsOnPicture};

use crate::{OutOfMemory, TakenTile};
use px_core::{Size, TILE_SIDE, TILES_IN_ROW, TileSet, has_pixel, tile_on};
use session_core::Session;
use std::alloc::Global;

/// The numbers of the tiles that are dirty or asked for, ascending.
pub(crate) fn tiles_due(
    alloc: Global,
    size: Size,
    dirty: &TileSet,
    asked: &TileSet,
) -> Result<Vec<u32>, OutOfMemory>
    requires { IsTrue (is_session_size size.w size.h) }
    ensures { IfOk result (λ due. due.items ≡ tiles_in size (either_tiles (tiles dirty.now) (tiles asked.now))) }
{
    let mut due = Vec::new(alloc);
    for tile in 0..tiles_end(size, dirty, asked) {
        if is_taken(size, tile, dirty, asked) {
            due.push(tile)?;
        }
    }
    Ok(due)
}

/// Handles of tiles of a session, in this order. The session is as it was, also after an `Err`.
pub(crate) fn lend_tiles(
    alloc: Global,
    session: &mut Session,
    due: &[u32],
) -> Result<Vec<TakenTile>, OutOfMemory>
    requires { All (IsOnPicture session.old.head.size) due.now }
    ensures lent { IfOk result (λ all. all.items ≡ map (tile_taken session.old.head.size (picture_by session.old)) due.now) }
    ensures unchanged { session.new ≡ session.old }
{
    let mut all = Vec::with_capacity(alloc, due.len())?;
    for tile in due {
        all.push(lend_tile(session, *tile)?)?;
    }
    Ok(all)
}

/// A handle of a tile of a session. The session is as it was, also after an `Err`.
fn lend_tile(session: &mut Session, tile: u32) -> Result<TakenTile, OutOfMemory>
    requires { IsOnPicture session.old.head.size tile }
    ensures lent { IfOk result (λ lent. lent ≡ tile_taken session.old.head.size (picture_by session.old) tile) }
    ensures unchanged { session.new ≡ session.old }
{
    session.recall_legal();
    let part = tile_on(session.size(), tile);
    let lent = session.lend(tile)?;
    Ok(TakenTile::new(tile, part.w, part.h, lent))
}

/// Whether a tile goes: where it is dirty or asked for, and a part of it lies on the picture. Few are, so that is looked at first.
fn is_taken(size: Size, tile: u32, dirty: &TileSet, asked: &TileSet) -> bool
    requires size { IsTrue (is_session_size size.w size.h) }
    requires tile { tile < 1024 }
    ensures { result ≡ (has_pixel (tile_on size tile) && either_tiles (tiles dirty.now) (tiles asked.now) tile) }
{
    (dirty.has(tile) || asked.has(tile)) && has_pixel(tile_on(size, tile))
}

/// The first number above those of the tiles that go.
fn tiles_end(size: Size, dirty: &TileSet, asked: &TileSet) -> u32
    requires { IsTrue (is_session_size size.w size.h) }
    ensures within { result ≤ 32 * ((size.h + 63) / 64) }
    ensures few { result ≤ 1024 }
    ensures ends { (tile : ℕ) → result ≤ tile → tile < 32 * ((size.h + 63) / 64) → either_tiles (tiles dirty.now) (tiles asked.now) tile ≡ false }
{
    tile_numbers(size).min(dirty.end().max(asked.end()))
}

/// The first number above those of a picture's tiles.
fn tile_numbers(size: Size) -> u32
    requires { IsTrue (is_session_size size.w size.h) }
    ensures numbers { result ≡ 32 * ((size.h + 63) / 64) }
    ensures few { result ≤ 1024 }
{
    TILES_IN_ROW * ((size.h + (TILE_SIDE - 1)) / TILE_SIDE)
}
