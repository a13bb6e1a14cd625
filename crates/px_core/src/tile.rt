//! Tiles: squares of 64 by 64 pixels, numbered row by row, 32 to a row (profile).
ghost use Rattle.std.specs.Prelude.{◌≡◌, ◌<◌};
ghost use Rattle.px_core.specs.Rectangle.{IsPlaced};
ghost use Rattle.px_core.specs.Tiles.{tile_rect, tile_on};

use crate::rectangle::{Rect, common, whole};
use crate::surface::Size;

/// The sides of a tile, in pixels.
pub const TILE_SIDE: u32 = 64;

/// The number of tiles in a row.
pub const TILES_IN_ROW: u32 = 32;

/// The number of tiles, which is that of the greatest picture's.
pub const TILES: u32 = 1_024;

/// The pixels of a tile.
pub fn tile_rect(tile: u32) -> Rect
    requires { tile < 1024 }
    ensures pixels { result ≡ tile_rect tile }
    ensures placed { IsPlaced result }
{
    Rect {
        x: (TILE_SIDE * (tile % TILES_IN_ROW)) as i32,
        y: (TILE_SIDE * (tile / TILES_IN_ROW)) as i32,
        w: TILE_SIDE,
        h: TILE_SIDE,
    }
}

/// The part of a tile that lies on a picture; a side is 0 where none does.
pub fn tile_on(size: Size, tile: u32) -> Rect
    requires { tile < 1024 }
    ensures { result ≡ tile_on size tile }
{
    common(tile_rect(tile), whole(size))
}
