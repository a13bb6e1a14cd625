//! A rectangle of a Bitmap update ([MS-RDPBCGR] 2.2.9.1.1.3.1.2.2).
//!
//! | offset | size | field |
//! |---|---|---|
//! | 0 | 2 | destLeft |
//! | 2 | 2 | destTop |
//! | 4 | 2 | destRight, inclusive |
//! | 6 | 2 | destBottom, inclusive |
//! | 8 | 2 | width |
//! | 10 | 2 | height |
//! | 12 | 2 | bitsPerPixel |
//! | 14 | 2 | flags |
//! | 16 | 2 | bitmapLength |
//! | 18 | bitmapLength | bitmapDataStream |

ghost use Rattle.std.specs.Prelude.{◌≡◌};
ghost use Rattle.wire_num.specs.Cursor.{ReadsFields, ReadsFieldsAs};
ghost use Rattle.order_means.specs.FrameMarks.{tile_at, tiles_at};
ghost use Rattle.update_read.specs.Parts.{corners_at, shape_at};
ghost use Rattle.update_read.specs.Told.{told_tile, ReadsTiles};

use crate::UpdateFault;
use wire_num::{Cursor, Range, Short};

/// A rectangle of a Bitmap update; `at` is the part of the body that its pixels are, raw or packed. None of its numbers is looked at.
#[derive(Clone, Copy, Debug, PartialEq, Eq)]
pub struct Tile {
    pub left: u16,
    pub top: u16,
    pub right: u16,
    pub bottom: u16,
    pub w: u16,
    pub h: u16,
    pub depth: u16,
    pub flags: u16,
    pub at: Range,
}

/// The corners of a rectangle, both inclusive.
#[derive(Clone, Copy)]
pub struct Corners {
    left: u16,
    top: u16,
    right: u16,
    bottom: u16,
}

/// The shape of a bitmap, and the number of its bytes.
#[derive(Clone, Copy)]
pub struct Shape {
    w: u16,
    h: u16,
    depth: u16,
    flags: u16,
    count: u16,
}

/// Reads the corners.
fn read_corners(cursor: &mut Cursor<'_>) -> Result<Corners, Short>
    ensures { ReadsFields corners_at result cursor.old cursor.new }
{
    let left = cursor.u16_le()?;
    let top = cursor.u16_le()?;
    let right = cursor.u16_le()?;
    let bottom = cursor.u16_le()?;
    Ok(Corners {
        left,
        top,
        right,
        bottom,
    })
}

/// Reads what stands between the corners and the bytes.
fn read_shape(cursor: &mut Cursor<'_>) -> Result<Shape, Short>
    ensures { ReadsFields shape_at result cursor.old cursor.new }
{
    let w = cursor.u16_le()?;
    let h = cursor.u16_le()?;
    let depth = cursor.u16_le()?;
    let flags = cursor.u16_le()?;
    let count = cursor.u16_le()?;
    Ok(Shape {
        w,
        h,
        depth,
        flags,
        count,
    })
}

/// Reads a rectangle.
#[tactic(auto, using(crate::proofs::Tiles::tile_from))]
fn read_tile(cursor: &mut Cursor<'_>) -> Result<Tile, Short>
    ensures { ReadsFieldsAs (told_tile cursor.old.bytes) tile_at result cursor.old cursor.new }
{
    let corners = read_corners(cursor)?;
    let shape = read_shape(cursor)?;
    let from = cursor.at();
    cursor.bytes(usize::from(shape.count))?;
    let at = Range {
        from,
        to: cursor.at(),
    };
    Ok(Tile {
        left: corners.left,
        top: corners.top,
        right: corners.right,
        bottom: corners.bottom,
        w: shape.w,
        h: shape.h,
        depth: shape.depth,
        flags: shape.flags,
        at,
    })
}

/// Reads so many rectangles and appends them.
pub fn read_tiles(
    cursor: &mut Cursor<'_>,
    count: u16,
    out: &mut Vec<Tile>,
) -> Result<(), UpdateFault>
    ensures { ReadsTiles (tiles_at count) result cursor.old cursor.new out.old.items out.new.items }
{
    for _ in 0..count {
        let tile = read_tile(cursor)?;
        out.push(tile)?;
    }
    Ok(())
}
