//! The rectangles of a Bitmap update ([MS-RDPBCGR] 2.2.9.1.1.3.1.2).

ghost use Rattle.std.specs.Prelude.{◌≡◌, OnErr};
ghost use Rattle.order_means.specs.FrameMarks.{View, tile_rect, is_tile, is_packed_tile, view_after_tile, view_after_tiles};
ghost use Rattle.update_read.specs.Told.{told_tile, told_tiles};
ghost use Rattle.client_view.specs.Views.{StandsFor, SameViewer, Obeys};
ghost use Rattle.client_view.specs.Tiles.{bare_tile};
ghost use Rattle.client_view.specs.OnTheWay.{SameCounts, Stops, AfterFirstTiles};

use crate::parts::part;
use crate::viewer::Viewer;
use client_caches::{ObeyFault, is_bitmap, upright_pixels};
use px_core::{Depth, Rect, Size, is_inside};
use std::alloc::Global;
use update_read::Tile;

/// The flags of a raw bitmap, and those of a packed one: BITMAP_COMPRESSION with NO_BITMAP_COMPRESSION_HDR.
const RAW: u16 = 0;

const PACKED: u16 = 0x0401;

/// The rectangle that a bitmap is for.
fn tile_rect(t: &Tile) -> Rect
    ensures { result ≡ tile_rect (bare_tile t.now) }
{
    Rect {
        x: i32::from(t.left),
        y: i32::from(t.top),
        w: (u32::from(t.right) + 1).saturating_sub(u32::from(t.left)),
        h: (u32::from(t.bottom) + 1).saturating_sub(u32::from(t.top)),
    }
}

/// Whether the bitmap is one of the depth, and the rectangle has a pixel, is inside the surface, no wider than its bitmap, and as high.
fn is_tile(size: Size, t: &Tile, rect: Rect, depth: Depth) -> bool
    requires { rect ≡ tile_rect (bare_tile t.now) }
    ensures { result ≡ is_tile depth size (bare_tile t.now) }
{
    is_bitmap(t.w, t.h, t.depth, depth)
        && is_inside(size, rect)
        && 1 <= rect.w
        && rect.w <= u32::from(t.w)
        && rect.h == u32::from(t.h)
}

/// Whether these flags are those of a packed bitmap, where they are ones that are read.
fn is_packed(flags: u16) -> Option<bool>
    ensures { result ≡ is_packed_tile flags }
{
    match flags {
        RAW => Some(false),
        PACKED => Some(true),
        _ => None,
    }
}

/// Writes a rectangle's bitmap, whose bytes are those of the body, and counts it. An `Err` leaves the marks and the counts.
fn obey_tile(viewer: &mut Viewer, alloc: Global, body: &[u8], t: &Tile) -> Result<(), ObeyFault>
    ensures obeyed { (v : View) → StandsFor v viewer.old → Obeys result (view_after_tile viewer.old.pictures.size v (told_tile body.now t.now)) viewer.new }
    ensures same { SameViewer viewer.old viewer.new }
    ensures kept { OnErr result (SameCounts viewer.old viewer.new) }
{
    let rect = tile_rect(t);
    let depth = viewer.pictures.depth();
    if !is_tile(viewer.pictures.size(), t, rect, depth) {
        return Err(ObeyFault::Broken);
    }
    let Some(packed) = is_packed(t.flags) else {
        return Err(ObeyFault::Broken);
    };
    let (w, h) = (usize::from(t.w), usize::from(t.h));
    let pixels = upright_pixels(alloc, packed, w, h, part(body, t.at), depth)?;
    viewer.pictures.write(rect, None, t.w, t.h, &pixels);
    viewer.tiles = viewer.tiles.saturating_add(1);
    Ok(())
}

/// Writes the bitmaps of rectangles, one by one. An `Err` leaves the marks and the counts of those that were written.
pub(crate) fn obey_tiles(
    viewer: &mut Viewer,
    alloc: Global,
    body: &[u8],
    tiles: &[Tile],
) -> Result<(), ObeyFault>
    ensures obeyed { (v : View) → StandsFor v viewer.old → Obeys result (view_after_tiles viewer.old.pictures.size v (told_tiles body.now tiles.now)) viewer.new }
    ensures same { SameViewer viewer.old viewer.new }
    ensures stopped { (v : View) → StandsFor v viewer.old → OnErr result (Stops (AfterFirstTiles viewer.old.pictures.size v (told_tiles body.now tiles.now)) viewer.new) }
{
    for t in tiles {
        obey_tile(viewer, alloc, body, t)?;
    }
    Ok(())
}
