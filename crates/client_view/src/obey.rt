//! Orders, obeyed one by one.

ghost use Rattle.std.specs.Prelude.{◌≡◌, ◌+◌, ◌-◌, ◌^◌, min, OnErr};
ghost use Rattle.order_means.specs.FrameMarks.{View};
ghost use Rattle.order_read.specs.Told.{told_read, told_reads};
ghost use Rattle.order_read.specs.Told.Told.{Drawn};
ghost use Rattle.client_view.specs.Told.{view_after_told, view_after_all_told};
ghost use Rattle.client_view.specs.Views.{StandsFor, SameViewer, Obeys, IsMarked};
ghost use Rattle.client_view.specs.OnTheWay.{SameCounts, Stops, AfterFirstTold};

use crate::draw::{draw, draw_fill};
use crate::parts::part;
use crate::viewer::Viewer;
use client_caches::{CachedBitmap, ObeyFault, drawing_of, fill_of};
use order_fields::Fields;
use order_read::Read;
use px_core::Rect;
use std::alloc::Global;

/// Keeps the picture at a mark.
pub(crate) fn mark(viewer: &mut Viewer)
    ensures { IsMarked viewer.old viewer.new }
{
    viewer.pictures.mark();
    viewer.marks = viewer.marks.saturating_add(1);
}

/// A count and one more, as far as it goes.
fn one_more(count: u64) -> u64
    ensures { result ≡ min (count + 1) (2 ^ 64 - 1) }
{
    count.saturating_add(1)
}

/// Obeys a primary order and counts it. Most are fills, which need no cache. An `Err` leaves the marks and the counts.
fn obey_drawing(viewer: &mut Viewer, fields: &Fields, bounds: Option<Rect>) -> Result<(), ObeyFault>
    ensures obeyed { (v : View) → StandsFor v viewer.old
        → Obeys result (view_after_told viewer.old.confirmed viewer.old.pictures.size v (Drawn fields.now bounds)) viewer.new }
    ensures same { SameViewer viewer.old viewer.new }
    ensures kept { OnErr result (SameCounts viewer.old viewer.new) }
{
    match fill_of(fields, viewer.pictures.depth()) {
        Some(fill) => {
            let (rect, color) = fill;
            draw_fill(&mut viewer.pictures, bounds, rect, color);
            viewer.orders = one_more(viewer.orders);
            Ok(())
        }
        None => obey_named(viewer, fields, bounds),
    }
}

/// Obeys a primary order by the drawing that it says, and counts it. An `Err` leaves the marks and the counts.
#[inline(never)]
fn obey_named(viewer: &mut Viewer, fields: &Fields, bounds: Option<Rect>) -> Result<(), ObeyFault>
    ensures obeyed { (v : View) → StandsFor v viewer.old
        → Obeys result (view_after_told viewer.old.confirmed viewer.old.pictures.size v (Drawn fields.now bounds)) viewer.new }
    ensures same { SameViewer viewer.old viewer.new }
    ensures kept { OnErr result (SameCounts viewer.old viewer.new) }
{
    let Some(named) = drawing_of(fields, viewer.pictures.depth()) else {
        return Err(ObeyFault::Broken);
    };
    draw(
        &viewer.confirmed,
        &viewer.caches,
        &mut viewer.blocks,
        &mut viewer.pictures,
        bounds,
        named,
        fields.bytes(),
    )?;
    viewer.orders = one_more(viewer.orders);
    Ok(())
}

/// Obeys what is told of an order; its ranges are those of the body. An `Err` leaves the marks and the counts.
fn obey(viewer: &mut Viewer, alloc: Global, body: &[u8], read: &Read) -> Result<(), ObeyFault>
    ensures obeyed { (v : View) → StandsFor v viewer.old
        → Obeys result (view_after_told viewer.old.confirmed viewer.old.pictures.size v (told_read body.now read.now)) viewer.new }
    ensures same { SameViewer viewer.old viewer.new }
    ensures kept { OnErr result (SameCounts viewer.old viewer.new) }
{
    match read {
        Read::Primary { fields, bounds } => obey_drawing(viewer, fields, *bounds),
        Read::Bitmap {
            cache,
            index,
            w,
            h,
            depth,
            flags,
            packed,
            at,
        } => {
            let bitmap = CachedBitmap {
                cache: *cache,
                index: *index,
                w: *w,
                h: *h,
                depth: *depth,
                flags: *flags,
                packed: *packed,
            };
            let confirmed = viewer.confirmed;
            let bytes = part(body, *at);
            let depth = viewer.pictures.depth();
            viewer
                .caches
                .store_bitmap(alloc, &confirmed, &bitmap, bytes, depth)
        }
        Read::Glyph {
            cache,
            index,
            glyph,
        } => {
            let confirmed = viewer.confirmed;
            viewer.caches.store_glyph(&confirmed, *cache, *index, glyph)
        }
        Read::Brush { entry, brush } => {
            let confirmed = viewer.confirmed;
            viewer.caches.store_brush(&confirmed, *entry, brush)
        }
        Read::Marker { end } => {
            if viewer.confirmed.marker && *end {
                mark(viewer);
            }
            Ok(())
        }
    }
}

/// Obeys what is told of orders, one by one. An `Err` leaves the marks and the counts of those that were obeyed.
pub(crate) fn obey_all(
    viewer: &mut Viewer,
    alloc: Global,
    body: &[u8],
    reads: &[Read],
) -> Result<(), ObeyFault>
    ensures obeyed { (v : View) → StandsFor v viewer.old
        → Obeys result (view_after_all_told viewer.old.confirmed viewer.old.pictures.size v (told_reads body.now reads.now)) viewer.new }
    ensures same { SameViewer viewer.old viewer.new }
    ensures stopped { (v : View) → StandsFor v viewer.old
        → OnErr result (Stops (AfterFirstTold viewer.old.confirmed viewer.old.pictures.size v (told_reads body.now reads.now)) viewer.new) }
{
    for read in reads {
        obey(viewer, alloc, body, read)?;
    }
    Ok(())
}
