//! An update's body ([MS-RDPBCGR] 2.2.9.1.1.3), or the data of one of the fast path (2.2.9.1.2.1).

ghost use Rattle.std.specs.Prelude.{◌≡◌, ◌+◌, ℕ, drop, OnErr};
ghost use Rattle.order_means.specs.Updates.{BodyForm as Form, body_at};
ghost use Rattle.order_means.specs.FrameMarks.{View, view_after_update, view_after_body};
ghost use Rattle.order_means.specs.FrameMarks.Update.{Orders};
ghost use Rattle.client_view.specs.Views.{capped, StandsFor, SameViewer};
ghost use Rattle.update_read.specs.Forms.{told_form};
ghost use Rattle.client_view.specs.Refusals.{Shows};
ghost use Rattle.client_view.specs.OnTheWay.{Stops, MidUpdate, MidBody};

use crate::ClientFault;
use crate::meant::meant;
use crate::obey::{mark, obey_all};
use crate::parts::behind;
use crate::tiles::obey_tiles;
use crate::viewer::Viewer;
use order_read::{OrderFault, read_orders};
use std::alloc::Global;
use update_read::{BodyForm, Update, UpdateFault, read_update};

/// Obeys so many orders, which stand from an offset on in an update's body that begins at a place. An `Err` leaves the marks and the counts
/// of those that were obeyed.
fn obey_orders(
    viewer: &mut Viewer,
    alloc: Global,
    at: u64,
    body: &[u8],
    from: usize,
    count: u16,
) -> Result<(), ClientFault>
    ensures shown { (v : View) (place : ℕ) (form : Form) → StandsFor v viewer.old → at ≡ capped place
        → Shows result (view_after_update viewer.old.confirmed viewer.old.pictures.size (body_at place form body.now) v (Orders count (drop from body.now))) viewer.new }
    ensures same { SameViewer viewer.old viewer.new }
    ensures stopped { (v : View) → StandsFor v viewer.old
        → OnErr result (Stops (MidUpdate viewer.old.confirmed viewer.old.pictures.size v (Orders count (drop from body.now))) viewer.new) }
{
    let orders = behind(body, from);
    let depth = viewer.pictures.depth();
    match read_orders(alloc, orders, count, &mut viewer.regs, depth) {
        Ok(reads) => meant(at, obey_all(viewer, alloc, orders, &reads)),
        Err(OrderFault::BadOrder { at: offset }) => Err(ClientFault::Refused {
            at: behind_place(at, body.len() - orders.len(), offset),
        }),
        Err(OrderFault::OutOfMemory) => Err(ClientFault::OutOfMemory),
    }
}

/// The place so many bytes, and so many more, behind another one.
fn behind_place(at: u64, first: usize, more: usize) -> u64
    ensures { (place : ℕ) → at ≡ capped place → result ≡ capped (place + (first + more)) }
{
    at.saturating_add(first as u64).saturating_add(more as u64)
}

/// Obeys an update that came so, whose body begins at a place. An `Err` leaves the marks and the counts of what was obeyed.
pub(crate) fn obey_update(
    viewer: &mut Viewer,
    alloc: Global,
    at: u64,
    form: BodyForm,
    body: &[u8],
) -> Result<(), ClientFault>
    ensures shown { (v : View) (place : ℕ) → StandsFor v viewer.old → at ≡ capped place
        → Shows result (view_after_body viewer.old.confirmed viewer.old.pictures.size v (body_at place (told_form form) body.now)) viewer.new }
    ensures same { SameViewer viewer.old viewer.new }
    ensures stopped { (v : View) → StandsFor v viewer.old
        → OnErr result (Stops (MidBody viewer.old.confirmed viewer.old.pictures.size v (told_form form) body.now) viewer.new) }
{
    match read_update(alloc, form, body) {
        Ok(Update::Orders { count, from }) => obey_orders(viewer, alloc, at, body, from, count),
        Ok(Update::Tiles(tiles)) => meant(at, obey_tiles(viewer, alloc, body, &tiles)),
        Ok(Update::Synchronize) => {
            if !viewer.confirmed.marker {
                mark(viewer);
            }
            Ok(())
        }
        Err(UpdateFault::BadUpdate { at: offset }) => Err(ClientFault::Refused {
            at: behind_place(at, 0, offset),
        }),
        Err(UpdateFault::OutOfMemory) => Err(ClientFault::OutOfMemory),
    }
}
