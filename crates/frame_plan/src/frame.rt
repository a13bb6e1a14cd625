//! A viewer's take: the frame that is due to it.
ghost use Rattle.std.specs.Prelude.{◌≡◌, ◌≤◌, ◌<◌, ◌+◌, length, IfOk, OnOk, OnErr, IsTrue};
ghost use Rattle.px_core.specs.Rectangle.{is_session_size};
ghost use Rattle.px_core.specs.Tiles.{all_tiles, share_tile};
ghost use Rattle.px_core.specs.TileFlags.{tiles};
ghost use Rattle.session_rules.specs.Pending.{pending_between};
ghost use Rattle.session_core.specs.SessionModel.{is_here, asked_by};
ghost use Rattle.frame_plan.specs.Takes.{taken_as};
ghost use Rattle.frame_plan.specs.Plans.{is_work, frame_at, taken_if, desk_if, asked_if};
ghost use Rattle.frame_plan.specs.Orders.{cached_in, all_cached, drawings_in, AreChosen};
ghost use Rattle.frame_plan.specs.Walks.{HasGoneOver, HasWalkedAll};
ghost use Rattle.frame_plan.specs.Planning.{planned_as, HasPlanned};
ghost use Rattle.frame_plan.specs.declared.taken.Taken.TheVariants.{Nothing};

use crate::quiet::quiet_end;
use crate::tiles::{lend_tiles, tiles_due};
use crate::walk::Walker;
use crate::{Desk, Orders, OutOfMemory, Take, Taken, TakenTile};
use px_core::{Size, TileSet, whole};
use save_plan::Blocks;
use session_core::Session;
use std::alloc::Global;
use std::mem;

/// The most drawings that go as orders in one frame.
const MOST_ORDERS: u64 = 256;

/// Takes the frame that is due to a viewer, who has seen a front of the journal: `Nothing` where the viewer is suppressed, or the journal
/// hasn't grown since its last frame and no tile is asked for. What it asked for is then served. An `Err`, which also comes at the
/// viewer's frame 2^64, leaves the session and the desk as they were.
pub fn plan(alloc: Global, session: &mut Session, desk: &mut Desk) -> Result<Taken, OutOfMemory>
    requires present { IsTrue (is_here session.old desk.old.v) }
    requires seen { desk.old.number ≤ length session.old.journal }
    ensures taken { IfOk result (λ taken. taken ≡ taken_if (is_work session.old desk.old) session.old desk.old) }
    ensures desk { OnOk result (desk.new ≡ desk_if (is_work session.old desk.old) session.old desk.old) }
    ensures asked { OnOk result (asked_by session.new ≡ asked_if (is_work session.old desk.old) desk.old.v (asked_by session.old)) }
    ensures head { session.new.head ≡ session.old.head }
    ensures journal { session.new.journal ≡ session.old.journal }
    ensures suppressed { session.new.suppressed ≡ session.old.suppressed }
    ensures nothing { result ≡ Ok Nothing → session.new ≡ session.old }
    ensures unchanged { OnErr result ((session.new ≡ session.old) × (desk.new ≡ desk.old)) }
{
    if !is_work(session, desk) {
        return Ok(Taken::Nothing);
    }
    let Some(taken) = desk.taken.checked_add(1) else {
        return Err(OutOfMemory);
    };
    let planned = plan_frame(alloc, session, desk)?;
    let held = planned.held.copy(alloc)?;
    let take = Take {
        size: session.size(),
        first: planned.first,
        serial: mem::replace(&mut desk.taken, taken),
        before: mem::replace(&mut desk.number, session.length()),
        number: session.length(),
        sent: planned.sent,
        tiles: planned.tiles,
        held_before: mem::replace(&mut desk.held, planned.held),
        held,
    };
    session.served(desk.v);
    Ok(Taken::Frame(take))
}

/// What a frame is planned as.
#[derive(Drop)]
struct PlannedFrame {
    first: bool,
    sent: Orders,
    tiles: Vec<TakenTile>,
    held: Blocks,
}

/// Whether there is something to take.
fn is_work(session: &Session, desk: &Desk) -> bool
    requires { IsTrue (is_here session.now desk.now.v) }
    ensures { result ≡ is_work session.now desk.now }
{
    session.recall_legal();
    let size = session.size();
    !session.suppressed(desk.v)
        && (desk.number != session.length() || is_asked(size, session.asked(desk.v)))
}

/// Whether a tile of the picture is asked for.
fn is_asked(size: Size, asked: &TileSet) -> bool
    requires { IsTrue (is_session_size size.w size.h) }
    ensures { result ≡ share_tile size (tiles asked.now) all_tiles }
{
    asked.end() > 0 && asked.meets(whole(size), size)
}

/// The frame that is due, apart from its numbers. The session is as it was, also after an `Err`.
fn plan_frame(
    alloc: Global,
    session: &mut Session,
    desk: &Desk,
) -> Result<PlannedFrame, OutOfMemory>
    requires present { IsTrue (is_here session.old desk.now.v) }
    requires seen { desk.now.number ≤ length session.old.journal }
    ensures planned { IfOk result (λ planned. planned_as planned ≡ taken_as session.old.head.size (frame_at session.old desk.now)) }
    ensures cached { IfOk result (λ planned. cached_in planned.sent ≡ all_cached desk.now.confirmed (frame_at session.old desk.now).sent) }
    ensures unchanged { session.new ≡ session.old }
{
    session.recall_legal();
    let (walker, sent) = walked(alloc, session, desk)?;
    let asked = session.asked(desk.v);
    let due = tiles_due(alloc, session.size(), &walker.dirty, asked)?;
    let tiles = lend_tiles(alloc, session, due.as_slice())?;
    Ok(PlannedFrame {
        first: desk.number == 0,
        sent,
        tiles,
        held: walker.held,
    })
}

/// The walk over what is pending, or the jump over it where it is too much; and what goes as orders.
fn walked(alloc: Global, session: &Session, desk: &Desk) -> Result<(Walker, Orders), OutOfMemory>
    requires { desk.now.number ≤ length session.now.journal }
    ensures planned { IfOk result (λ both. HasPlanned session.now desk.now both.0 (drawings_in both.1)) }
    ensures chosen { IfOk result (λ both. AreChosen desk.now.confirmed both.1) }
{
    session.recall_legal();
    let size = session.size();
    let mut walker = Walker::begin(alloc, size, desk.number == 0, &desk.confirmed, &desk.held)?;
    let all = session.drawings_before(session.length());
    let count = all - session.drawings_before(desk.number);
    if count > MOST_ORDERS {
        walker.jump(session, desk.number);
        Ok((walker, Orders::none(alloc)))
    } else {
        let sent = walk_over(alloc, session, desk, count as usize, &mut walker)?;
        Ok((walker, sent))
    }
}

/// Walks over the drawings of all entries from the desk's number on, for so many of which there is to be room at once, and steps over
/// entries that drew nothing; answers those that go as orders.
fn walk_over(
    alloc: Global,
    session: &Session,
    desk: &Desk,
    count: usize,
    walker: &mut Walker,
) -> Result<Orders, OutOfMemory>
    requires { desk.now.number ≤ length session.now.journal }
    ensures walked { IfOk result (λ sent. HasWalkedAll session.now.head.size desk.now.confirmed walker.old
        (pending_between session.now.head.size session.now.journal desk.now.number (length session.now.journal)) (drawings_in sent) walker.new) }
    ensures chosen { IfOk result (λ sent. AreChosen desk.now.confirmed sent) }
{
    let mut orders = Orders::with_room(alloc, count)?;
    let mut entry = quiet_end(session, desk.number);
    while entry < session.length() {
        walk_entry(alloc, session, desk, entry, walker, &mut orders)?;
        entry = quiet_end(session, entry + 1);
    }
    Ok(orders)
}

/// Walks over the drawings of an entry; appends those that go as orders.
fn walk_entry(
    alloc: Global,
    session: &Session,
    desk: &Desk,
    entry: u64,
    walker: &mut Walker,
    orders: &mut Orders,
) -> Result<(), OutOfMemory>
    requires { entry < length session.now.journal }
    ensures gone { OnOk result (HasGoneOver session.now.head.size desk.now.confirmed walker.old (drawings_in orders.old)
        (pending_between session.now.head.size session.now.journal entry (entry + 1)) walker.new (drawings_in orders.new)) }
    ensures chosen { OnOk result (AreChosen desk.now.confirmed orders.old → AreChosen desk.now.confirmed orders.new) }
{
    session.recall_legal();
    let size = session.size();
    let drawings = session.drawings(entry)?;
    walker.walk_all(alloc, size, &desk.confirmed, &drawings, orders)
}
