//! The walk over pending drawings: which go as orders, and which tiles become dirty.
ghost use Rattle.std.specs.Prelude.{◌≡◌, ◌≤◌, length, ◌&&◌, ◌||◌, not, IfOk, OnOk, IsTrue};
ghost use Rattle.px_core.specs.TileFlags.{tiles};
ghost use Rattle.px_core.specs.Tiles.{share_tile, tiles_of};
ghost use Rattle.px_core.specs.Rectangle.{is_session_size, boxed, IsPlaced};
ghost use Rattle.session_rules.specs.Pending.{pending_between};
ghost use Rattle.frame_rules.specs.Cautious.{is_cut};
ghost use Rattle.frame_rules.specs.Frame.{walked, walked_pending, sent_if, skipped, saved_if, given_up, restored_from, block_if, first_dirty, jumped};
ghost use Rattle.frame_plan.specs.Cuts.{IsWalkable, IsCuttable, AllCuttable};
ghost use Rattle.frame_plan.specs.Orders.{cache_for, drawings_in, AreChosen};
ghost use Rattle.frame_plan.specs.Walks.{walk_of, HasDecided, HasGone, HasGoneOver, HasJumped, IsBegun};

use crate::cached::cached_for;
use crate::cut::{cut, is_cut};
use crate::support::{cache_of_image, cache_of_run, supports_text};
use crate::{Orders, OutOfMemory, Planned};
use caps_sets::Confirmed;
use draw_ops::Shape;
use px_core::{Rect, Size, TileSet, clipped, whole};
use save_plan::{Blocks, PlaceFault};
use session_core::{SeenDrawing, SeenDrawings, Session};
use std::alloc::Global;

/// How many slots of saved blocks drawings may name.
const SLOTS: u8 = 16;

/// What a walk has come to: the tiles that go as bitmaps, and the blocks that the viewer holds.
#[derive(Drop)]
pub(crate) struct Walker {
    pub dirty: TileSet,
    pub held: Blocks,
}

impl Walker {
    /// Before a walk.
    pub fn begin(
        alloc: Global,
        size: Size,
        first: bool,
        confirmed: &Confirmed,
        held: &Blocks,
    ) -> Result<Walker, OutOfMemory>
        requires size { IsTrue (is_session_size size.w size.h) }
        ensures { IfOk result (λ w. IsBegun w (record { dirty = first_dirty size first confirmed.now; held = held.now })) }
    {
        Ok(Walker {
            dirty: first_dirty(size, first, confirmed),
            held: held.copy(alloc)?,
        })
    }

    /// Walks over the drawings of an entry, one after the other; appends those that go as orders.
    pub fn walk_all(
        &mut self,
        alloc: Global,
        size: Size,
        confirmed: &Confirmed,
        drawings: &SeenDrawings<'_>,
        orders: &mut Orders,
    ) -> Result<(), OutOfMemory>
        requires size { IsTrue (is_session_size size.w size.h) }
        requires cuttable { AllCuttable size drawings.now }
        ensures gone { OnOk result (HasGoneOver size confirmed.now self.old (drawings_in orders.old) drawings.now self.new (drawings_in orders.new)) }
        ensures chosen { OnOk result (AreChosen confirmed.now orders.old → AreChosen confirmed.now orders.new) }
    {
        for i in 0..drawings.len() {
            self.walk_one(alloc, size, confirmed, &drawings.get(i), orders)?;
        }
        Ok(())
    }

    /// Walks over a drawing as what the viewer's is walked as; appends it where it goes as an order.
    fn walk_one(
        &mut self,
        alloc: Global,
        size: Size,
        confirmed: &Confirmed,
        pending: &SeenDrawing<'_>,
        orders: &mut Orders,
    ) -> Result<(), OutOfMemory>
        requires size { IsTrue (is_session_size size.w size.h) }
        requires cuttable { IsCuttable size pending.now }
        ensures gone { OnOk result (HasGone (walked_pending size confirmed.now (walk_of self.old) pending.now)
            (drawings_in orders.old) self.new (drawings_in orders.new)) }
        ensures chosen { OnOk result (AreChosen confirmed.now orders.old → AreChosen confirmed.now orders.new) }
    {
        if is_uncut(confirmed, &pending.drawing().shape) {
            return self.put(alloc, size, confirmed, pending, orders);
        }
        match cut(size, pending) {
            Some(cut) => {
                let pending = pending.with_drawing(&cut.drawing, cut.rect);
                self.put(alloc, size, confirmed, &pending, orders)
            }
            None => Ok(()),
        }
    }

    /// Walks over a drawing, and appends it where it goes as an order: only such a one is shared.
    fn put(
        &mut self,
        alloc: Global,
        size: Size,
        confirmed: &Confirmed,
        pending: &SeenDrawing<'_>,
        orders: &mut Orders,
    ) -> Result<(), OutOfMemory>
        requires size { IsTrue (is_session_size size.w size.h) }
        requires walkable { IsWalkable pending.now }
        ensures gone { OnOk result (HasGone (walked size confirmed.now (walk_of self.old)
            pending.now pending.now.drawing.shape) (drawings_in orders.old) self.new (drawings_in orders.new)) }
        ensures chosen { OnOk result (AreChosen confirmed.now orders.old → AreChosen confirmed.now orders.new) }
    {
        let (position, cache) = self.walk(size, confirmed, pending)?;
        if let Some(position) = position {
            let pending = pending.share(alloc)?;
            let cached = cached_for(&pending, cache)?;
            orders.push(Planned {
                pending,
                position,
                cached,
            })?;
        }
        Ok(())
    }

    /// Jumps over the drawings of the entries behind the first `before`: none goes as an order, the tiles that any of them touches are dirty,
    /// and each slot that a save names is given up. Each tile and each slot is looked at once, however many drawings there are.
    pub fn jump(&mut self, session: &Session, before: u64)
        requires { before ≤ length session.now.journal }
        ensures { HasJumped self.old (jumped session.now.head.size (walk_of self.old)
            (pending_between session.now.head.size session.now.journal before (length session.now.journal))) self.new }
    {
        session.recall_slots();
        session.add_touched(before, &mut self.dirty);
        for slot in 0..SLOTS {
            if session.saved_since(before, slot) {
                self.held.free(slot);
            }
        }
    }

    /// Makes the tiles that a drawing touches dirty.
    fn skip(&mut self, size: Size, pending: &SeenDrawing<'_>)
        requires size { IsTrue (is_session_size size.w size.h) }
        requires walkable { IsWalkable pending.now }
        ensures walk { walk_of self.new ≡ (skipped size (walk_of self.old) pending.now).walk }
    {
        self.dirty
            .add(clipped(pending.rect(), pending.drawing().clip), size);
    }

    /// A drawing in its turn: the position where it goes as an order, 0 where it needs none, and the number of the cache that its image or its
    /// glyphs go to, where it has some and one serves; the cache is chosen here alone. Where the drawing doesn't go, its tiles are dirty then,
    /// but for a load.
    fn walk(
        &mut self,
        size: Size,
        confirmed: &Confirmed,
        pending: &SeenDrawing<'_>,
    ) -> Result<(Option<u32>, Option<u8>), OutOfMemory>
        requires size { IsTrue (is_session_size size.w size.h) }
        requires walkable { IsWalkable pending.now }
        ensures decided { IfOk result (λ both. HasDecided (walked size confirmed.now (walk_of self.old)
            pending.now pending.now.drawing.shape) pending.now both.0 self.new) }
        ensures cache { IfOk result (λ both. both.1 ≡ cache_for confirmed.now pending.now pending.now.drawing.shape) }
    {
        match &pending.drawing().shape {
            Shape::Fill { .. } => Ok((self.order_if(confirmed.pat, size, pending), None)),
            Shape::Dst { .. } => Ok((self.order_if(confirmed.dst, size, pending), None)),
            Shape::Pat { .. } => {
                let goes = confirmed.pat && confirmed.brush;
                Ok((self.order_if(goes, size, pending), None))
            }
            Shape::Copy { rect, sx, sy, .. } => {
                let goes = confirmed.scr && self.is_clean(size, source_of(rect, *sx, *sy));
                Ok((self.order_if(goes, size, pending), None))
            }
            Shape::Blit { .. } => {
                let cache = cache_of_image(confirmed, pending.image());
                let goes = confirmed.mem && cache.is_some();
                Ok((self.order_if(goes, size, pending), cache))
            }
            Shape::Blit3 { .. } => {
                let cache = cache_of_image(confirmed, pending.image());
                let goes = confirmed.mem3 && (cache.is_some() && confirmed.brush);
                Ok((self.order_if(goes, size, pending), cache))
            }
            Shape::Text { .. } => {
                let cache = cache_of_run(confirmed, pending.glyphs());
                let goes = supports_text(confirmed, cache);
                Ok((self.order_if(goes, size, pending), cache))
            }
            Shape::Line { .. } => Ok((self.order_if(false, size, pending), None)),
            Shape::Save { slot, rect } => {
                let goes = confirmed.save && self.is_clean(size, *rect);
                let position = self.save(goes, size, pending, *slot, *rect)?;
                Ok((position, None))
            }
            Shape::Restore { slot, .. } => {
                let position = self.restore(confirmed.save, size, pending, *slot);
                Ok((position, None))
            }
            Shape::LoadImage { .. } | Shape::LoadBrush { .. } | Shape::LoadGlyph { .. } => {
                Ok((None, None))
            }
        }
    }

    /// Has a drawing go as an order where it may, and else makes its tiles dirty.
    fn order_if(&mut self, goes: bool, size: Size, pending: &SeenDrawing<'_>) -> Option<u32>
        requires size { IsTrue (is_session_size size.w size.h) }
        requires walkable { IsWalkable pending.now }
        ensures { HasDecided (sent_if goes size (walk_of self.old) pending.now) pending.now result self.new }
    {
        if goes {
            Some(0)
        } else {
            self.skip(size, pending);
            None
        }
    }

    /// Whether no tile with a pixel of a rectangle is dirty.
    fn is_clean(&self, size: Size, rect: Rect) -> bool
        requires size { IsTrue (is_session_size size.w size.h) }
        requires rect { IsPlaced rect }
        ensures { result ≡ not (share_tile size (walk_of self.now).dirty (tiles_of size rect)) }
    {
        !self.dirty.meets(rect, size)
    }

    /// Gives up a slot's block, and has a save go to the least free position where it may go as an order and there is one.
    fn save(
        &mut self,
        goes: bool,
        size: Size,
        pending: &SeenDrawing<'_>,
        slot: u8,
        rect: Rect,
    ) -> Result<Option<u32>, OutOfMemory>
        requires size { IsTrue (is_session_size size.w size.h) }
        requires walkable { IsWalkable pending.now }
        ensures { IfOk result (λ position. HasDecided (saved_if goes size (given_up slot
            (walk_of self.old)) pending.now slot rect) pending.now position self.new) }
    {
        self.held.free(slot);
        if !goes {
            self.skip(size, pending);
            return Ok(None);
        }
        match self.held.place(slot, rect.w, rect.h) {
            Ok(position) => Ok(Some(position)),
            Err(PlaceFault::NoRoom) => {
                self.skip(size, pending);
                Ok(None)
            }
            Err(PlaceFault::OutOfMemory) => Err(OutOfMemory),
        }
    }

    /// Has a restore go from the block that its slot holds, where it may go as an order and there is one.
    fn restore(
        &mut self,
        goes: bool,
        size: Size,
        pending: &SeenDrawing<'_>,
        slot: u8,
    ) -> Option<u32>
        requires size { IsTrue (is_session_size size.w size.h) }
        requires walkable { IsWalkable pending.now }
        ensures { HasDecided (restored_from size (walk_of self.old) pending.now (block_if goes slot (walk_of self.old))) pending.now result self.new }
    {
        let place = if goes { self.held.get(slot) } else { None };
        match place {
            Some(place) => Some(place.position),
            None => {
                self.skip(size, pending);
                None
            }
        }
    }
}

/// Whether a viewer's drawings of a shape are walked as they are.
fn is_uncut(confirmed: &Confirmed, shape: &Shape) -> bool
    ensures { result ≡ (not confirmed.now.cautious || not (is_cut shape.now)) }
{
    !confirmed.cautious || !is_cut(shape)
}

/// The rectangle that a copy reads.
fn source_of(rect: &Rect, x: i32, y: i32) -> Rect
    ensures { result ≡ boxed x y rect.now.w rect.now.h }
{
    Rect {
        x,
        y,
        w: rect.w,
        h: rect.h,
    }
}

/// The tiles that are dirty as a frame begins: all of the picture's in a first frame that can't begin with a black fill, and else none.
fn first_dirty(size: Size, first: bool, confirmed: &Confirmed) -> TileSet
    requires { IsTrue (is_session_size size.w size.h) }
    ensures { tiles result ≡ first_dirty size first confirmed.now }
{
    let mut dirty = TileSet::none();
    if is_unknown(first, confirmed) {
        dirty.add(whole(size), size);
    }
    dirty
}

/// Whether a frame begins over pixels that aren't known: it is the first, and the viewer has no order for a black fill.
fn is_unknown(first: bool, confirmed: &Confirmed) -> bool
    ensures { result ≡ (first && not confirmed.now.pat) }
{
    first && !confirmed.pat
}
