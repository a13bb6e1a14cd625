//! Runs of glyphs ([MS-RDPEGDI] 2.2.2.2.1.1.2.13): the glyphs that the viewer's cache hasn't go before the order, in the run's order.
ghost use Rattle.std.specs.Prelude.{◌≡◌, ℕ, ◌<◌, ◌≤◌, ◌+◌, [], ◌∷◌, ◌++◌, List, length, IfOk, OnOk};
ghost use Rattle.caps_sets.specs.Confirmed.{depth_of};
ghost use Rattle.order_fields.specs.OrderTable.{FitBounds};
ghost use Rattle.order_fields.specs.OrderDelta.{edges_of_optional};
ghost use Rattle.order_fields.specs.NamedDrawing.{NamedDrawing, drawing_fields};
ghost use Rattle.order_fields.specs.NamedDrawing.NamedDrawing.{Glyphs};
ghost use Rattle.frame_rules.specs.Support.{run_cache};
ghost use Rattle.frame_rules.specs.FrameOrders.{Uses, or_0, bounds_of, sending, run_use, run_pairs};
ghost use Rattle.frame_rules.specs.FrameOrders.SentOrder.{Drawn};
ghost use Rattle.viewer_sender.specs.Stands.{CachesStand};
ghost use Rattle.viewer_sender.specs.Writes.{Writes, IsDrawing};
ghost use Rattle.viewer_sender.specs.Goes.{FitsDrawn, GlyphsGo};
ghost use Rattle.viewer_sender.specs.Runs.{run_sending};

use crate::OutOfMemory;
use crate::orders::run_order;
use crate::plain::put_drawn;
use crate::writer::FrameWriter;
use draw_ops::Run;
use frame_plan::Pending;
use order_fields::Fields;
use px_core::Rect;
use session_core::LoadedGlyph;
use std::alloc::Global;
use std::mem;

/// Adds the orders of a run of glyphs, which go to a glyph cache, from a pen at (x, y).
pub(crate) fn put_text(
    alloc: Global,
    writer: &mut FrameWriter,
    pending: &Pending,
    cache: u8,
    x: i32,
    y: i32,
    color: u32,
    run: &Run,
    clip: Option<Rect>,
) -> Result<(), OutOfMemory>
    requires chosen { cache ≡ or_0 (run_cache writer.old.confirmed pending.now.glyphs) }
    requires below { cache < 10 }
    requires fits { (cache : ℕ) (pairs : List ℕ) → cache < 10 → length pairs < 256
        → FitsDrawn (depth_of writer.old.confirmed) pending.now.rect (Glyphs cache x y color pairs) clip }
    requires number { length pending.now.glyphs ≡ length run.now }
    requires few { length run.now ≤ 64 }
    requires glyphs { GlyphsGo pending.now.glyphs }
    ensures { OnOk result (Writes writer.old writer.new (λ uses.
        let cache = or_0 (run_cache writer.old.confirmed pending.now.glyphs) in
        let g = run_use writer.old.confirmed uses cache pending.now.glyphs in
        sending (g.orders ++ Drawn pending.now.rect (Glyphs cache x y color (run_pairs g.indices run.now)) (bounds_of pending.now.rect clip) ∷ []) g.uses)) }
{
    let depth = writer.confirmed.depth;
    let room = mem::replace(&mut writer.run, Vec::new(alloc));
    let pairs = use_run(alloc, writer, cache, pending.glyphs(), run.pairs(), room)?;
    let area = pending.rect();
    let order = run_order(cache, x, y, color, area, pairs, depth);
    put_run(writer, order, area, clip)
}

/// Adds the order of a run, whose vector is kept for the next one.
fn put_run(
    writer: &mut FrameWriter,
    order: Fields,
    area: Rect,
    clip: Option<Rect>,
) -> Result<(), OutOfMemory>
    requires bounds { FitBounds (edges_of_optional (bounds_of area clip)) }
    requires drawing { IsDrawing order }
    requires run { length order.values.bytes < 256 }
    ensures { OnOk result ((d : NamedDrawing) → order ≡ drawing_fields (depth_of writer.old.confirmed) area d
        → Writes writer.old writer.new (λ uses. sending (Drawn area d (bounds_of area clip) ∷ []) uses)) }
{
    put_drawn(writer, &order, area, clip)?;
    match order.into_bytes() {
        Some(run) => {
            writer.run = run;
            Ok(())
        }
        None => Ok(()),
    }
}

/// Uses the glyphs of a run, in its order; answers the pairs of entry and delta, in a vector that is filled anew.
fn use_run(
    alloc: Global,
    writer: &mut FrameWriter,
    cache: u8,
    glyphs: &[LoadedGlyph],
    run: &[(u8, u8)],
    room: Vec<u8>,
) -> Result<Vec<u8>, OutOfMemory>
    requires cache { cache < 10 }
    requires number { length glyphs.now ≡ length run.now }
    requires glyphs { GlyphsGo glyphs.now }
    ensures number { IfOk result (λ pairs. length pairs.items ≡ length run.now + length run.now) }
    ensures pairs { IfOk result (λ pairs. (uses : Uses) → CachesStand writer.old.confirmed writer.old.caches uses
        → pairs.items ≡ run_pairs (run_use writer.old.confirmed uses cache glyphs.now).indices run.now) }
    ensures orders { OnOk result (Writes writer.old writer.new (λ uses. run_sending (run_use writer.old.confirmed uses cache glyphs.now))) }
{
    let mut pairs = room;
    pairs.clear();
    for (i, glyph) in glyphs.iter().enumerate() {
        let index = writer.use_glyph(alloc, cache, glyph.number(), glyph.content())?;
        let [entry, _] = index.to_le_bytes();
        let (_, delta) = run[i];
        pairs.extend_from_slice(&[entry, delta])?;
    }
    Ok(pairs)
}
