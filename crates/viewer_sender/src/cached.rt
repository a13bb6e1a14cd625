//! Orders that take a brush or an image from a cache ([MS-RDPEGDI] 2.2.2.2.1.1.2.3, 2.2.2.2.1.1.2.9 and 2.2.2.2.1.1.2.10).
ghost use Rattle.std.specs.Prelude.{◌≡◌, ℕ, ◌<◌, [], ◌∷◌, ◌++◌, length, Some, IfOk, OnOk};
ghost use Rattle.order_fields.specs.NamedDrawing.NamedDrawing.{Pat, Mem, Mem3};
ghost use Rattle.caps_sets.specs.declared.confirmed.Confirmed.{Confirmed};
ghost use Rattle.caps_sets.specs.Confirmed.{depth_of};
ghost use Rattle.frame_rules.specs.FrameOrders.{Uses, bounds_of, sending, image_use, brush_use};
ghost use Rattle.frame_rules.specs.FrameOrders.SentOrder.{Drawn};
ghost use Rattle.frame_laws.specs.Sound.{AreColors, IsSoundImage};
ghost use Rattle.viewer_sender.specs.Stands.{CachesStand};
ghost use Rattle.viewer_sender.specs.Writes.{Writes, used};
ghost use Rattle.viewer_sender.specs.Goes.{FitsDrawn};

use crate::OutOfMemory;
use crate::orders::{mem3_order, pat_order};
use crate::plain::put_drawn;
use crate::writer::FrameWriter;
use order_prim::mem_blt;
use px_core::Rect;
use session_core::{LoadedBrush, LoadedImage};
use std::alloc::Global;

/// Adds the orders of a raster operation with a brush as its pattern.
pub(crate) fn put_pat(
    alloc: Global,
    writer: &mut FrameWriter,
    brush: &LoadedBrush,
    r: Rect,
    rop: u8,
    clip: Option<Rect>,
) -> Result<(), OutOfMemory>
    requires fits { (entry : ℕ) → entry < 256 → FitsDrawn (depth_of writer.old.confirmed) r (Pat r rop entry) clip }
    requires whole { length brush.now.content ≡ 64 }
    requires colors { AreColors brush.now.content }
    ensures { OnOk result (Writes writer.old writer.new (λ uses. let b = brush_use writer.old.confirmed uses (Some brush.now) in
        sending (b.orders ++ Drawn r (Pat r rop b.index) (bounds_of r clip) ∷ []) b.uses)) }
{
    let depth = writer.confirmed.depth;
    let entry = use_brush(alloc, writer, brush)?;
    let order = pat_order(r, rop, entry, depth);
    put_drawn(writer, &order, r, clip)
}

/// Adds the orders of a raster operation with an image as its source, which goes to a bitmap cache.
pub(crate) fn put_blit(
    alloc: Global,
    writer: &mut FrameWriter,
    cache: u8,
    image: &LoadedImage,
    r: Rect,
    rop: u8,
    sx: i32,
    sy: i32,
    clip: Option<Rect>,
) -> Result<(), OutOfMemory>
    requires few { cache < 3 }
    requires fits { (cache index : ℕ) → cache < 3 → index < 65536 → FitsDrawn (depth_of writer.old.confirmed) r (Mem cache index r rop sx sy) clip }
    requires sound { IsSoundImage image.now.content }
    ensures { OnOk result (Writes writer.old writer.new (λ uses. let i = image_use writer.old.confirmed uses cache (Some image.now) in
        sending (i.orders ++ Drawn r (Mem cache i.index r rop sx sy) (bounds_of r clip) ∷ []) i.uses)) }
{
    let index = use_image(alloc, writer, cache, image)?;
    put_drawn(writer, &mem_blt(cache, index, r, rop, sx, sy), r, clip)
}

/// Adds the orders of a raster operation with an image as its source, which goes to a bitmap cache, and a brush as its pattern: the image goes first.
pub(crate) fn put_blit3(
    alloc: Global,
    writer: &mut FrameWriter,
    cache: u8,
    image: &LoadedImage,
    brush: &LoadedBrush,
    r: Rect,
    rop: u8,
    sx: i32,
    sy: i32,
    clip: Option<Rect>,
) -> Result<(), OutOfMemory>
    requires few { cache < 3 }
    requires fits { (cache index entry : ℕ) → cache < 3 → index < 65536 → entry < 256
        → FitsDrawn (depth_of writer.old.confirmed) r (Mem3 cache index r rop sx sy entry) clip }
    requires sound { IsSoundImage image.now.content }
    requires whole { length brush.now.content ≡ 64 }
    requires colors { AreColors brush.now.content }
    ensures { OnOk result (Writes writer.old writer.new (λ uses.
        let i = image_use writer.old.confirmed uses cache (Some image.now) in
        let b = brush_use writer.old.confirmed i.uses (Some brush.now) in
        sending (i.orders ++ (b.orders ++ Drawn r (Mem3 cache i.index r rop sx sy b.index) (bounds_of r clip) ∷ [])) b.uses)) }
{
    let depth = writer.confirmed.depth;
    let index = use_image(alloc, writer, cache, image)?;
    let entry = use_brush(alloc, writer, brush)?;
    let order = mem3_order(cache, index, r, rop, sx, sy, entry, depth);
    put_drawn(writer, &order, r, clip)
}

/// Uses an image; answers its entry.
fn use_image(
    alloc: Global,
    writer: &mut FrameWriter,
    cache: u8,
    image: &LoadedImage,
) -> Result<u16, OutOfMemory>
    requires cache { cache < 3 }
    requires sound { IsSoundImage image.now.content }
    ensures index { IfOk result (λ index. (uses : Uses) → CachesStand writer.old.confirmed writer.old.caches uses
        → index ≡ (image_use writer.old.confirmed uses cache (Some image.now)).index) }
    ensures orders { OnOk result (Writes writer.old writer.new (λ uses. used (image_use writer.old.confirmed uses cache (Some image.now)))) }
{
    writer.use_image(alloc, cache, image.number(), image.content())
}

/// Uses a brush; answers its entry.
fn use_brush(
    alloc: Global,
    writer: &mut FrameWriter,
    brush: &LoadedBrush,
) -> Result<u8, OutOfMemory>
    requires whole { length brush.now.content ≡ 64 }
    requires colors { AreColors brush.now.content }
    ensures index { IfOk result (λ entry. (uses : Uses) → CachesStand writer.old.confirmed writer.old.caches uses
        → entry ≡ (brush_use writer.old.confirmed uses (Some brush.now)).index) }
    ensures orders { OnOk result (Writes writer.old writer.new (λ uses. used (brush_use writer.old.confirmed uses (Some brush.now)))) }
{
    let index = writer.use_brush(alloc, brush.number(), brush.content())?;
    let [entry, _] = index.to_le_bytes();
    Ok(entry)
}
