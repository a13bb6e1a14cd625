//! The drawings of primary orders ([MS-RDPEGDI] 2.2.2.2.1.1.2).

ghost use Rattle.std.specs.Prelude.{◌≡◌, ◌≤◌, List, Ok, length};
ghost use Rattle.order_means.specs.ClientState.{Block, source_rect};
ghost use Rattle.order_fields.specs.NamedDrawing.NamedDrawing.{Opaque, Pat, Scr, Mem, Mem3, Glyphs};
ghost use Rattle.order_fields.specs.OrderTable.{Registers};
ghost use Rattle.caps_sets.specs.declared.confirmed.Confirmed.{Confirmed};
ghost use Rattle.client_caches.specs.Caches.{CachesOf};
ghost use Rattle.client_caches.specs.Named.{drawing};
ghost use Rattle.client_view.specs.Told.{client_after_clipped};
ghost use Rattle.client_view.specs.Views.{client_of, Draws, SamePlace, IsSourceOf};

use crate::saved::{restore, save};
use caps_sets::Confirmed;
use client_caches::{ClientBlocks, ClientCaches, KeptImage, Named, ObeyFault, check_run};
use client_picture::{ClientPicture, Color, Source};
use px_core::{Rect, is_inside};

/// How many glyph caches there are.
const GLYPH_CACHES: u8 = 10;

/// Draws what an order says within its bounds; `run` is its counted bytes.
pub(crate) fn draw(
    confirmed: &Confirmed,
    caches: &ClientCaches,
    blocks: &mut ClientBlocks,
    pictures: &mut ClientPicture,
    bounds: Option<Rect>,
    named: Named,
    run: &[u8],
) -> Result<(), ObeyFault>
    requires { length run.now ≤ 65535 }
    ensures drawn { Draws result (λ c. client_after_clipped confirmed.now pictures.old.size bounds c
        (drawing run.now named)) caches.now blocks.old blocks.new pictures.old pictures.new }
    ensures place { SamePlace pictures.old pictures.new }
{
    match named {
        Named::Dst { rect, rop } => {
            pictures.mix(rect, bounds, rop, None, None);
            Ok(())
        }
        Named::Opaque { rect, color } => {
            pictures.fill(rect, bounds, color);
            Ok(())
        }
        Named::Save { position, rect } => save(blocks, pictures, position, rect),
        Named::Restore { position, rect } => restore(blocks, pictures, bounds, position, rect),
        Named::Scr { rect, rop, sx, sy } => draw_copy(pictures, bounds, rect, rop, sx, sy),
        Named::Pat { rect, rop, entry } => {
            draw_pattern(confirmed, caches, pictures, bounds, rect, rop, entry)
        }
        Named::Mem {
            cache,
            index,
            rect,
            rop,
            sx,
            sy,
        } => draw_image(
            confirmed, caches, pictures, bounds, cache, index, rect, rop, sx, sy,
        ),
        Named::Mem3 {
            cache,
            index,
            rect,
            rop,
            sx,
            sy,
            entry,
        } => draw_mixed(
            confirmed, caches, pictures, bounds, cache, index, rect, rop, sx, sy, entry,
        ),
        Named::Glyphs { cache, x, y, color } => {
            draw_run(confirmed, caches, pictures, bounds, cache, x, y, color, run)
        }
    }
}

/// OpaqueRect.
pub(crate) fn draw_fill(
    pictures: &mut ClientPicture,
    bounds: Option<Rect>,
    rect: Rect,
    color: Color,
)
    ensures drawn { (confirmed : Confirmed) (caches : CachesOf) (blocks : List Block) (registers : Registers)
        → client_after_clipped confirmed pictures.old.size bounds (client_of registers caches blocks pictures.old) (Opaque rect color) ≡ Ok (client_of registers caches blocks pictures.new) }
    ensures place { SamePlace pictures.old pictures.new }
{
    pictures.fill(rect, bounds, color)
}

/// The rectangle of a source, as large as what is drawn.
fn source_rect(rect: Rect, sx: i32, sy: i32) -> Rect
    ensures { result ≡ source_rect rect sx sy }
{
    Rect {
        x: sx,
        y: sy,
        w: rect.w,
        h: rect.h,
    }
}

/// An image as a source.
fn source_of(image: &KeptImage, sx: i32, sy: i32) -> Source<'_>
    ensures { IsSourceOf image.now sx sy result }
{
    Source {
        pixels: image.pixels(),
        w: image.w(),
        h: image.h(),
        sx,
        sy,
    }
}

/// PatBlt.
fn draw_pattern(
    confirmed: &Confirmed,
    caches: &ClientCaches,
    pictures: &mut ClientPicture,
    bounds: Option<Rect>,
    rect: Rect,
    rop: u8,
    entry: u8,
) -> Result<(), ObeyFault>
    ensures drawn { (blocks : List Block)
        → Draws result (λ c. client_after_clipped confirmed.now pictures.old.size bounds c
        (Pat rect rop entry)) caches.now blocks blocks pictures.old pictures.new }
    ensures place { SamePlace pictures.old pictures.new }
{
    let brush = caches.brush_used(confirmed, entry)?;
    pictures.mix(rect, bounds, rop, Some(brush), None);
    Ok(())
}

/// ScrBlt.
fn draw_copy(
    pictures: &mut ClientPicture,
    bounds: Option<Rect>,
    rect: Rect,
    rop: u8,
    sx: i32,
    sy: i32,
) -> Result<(), ObeyFault>
    ensures drawn { (confirmed : Confirmed) (caches : CachesOf) (blocks : List Block)
        → Draws result (λ c. client_after_clipped confirmed pictures.old.size bounds c (Scr rect rop sx sy)) caches blocks blocks pictures.old pictures.new }
    ensures place { SamePlace pictures.old pictures.new }
{
    if !is_inside(pictures.size(), source_rect(rect, sx, sy)) {
        return Err(ObeyFault::Broken);
    }
    pictures.copy(rect, bounds, rop, sx, sy);
    Ok(())
}

/// MemBlt.
fn draw_image(
    confirmed: &Confirmed,
    caches: &ClientCaches,
    pictures: &mut ClientPicture,
    bounds: Option<Rect>,
    cache: u16,
    index: u16,
    rect: Rect,
    rop: u8,
    sx: i32,
    sy: i32,
) -> Result<(), ObeyFault>
    ensures drawn { (blocks : List Block)
        → Draws result (λ c. client_after_clipped confirmed.now pictures.old.size bounds c
        (Mem cache index rect rop sx sy)) caches.now blocks blocks pictures.old pictures.new }
    ensures place { SamePlace pictures.old pictures.new }
{
    let image = caches.image_used(confirmed, cache, index, source_rect(rect, sx, sy))?;
    pictures.mix(rect, bounds, rop, None, Some(source_of(image, sx, sy)));
    Ok(())
}

/// Mem3Blt.
fn draw_mixed(
    confirmed: &Confirmed,
    caches: &ClientCaches,
    pictures: &mut ClientPicture,
    bounds: Option<Rect>,
    cache: u16,
    index: u16,
    rect: Rect,
    rop: u8,
    sx: i32,
    sy: i32,
    entry: u8,
) -> Result<(), ObeyFault>
    ensures drawn { (blocks : List Block)
        → Draws result (λ c. client_after_clipped confirmed.now pictures.old.size bounds c
        (Mem3 cache index rect rop sx sy entry)) caches.now blocks blocks pictures.old pictures.new }
    ensures place { SamePlace pictures.old pictures.new }
{
    let image = caches.image_used(confirmed, cache, index, source_rect(rect, sx, sy))?;
    let brush = caches.brush_used(confirmed, entry)?;
    let source = source_of(image, sx, sy);
    pictures.mix(rect, bounds, rop, Some(brush), Some(source));
    Ok(())
}

/// GlyphIndex.
fn draw_run(
    confirmed: &Confirmed,
    caches: &ClientCaches,
    pictures: &mut ClientPicture,
    bounds: Option<Rect>,
    cache: u8,
    x: i32,
    y: i32,
    color: Color,
    run: &[u8],
) -> Result<(), ObeyFault>
    requires { length run.now ≤ 65535 }
    ensures drawn { (blocks : List Block)
        → Draws result (λ c. client_after_clipped confirmed.now pictures.old.size bounds c
        (Glyphs cache x y color run.now)) caches.now blocks blocks pictures.old pictures.new }
    ensures place { SamePlace pictures.old pictures.new }
{
    if GLYPH_CACHES <= cache {
        return Err(ObeyFault::Broken);
    }
    check_run(caches, confirmed, cache, run)?;
    pictures.write_run(bounds, caches.glyph_slots(cache), x, y, color, run);
    Ok(())
}
