//! The drawing that a primary order's fields say ([MS-RDPEGDI] 2.2.2.2.1.1.2).

ghost use Rattle.std.specs.Prelude.{◌≡◌, ◌≤◌, ◌+◌, ◌*◌, ℕ, List, IfSome, length};
ghost use Rattle.px_core.specs.declared.depth.Depth.{Depth};
ghost use Rattle.order_fields.specs.OrderTable.{FitKinds, dst_blt, pat_blt, scr_blt, opaque_rect, save_bitmap, mem_blt, mem3_blt, glyph_index};
ghost use Rattle.order_fields.specs.OrderTable.OrderName.{DstBlt, PatBlt, ScrBlt, OpaqueRect, SaveBitmap, MemBlt, Mem3Blt, GlyphIndex};
ghost use Rattle.order_fields.specs.NamedDrawing.{drawing_of, drawing_of_values};
ghost use Rattle.client_caches.specs.Named.{optional_drawing, optional_fill, fill_in};

use crate::Named;
use crate::values::{
    byte, closed_rect_at, color_said, coordinate, is_cached_brush, is_cached_run, number, rect_at,
    short, side_of,
};
use client_picture::Color;
use order_fields::{
    DST_BLT, Fields, GLYPH_INDEX, MEM_BLT, MEM3_BLT, OPAQUE_RECT, PAT_BLT, SAVE_BITMAP, SCR_BLT,
};
use px_core::{Depth, Rect, has_pixel};

/// The operations of SaveBitmap.
const SAVE: u8 = 0;

const RESTORE: u8 = 1;

/// The drawing that a primary order says at a depth; there is none where a side is below 1, or a brush, an operation or a run is none that is read.
pub fn drawing_of(fields: &Fields, depth: Depth) -> Option<Named>
    ensures drawing { optional_drawing fields.now.values.bytes result ≡ drawing_of depth fields.now }
    ensures short { IfSome result (λ _. length fields.now.values.bytes ≤ 255) }
{
    let kind = fields.kind();
    let values = fields.values();
    match kind {
        DST_BLT => dst_of(values),
        PAT_BLT => pat_of(values, depth),
        SCR_BLT => scr_of(values),
        OPAQUE_RECT => opaque_of(values, depth),
        SAVE_BITMAP => save_of(values),
        MEM_BLT => mem_of(values),
        MEM3_BLT => mem3_of(values, depth),
        GLYPH_INDEX => glyphs_of(values, depth),
        _ => None,
    }
}

/// The rectangle and the colour of an OpaqueRect order, which most orders are; `None` where its rectangle has no pixel, and for any other order.
pub fn fill_of(fields: &Fields, depth: Depth) -> Option<(Rect, Color)>
    ensures { result ≡ fill_in (drawing_of depth fields.now) }
{
    if fields.kind() != OPAQUE_RECT {
        return None;
    }
    fill_values(fields.values(), depth)
}

fn dst_of(values: &[i64]) -> Option<Named>
    requires { FitKinds dst_blt.kinds values.now }
    ensures { (depth : Depth) (run : List ℕ) → optional_drawing run result ≡ drawing_of_values depth DstBlt values.now run }
{
    let rect = rect_at(values, 0);
    if !has_pixel(rect) {
        return None;
    }
    Some(Named::Dst {
        rect,
        rop: byte(values, 4),
    })
}

fn pat_of(values: &[i64], depth: Depth) -> Option<Named>
    requires { FitKinds pat_blt.kinds values.now }
    ensures { (run : List ℕ) → optional_drawing run result ≡ drawing_of_values depth PatBlt values.now run }
{
    let rect = rect_at(values, 0);
    if !has_pixel(rect) || !is_cached_brush(values, 7, depth) {
        return None;
    }
    Some(Named::Pat {
        rect,
        rop: byte(values, 4),
        entry: byte(values, 10),
    })
}

fn scr_of(values: &[i64]) -> Option<Named>
    requires { FitKinds scr_blt.kinds values.now }
    ensures { (depth : Depth) (run : List ℕ) → optional_drawing run result ≡ drawing_of_values depth ScrBlt values.now run }
{
    let rect = rect_at(values, 0);
    if !has_pixel(rect) {
        return None;
    }
    Some(Named::Scr {
        rect,
        rop: byte(values, 4),
        sx: coordinate(values, 5),
        sy: coordinate(values, 6),
    })
}

fn opaque_of(values: &[i64], depth: Depth) -> Option<Named>
    requires { FitKinds opaque_rect.kinds values.now }
    ensures { (run : List ℕ) → optional_drawing run result ≡ drawing_of_values depth OpaqueRect values.now run }
{
    let (rect, color) = fill_values(values, depth)?;
    Some(Named::Opaque { rect, color })
}

/// The rectangle and the colour of an OpaqueRect order's values, where the rectangle has a pixel.
fn fill_values(values: &[i64], depth: Depth) -> Option<(Rect, Color)>
    requires { FitKinds opaque_rect.kinds values.now }
    ensures { (run : List ℕ) → optional_fill result ≡ drawing_of_values depth OpaqueRect values.now run }
{
    let [left, top, width, height, red, green, blue] = values else {
        return None;
    };
    let rect = Rect {
        x: *left as i32,
        y: *top as i32,
        w: side_of(*width),
        h: side_of(*height),
    };
    if !has_pixel(rect) {
        return None;
    }
    let bytes = Color::new(*red as u8, *green as u8, *blue as u8);
    Some((rect, color_said(bytes, depth)))
}

fn save_of(values: &[i64]) -> Option<Named>
    requires { FitKinds save_bitmap.kinds values.now }
    ensures { (depth : Depth) (run : List ℕ) → optional_drawing run result ≡ drawing_of_values depth SaveBitmap values.now run }
{
    let rect = closed_rect_at(values, 1);
    if !has_pixel(rect) {
        return None;
    }
    let position = number(values, 0);
    match byte(values, 5) {
        SAVE => Some(Named::Save { position, rect }),
        RESTORE => Some(Named::Restore { position, rect }),
        _ => None,
    }
}

fn mem_of(values: &[i64]) -> Option<Named>
    requires { FitKinds mem_blt.kinds values.now }
    ensures { (depth : Depth) (run : List ℕ) → optional_drawing run result ≡ drawing_of_values depth MemBlt values.now run }
{
    let rect = rect_at(values, 1);
    if !has_pixel(rect) {
        return None;
    }
    Some(Named::Mem {
        cache: short(values, 0),
        index: short(values, 8),
        rect,
        rop: byte(values, 5),
        sx: coordinate(values, 6),
        sy: coordinate(values, 7),
    })
}

fn mem3_of(values: &[i64], depth: Depth) -> Option<Named>
    requires { FitKinds mem3_blt.kinds values.now }
    ensures { (run : List ℕ) → optional_drawing run result ≡ drawing_of_values depth Mem3Blt values.now run }
{
    let rect = rect_at(values, 1);
    if !has_pixel(rect) || !is_cached_brush(values, 10, depth) {
        return None;
    }
    Some(Named::Mem3 {
        cache: short(values, 0),
        index: short(values, 15),
        rect,
        rop: byte(values, 5),
        sx: coordinate(values, 6),
        sy: coordinate(values, 7),
        entry: byte(values, 13),
    })
}

fn glyphs_of(values: &[i64], depth: Depth) -> Option<Named>
    requires { FitKinds glyph_index.kinds values.now }
    ensures { (run : List ℕ) → optional_drawing run result ≡ drawing_of_values depth GlyphIndex values.now run }
{
    if !is_cached_run(values, depth) {
        return None;
    }
    Some(Named::Glyphs {
        cache: byte(values, 0),
        x: coordinate(values, 19),
        y: coordinate(values, 20),
        color: color_said(Color::low(number(values, 4)), depth),
    })
}
