//! Orders whose colours and styles are those of a depth ([MS-RDPEGDI] 2.2.2.2.1.1.2): a fill, a raster operation with a brush, and a run of glyphs.

ghost use Rattle.std.specs.Prelude.{◌≡◌, ℕ, ℤ};
ghost use Rattle.px_core.specs.declared.rectangle.Rect.{Rect};
ghost use Rattle.px_core.specs.declared.depth.Depth.TheVariants.{Bits24};
ghost use Rattle.order_fields.specs.OrderTable.{IsFieldList};
ghost use Rattle.order_fields.specs.NamedDrawing.{drawing_fields};
ghost use Rattle.order_fields.specs.NamedDrawing.NamedDrawing.{Opaque, Pat, Mem3, Glyphs};

use depth_cut::{style16, wire_color};
use order_fields::Fields;
use order_prim::{glyph_index_of, mem3_blt, opaque_rect, pat_blt};
use px_core::{Depth, Rect};

/// OpaqueRect: the rectangle in one colour, as it is shown at a depth.
pub(crate) fn fill_order(r: Rect, color: u32, depth: Depth) -> Fields
    requires { IsFieldList (drawing_fields depth r (Opaque r color)) }
    ensures { result ≡ drawing_fields depth r (Opaque r color) }
{
    opaque_rect(r, wire_color(color, depth))
}

/// PatBlt: a raster operation with the brush of an entry of the cache, which has the style of a depth.
pub(crate) fn pat_order(r: Rect, rop: u8, entry: u8, depth: Depth) -> Fields
    requires { IsFieldList (drawing_fields depth r (Pat r rop entry)) }
    ensures { result ≡ drawing_fields depth r (Pat r rop entry) }
{
    styled(pat_blt(r, rop, entry), depth)
}

/// Mem3Blt: a raster operation with a cached image as its source and with the brush of an entry of the cache, which has the style of a
/// depth.
pub(crate) fn mem3_order(
    cache: u8,
    index: u16,
    r: Rect,
    rop: u8,
    sx: i32,
    sy: i32,
    entry: u8,
    depth: Depth,
) -> Fields
    requires { IsFieldList (drawing_fields depth r (Mem3 cache index r rop sx sy entry)) }
    ensures { result ≡ drawing_fields depth r (Mem3 cache index r rop sx sy entry) }
{
    styled(mem3_blt(cache, index, r, rop, sx, sy, entry), depth)
}

/// GlyphIndex: a run of cached glyphs in one colour, as it is shown at a depth, whose vector it takes over.
pub(crate) fn run_order(
    cache: u8,
    x: i32,
    y: i32,
    color: u32,
    area: Rect,
    run: Vec<u8>,
    depth: Depth,
) -> Fields
    requires { IsFieldList (drawing_fields depth area (Glyphs cache x y color run.items)) }
    ensures { result ≡ drawing_fields depth area (Glyphs cache x y color run.items) }
{
    glyph_index_of(cache, x, y, wire_color(color, depth), area, run)
}

/// The fields of a PatBlt or Mem3Blt with the style of a depth's brushes.
fn styled(order: Fields, depth: Depth) -> Fields
    ensures pattern { (r : Rect) (code entry : ℕ) → order ≡ drawing_fields Bits24 r (Pat r code entry) → result ≡ drawing_fields depth r (Pat r code entry) }
    ensures both { (r : Rect) (cache index code entry : ℕ) (sx sy : ℤ) → order ≡ drawing_fields Bits24 r (Mem3 cache index r code sx sy entry)
        → result ≡ drawing_fields depth r (Mem3 cache index r code sx sy entry) }
{
    match depth {
        Depth::Bits24 => order,
        Depth::Bits16 => style16(order),
    }
}
