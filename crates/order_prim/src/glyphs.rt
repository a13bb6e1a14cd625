//! The order that draws a run of cached glyphs ([MS-RDPEGDI] 2.2.2.2.1.1.2.13).
//!
//! | place | size | field | value |
//! |---|---|---|---|
//! | 0 | 1 | cacheId | the glyph cache |
//! | 1 | 1 | flAccel | 3 |
//! | 2 | 1 | ulCharInc | 0, each glyph has its own delta |
//! | 3 | 1 | fOpRedundant | 1 |
//! | 4 | 3 | BackColor | the glyphs' colour |
//! | 5 | 3 | ForeColor | 0 |
//! | 6 to 9 | 2 each | BkLeft, BkTop, BkRight, BkBottom | the area, right and bottom exclusive |
//! | 10 to 13 | 2 each | OpLeft, OpTop, OpRight, OpBottom | 0 |
//! | 14 to 18 | 1 each, the last 7 | BrushOrgX, BrushOrgY, BrushStyle, BrushHatch, BrushExtra | 0 |
//! | 19 | 2 | X | the pen's column |
//! | 20 | 2 | Y | the pen's row |
//! | | 1, and so many | VariableBytes | their count, and pairs of a glyph's entry and its delta |

ghost use Rattle.std.specs.Prelude.{◌≡◌, IfOk};
ghost use Rattle.px_core.specs.declared.depth.Depth.TheVariants.{Bits24};
ghost use Rattle.order_fields.specs.OrderTable.{IsFieldList};
ghost use Rattle.order_fields.specs.NamedDrawing.{drawing_fields};
ghost use Rattle.order_fields.specs.NamedDrawing.NamedDrawing.{Glyphs};

use order_fields::{Fields, GLYPH_INDEX};
use px_core::Rect;
use std::alloc::Global;
use wire_num::OutOfMemory;

/// SO_FLAG_DEFAULT_PLACEMENT and SO_HORIZONTAL.
const ACCELERATED: i64 = 3;

/// GlyphIndex: a run of cached glyphs in one colour, from a pen at (x, y), within an area. An `Err` is want of memory.
pub fn glyph_index(
    alloc: Global,
    cache: u8,
    x: i32,
    y: i32,
    color: u32,
    area: Rect,
    run: &[u8],
) -> Result<Fields, OutOfMemory>
    requires { IsFieldList (drawing_fields Bits24 area (Glyphs cache x y color run.now)) }
    ensures { IfOk result (λ fields. fields ≡ drawing_fields Bits24 area (Glyphs cache x y color run.now)) }
{
    let run = Vec::from_slice(alloc, run)?;
    Ok(glyph_index_of(cache, x, y, color, area, run))
}

/// The same of a run whose vector it takes over.
pub fn glyph_index_of(cache: u8, x: i32, y: i32, color: u32, area: Rect, run: Vec<u8>) -> Fields
    requires { IsFieldList (drawing_fields Bits24 area (Glyphs cache x y color run.items)) }
    ensures { result ≡ drawing_fields Bits24 area (Glyphs cache x y color run.items) }
{
    Fields::holding(
        GLYPH_INDEX,
        &[
            i64::from(cache),
            ACCELERATED,
            0,
            1,
            i64::from(color),
            0,
            i64::from(area.x),
            i64::from(area.y),
            i64::from(area.x) + i64::from(area.w),
            i64::from(area.y) + i64::from(area.h),
            0,
            0,
            0,
            0,
            0,
            0,
            0,
            0,
            0,
            i64::from(x),
            i64::from(y),
        ],
        run,
    )
}
