//! The orders that take a brush or an image from a cache: PatBlt, MemBlt and Mem3Blt ([MS-RDPEGDI] 2.2.2.2.1.1.2.3, 2.2.2.2.1.1.2.9 and 2.2.2.2.1.1.2.10).
//!
//! | size | field | value | PatBlt, type 1 | MemBlt, type 13 | Mem3Blt, type 14 |
//! |---|---|---|---|---|---|
//! | 2 | cacheId | the bitmap cache | none | place 0 | place 0 |
//! | 2 each | nLeftRect, nTopRect, nWidth, nHeight | the rectangle | places 0 to 3 | places 1 to 4 | places 1 to 4 |
//! | 1 | bRop | the operation's code | place 4 | place 5 | place 5 |
//! | 2 each | nXSrc, nYSrc | the source's corner | none | places 6 and 7 | places 6 and 7 |
//! | 3 each | BackColor, ForeColor | 0 (profile) | places 5 and 6 | none | places 8 and 9 |
//! | 1 each | BrushOrgX, BrushOrgY | 0 | places 7 and 8 | none | places 10 and 11 |
//! | 1 | BrushStyle | 85, a brush of the cache with 24 bits a pixel | place 9 | none | place 12 |
//! | 1 | BrushHatch | the brush's entry | place 10 | none | place 13 |
//! | 7 | BrushExtra | 0 | place 11 | none | place 14 |
//! | 2 | cacheIndex | the image's entry | none | place 8 | place 15 |

ghost use Rattle.std.specs.Prelude.{◌≡◌};
ghost use Rattle.px_core.specs.declared.depth.Depth.TheVariants.{Bits24};
ghost use Rattle.order_fields.specs.OrderTable.{IsFieldList};
ghost use Rattle.order_fields.specs.NamedDrawing.{drawing_fields};
ghost use Rattle.order_fields.specs.NamedDrawing.NamedDrawing.{Pat, Mem, Mem3};

use order_fields::{Fields, MEM_BLT, MEM3_BLT, PAT_BLT};
use px_core::{Depth, Rect, cached_brush_style};

/// PatBlt: a raster operation with the brush of an entry of the cache as its pattern.
pub fn pat_blt(r: Rect, rop: u8, entry: u8) -> Fields
    requires { IsFieldList (drawing_fields Bits24 r (Pat r rop entry)) }
    ensures { result ≡ drawing_fields Bits24 r (Pat r rop entry) }
{
    Fields::plain(
        PAT_BLT,
        &[
            i64::from(r.x),
            i64::from(r.y),
            i64::from(r.w),
            i64::from(r.h),
            i64::from(rop),
            0,
            0,
            0,
            0,
            i64::from(cached_brush_style(Depth::Bits24)),
            i64::from(entry),
            0,
        ],
    )
}

/// MemBlt: a raster operation with a cached image as its source, of which (sx, sy) belongs to the rectangle's upper left pixel.
pub fn mem_blt(cache: u8, index: u16, r: Rect, rop: u8, sx: i32, sy: i32) -> Fields
    requires { IsFieldList (drawing_fields Bits24 r (Mem cache index r rop sx sy)) }
    ensures { result ≡ drawing_fields Bits24 r (Mem cache index r rop sx sy) }
{
    Fields::plain(
        MEM_BLT,
        &[
            i64::from(cache),
            i64::from(r.x),
            i64::from(r.y),
            i64::from(r.w),
            i64::from(r.h),
            i64::from(rop),
            i64::from(sx),
            i64::from(sy),
            i64::from(index),
        ],
    )
}

/// Mem3Blt: a raster operation with a cached image as its source and the brush of an entry of the cache as its pattern.
pub fn mem3_blt(cache: u8, index: u16, r: Rect, rop: u8, sx: i32, sy: i32, entry: u8) -> Fields
    requires { IsFieldList (drawing_fields Bits24 r (Mem3 cache index r rop sx sy entry)) }
    ensures { result ≡ drawing_fields Bits24 r (Mem3 cache index r rop sx sy entry) }
{
    Fields::plain(
        MEM3_BLT,
        &[
            i64::from(cache),
            i64::from(r.x),
            i64::from(r.y),
            i64::from(r.w),
            i64::from(r.h),
            i64::from(rop),
            i64::from(sx),
            i64::from(sy),
            0,
            0,
            0,
            0,
            i64::from(cached_brush_style(Depth::Bits24)),
            i64::from(entry),
            0,
            i64::from(index),
        ],
    )
}
