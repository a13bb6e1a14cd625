//! The orders that need no cache: DstBlt, ScrBlt and OpaqueRect ([MS-RDPEGDI] 2.2.2.2.1.1.2.1, 2.2.2.2.1.1.2.7 and 2.2.2.2.1.1.2.5).
//!
//! | place | size | field | DstBlt, type 0 | ScrBlt, type 2 | OpaqueRect, type 10 |
//! |---|---|---|---|---|---|
//! | 0 | 2 | nLeftRect | the left column | the same | the same |
//! | 1 | 2 | nTopRect | the top row | the same | the same |
//! | 2 | 2 | nWidth | the columns | the same | the same |
//! | 3 | 2 | nHeight | the rows | the same | the same |
//! | 4 | 1 | bRop, or RedOrPaletteIndex | the operation's code | the same | red |
//! | 5 | 2, or 1 | nXSrc, or Green | none | the source's left column | green |
//! | 6 | 2, or 1 | nYSrc, or Blue | none | the source's top row | blue |

ghost use Rattle.std.specs.Prelude.{◌≡◌};
ghost use Rattle.px_core.specs.declared.depth.Depth.TheVariants.{Bits24};
ghost use Rattle.order_fields.specs.OrderTable.{IsFieldList};
ghost use Rattle.order_fields.specs.NamedDrawing.{drawing_fields};
ghost use Rattle.order_fields.specs.NamedDrawing.NamedDrawing.{Dst, Scr, Opaque};

use order_fields::{DST_BLT, Fields, OPAQUE_RECT, SCR_BLT};
use px_core::Rect;

/// DstBlt: a raster operation on the rectangle alone, by its code.
pub fn dst_blt(r: Rect, rop: u8) -> Fields
    requires { IsFieldList (drawing_fields Bits24 r (Dst r rop)) }
    ensures { result ≡ drawing_fields Bits24 r (Dst r rop) }
{
    Fields::plain(
        DST_BLT,
        &[
            i64::from(r.x),
            i64::from(r.y),
            i64::from(r.w),
            i64::from(r.h),
            i64::from(rop),
        ],
    )
}

/// ScrBlt: a raster operation with the picture itself as its source, of which (sx, sy) belongs to the rectangle's upper left pixel.
pub fn scr_blt(r: Rect, rop: u8, sx: i32, sy: i32) -> Fields
    requires { IsFieldList (drawing_fields Bits24 r (Scr r rop sx sy)) }
    ensures { result ≡ drawing_fields Bits24 r (Scr r rop sx sy) }
{
    Fields::plain(
        SCR_BLT,
        &[
            i64::from(r.x),
            i64::from(r.y),
            i64::from(r.w),
            i64::from(r.h),
            i64::from(rop),
            i64::from(sx),
            i64::from(sy),
        ],
    )
}

/// OpaqueRect: the rectangle in one colour.
pub fn opaque_rect(r: Rect, color: u32) -> Fields
    requires { IsFieldList (drawing_fields Bits24 r (Opaque r color)) }
    ensures { result ≡ drawing_fields Bits24 r (Opaque r color) }
{
    Fields::plain(
        OPAQUE_RECT,
        &[
            i64::from(r.x),
            i64::from(r.y),
            i64::from(r.w),
            i64::from(r.h),
            i64::from(color / 0x1_0000),
            i64::from(color / 0x100 % 0x100),
            i64::from(color % 0x100),
        ],
    )
}
