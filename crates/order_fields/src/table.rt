//! The eight primary orders: their types, their fields, and how many flag bytes they have.
//!
//! | type | order | flag bytes | fields | section of [MS-RDPEGDI] |
//! |---|---|---|---|---|
//! | 00 | DstBlt | 1 | box, bRop | 2.2.2.2.1.1.2.1 |
//! | 01 | PatBlt | 2 | box, bRop, backColor, foreColor, brush | 2.2.2.2.1.1.2.3 |
//! | 02 | ScrBlt | 1 | box, bRop, nXSrc, nYSrc | 2.2.2.2.1.1.2.7 |
//! | 0A | OpaqueRect | 1 | box, red, green, blue | 2.2.2.2.1.1.2.5 |
//! | 0B | SaveBitmap | 1 | savedBitmapPosition, edges, operation | 2.2.2.2.1.1.2.12 |
//! | 0D | MemBlt | 2 | cacheId, box, bRop, nXSrc, nYSrc, cacheIndex | 2.2.2.2.1.1.2.9 |
//! | 0E | Mem3Blt | 3 | cacheId, box, bRop, nXSrc, nYSrc, backColor, foreColor, brush, cacheIndex | 2.2.2.2.1.1.2.10 |
//! | 1B | GlyphIndex | 3 | cacheId, flAccel, ulCharInc, fOpRedundant, backColor, foreColor, edges bk, edges op, brush, x, y, counted bytes | 2.2.2.2.1.1.2.13 |

ghost use Rattle.std.specs.Prelude.{◌≡◌, false, is_some, length, IfSome};
ghost use Rattle.order_fields.specs.OrderTable.{row_of};
ghost use Rattle.order_fields.specs.Kept.{row_kinds, is_row_counted, IsLayoutOf};

use crate::FieldKind;
use crate::FieldKind::{Color, Coordinate, Number, Signed};

pub const DST_BLT: u8 = 0x00;

pub const PAT_BLT: u8 = 0x01;

pub const SCR_BLT: u8 = 0x02;

pub const OPAQUE_RECT: u8 = 0x0A;

pub const SAVE_BITMAP: u8 = 0x0B;

pub const MEM_BLT: u8 = 0x0D;

pub const MEM3_BLT: u8 = 0x0E;

pub const GLYPH_INDEX: u8 = 0x1B;

const DST_BLT_KINDS: [FieldKind; 5] = [Coordinate, Coordinate, Coordinate, Coordinate, Number(1)];

const PAT_BLT_KINDS: [FieldKind; 12] = [
    Coordinate,
    Coordinate,
    Coordinate,
    Coordinate,
    Number(1),
    Color,
    Color,
    Number(1),
    Number(1),
    Number(1),
    Number(1),
    Number(7),
];

const SCR_BLT_KINDS: [FieldKind; 7] = [
    Coordinate,
    Coordinate,
    Coordinate,
    Coordinate,
    Number(1),
    Coordinate,
    Coordinate,
];

const OPAQUE_RECT_KINDS: [FieldKind; 7] = [
    Coordinate,
    Coordinate,
    Coordinate,
    Coordinate,
    Number(1),
    Number(1),
    Number(1),
];

const SAVE_BITMAP_KINDS: [FieldKind; 6] = [
    Number(4),
    Coordinate,
    Coordinate,
    Coordinate,
    Coordinate,
    Number(1),
];

const MEM_BLT_KINDS: [FieldKind; 9] = [
    Number(2),
    Coordinate,
    Coordinate,
    Coordinate,
    Coordinate,
    Number(1),
    Coordinate,
    Coordinate,
    Number(2),
];

const MEM3_BLT_KINDS: [FieldKind; 16] = [
    Number(2),
    Coordinate,
    Coordinate,
    Coordinate,
    Coordinate,
    Number(1),
    Coordinate,
    Coordinate,
    Color,
    Color,
    Number(1),
    Number(1),
    Number(1),
    Number(1),
    Number(7),
    Number(2),
];

const GLYPH_INDEX_KINDS: [FieldKind; 21] = [
    Number(1),
    Number(1),
    Number(1),
    Number(1),
    Color,
    Color,
    Signed,
    Signed,
    Signed,
    Signed,
    Signed,
    Signed,
    Signed,
    Signed,
    Number(1),
    Number(1),
    Number(1),
    Number(1),
    Number(7),
    Signed,
    Signed,
];

/// The fields of a type; none of another type.
pub fn kinds_of(kind: u8) -> &'static [FieldKind]
    ensures { result.now ≡ row_kinds (row_of kind) }
{
    match kind {
        DST_BLT => &DST_BLT_KINDS,
        PAT_BLT => &PAT_BLT_KINDS,
        SCR_BLT => &SCR_BLT_KINDS,
        OPAQUE_RECT => &OPAQUE_RECT_KINDS,
        SAVE_BITMAP => &SAVE_BITMAP_KINDS,
        MEM_BLT => &MEM_BLT_KINDS,
        MEM3_BLT => &MEM3_BLT_KINDS,
        GLYPH_INDEX => &GLYPH_INDEX_KINDS,
        _ => &[],
    }
}

/// How an order of a type stands in bytes: the fields in their order, how many flag bytes it has, and whether a field of counted bytes stands last.
#[derive(Clone, Copy)]
pub struct Layout {
    pub kinds: &'static [FieldKind],
    pub flag_bytes: u8,
    pub counted: bool,
}

/// The layout of a type, where there is an order of it.
pub fn layout_of(kind: u8) -> Option<Layout>
    ensures known { is_some result ≡ is_some (row_of kind) }
    ensures layout { IfSome result (IsLayoutOf (row_of kind)) }
{
    match kind {
        DST_BLT => Some(plain(&DST_BLT_KINDS, 1)),
        PAT_BLT => Some(plain(&PAT_BLT_KINDS, 2)),
        SCR_BLT => Some(plain(&SCR_BLT_KINDS, 1)),
        OPAQUE_RECT => Some(plain(&OPAQUE_RECT_KINDS, 1)),
        SAVE_BITMAP => Some(plain(&SAVE_BITMAP_KINDS, 1)),
        MEM_BLT => Some(plain(&MEM_BLT_KINDS, 2)),
        MEM3_BLT => Some(plain(&MEM3_BLT_KINDS, 3)),
        GLYPH_INDEX => Some(Layout {
            kinds: &GLYPH_INDEX_KINDS,
            flag_bytes: 3,
            counted: true,
        }),
        _ => None,
    }
}

/// The layout of a type without counted bytes.
fn plain(kinds: &'static [FieldKind], flag_bytes: u8) -> Layout
    ensures kinds { result.kinds.now ≡ kinds.now }
    ensures flags { result.flag_bytes ≡ flag_bytes }
    ensures counted { result.counted ≡ false }
{
    Layout {
        kinds,
        flag_bytes,
        counted: false,
    }
}

/// Whether a type has a field of counted bytes.
pub fn is_counted(kind: u8) -> bool
    ensures { result ≡ is_row_counted (row_of kind) }
{
    kind == GLYPH_INDEX
}
