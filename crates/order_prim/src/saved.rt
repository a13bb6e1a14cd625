//! The order that saves a rectangle, or restores it ([MS-RDPEGDI] 2.2.2.2.1.1.2.12).
//!
//! | place | size | field | value |
//! |---|---|---|---|
//! | 0 | 4 | savedBitmapPosition | the place of its first pixel among those that are saved |
//! | 1 | 2 | nLeftRect | the left column |
//! | 2 | 2 | nTopRect | the top row |
//! | 3 | 2 | nRightRect | the right column, inclusive |
//! | 4 | 2 | nBottomRect | the bottom row, inclusive |
//! | 5 | 1 | Operation | 0 saves, 1 restores |

ghost use Rattle.std.specs.Prelude.{◌≡◌, [], ◌∷◌, ◌++◌, pos, ◌+ℤ◌, ◌-ℤ◌};
ghost use Rattle.px_core.specs.declared.depth.Depth.TheVariants.{Bits24};
ghost use Rattle.order_fields.specs.OrderTable.{IsFieldList, field_list};
ghost use Rattle.order_fields.specs.NamedDrawing.{drawing_fields, closed_box};
ghost use Rattle.order_prim.specs.Saved.{saved_or_restored};

use order_fields::{Fields, SAVE_BITMAP};
use px_core::Rect;

/// The operation that saves a rectangle.
const SAVE: u8 = 0;

/// The operation that restores it.
const RESTORE: u8 = 1;

/// SaveBitmap: saves the rectangle's pixels at a place, or restores those that were saved there.
pub fn save_bitmap(position: u32, r: Rect, restore: bool) -> Fields
    requires { IsFieldList (drawing_fields Bits24 r (saved_or_restored position r restore)) }
    ensures { result ≡ drawing_fields Bits24 r (saved_or_restored position r restore) }
{
    if restore {
        block_fields(position, r, RESTORE)
    } else {
        block_fields(position, r, SAVE)
    }
}

/// The fields of an operation on a rectangle and a place.
fn block_fields(position: u32, r: Rect, operation: u8) -> Fields
    requires { IsFieldList (field_list 11 (pos position ∷ (closed_box r ++ pos operation ∷ [])) []) }
    ensures { result ≡ field_list 11 (pos position ∷ (closed_box r ++ pos operation ∷ [])) [] }
{
    Fields::plain(
        SAVE_BITMAP,
        &[
            i64::from(position),
            i64::from(r.x),
            i64::from(r.y),
            last_place(r.x, r.w),
            last_place(r.y, r.h),
            i64::from(operation),
        ],
    )
}

/// The last column, or row, of so many from one on.
fn last_place(from: i32, count: u32) -> i64
    ensures { result ≡ (from +ℤ pos count) -ℤ pos 1 }
{
    i64::from(from) + i64::from(count) - 1
}
