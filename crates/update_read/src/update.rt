//! An update's body ([MS-RDPBCGR] 2.2.9.1.1.3).
//!
//! | offset | size | field | value |
//! |---|---|---|---|
//! | 0 | 2 | updateType | `00 00` Orders, `01 00` Bitmap, `03 00` Synchronize |
//! | 2 | 2 | Orders: pad | |
//! | 4 | 2 | numberOrders | |
//! | 6 | 2 | pad | |
//! | 8 | | the orders | |
//! | 2 | 2 | Bitmap: numberRectangles | |
//! | 4 | | the rectangles, which fill the body | |
//! | 2 | 2 | Synchronize: pad | `00 00`, one field with its type |
//!
//! The data of an update of the fast path ([MS-RDPBCGR] 2.2.9.1.2.1):
//!
//! | offset | size | field | value |
//! |---|---|---|---|
//! | 0 | 2 | orders: numberOrders | |
//! | 2 | | the orders | |
//! | 0 | 2 | bitmap: updateType | `01 00` |
//! | 2 | 2 | numberRectangles | |
//! | 4 | | the rectangles, which fill the data | |
//!
//! Those of a synchronization are empty.

ghost use Rattle.std.specs.Prelude.{◌≡◌};
ghost use Rattle.wire_num.specs.Cursor.{rest};
ghost use Rattle.order_means.specs.FrameMarks.{orders_update_at, tiles_update_at, synchronize_at, update_at, orders_in_fast, tiles_in_fast};
ghost use Rattle.order_means.specs.FrameMarks.{synchronize_in_fast, update_by_form};
ghost use Rattle.update_read.specs.Forms.{told_form};
ghost use Rattle.update_read.specs.Told.{ReadsUpdate, ReadsBody};

use crate::tile::read_tiles;
use crate::{BodyForm, Tile, UpdateFault};
use std::alloc::Global;
use wire_num::Cursor;

const UPDATETYPE_ORDERS: u16 = 0x0000;

const UPDATETYPE_BITMAP: u16 = 0x0001;

const UPDATETYPE_SYNCHRONIZE: u16 = 0x0003;

/// The whole body of a Synchronize update.
const SYNCHRONIZE: [u8; 4] = [0x03, 0x00, 0x00, 0x00];

/// The type of a bitmap, as one field.
const BITMAP: [u8; 2] = [0x01, 0x00];

/// The bytes of a pad.
const PAD_SIZE: usize = 2;

/// What an update says.
#[derive(Drop)]
pub enum Update {
    /// So many orders, which stand in the body from that offset on. They aren't looked at.
    Orders { count: u16, from: usize },
    /// The rectangles of a Bitmap update.
    Tiles(Vec<Tile>),
    /// A Synchronize update.
    Synchronize,
}

/// Reads what stands behind the type of an Orders update.
fn read_orders_update(cursor: &mut Cursor<'_>) -> Result<Update, UpdateFault>
    ensures { ReadsUpdate orders_update_at result cursor.old cursor.new }
{
    cursor.bytes(PAD_SIZE)?;
    let count = cursor.u16_le()?;
    cursor.bytes(PAD_SIZE)?;
    Ok(Update::Orders {
        count,
        from: cursor.at(),
    })
}

/// Reads what stands behind the type of a Bitmap update.
fn read_tiles_update(alloc: Global, cursor: &mut Cursor<'_>) -> Result<Update, UpdateFault>
    ensures { ReadsUpdate tiles_update_at result cursor.old cursor.new }
{
    let count = cursor.u16_le()?;
    let mut tiles = Vec::new(alloc);
    read_tiles(cursor, count, &mut tiles)?;
    cursor.end()?;
    Ok(Update::Tiles(tiles))
}

/// Reads a Synchronize update from its type on.
fn read_synchronize(cursor: &mut Cursor<'_>) -> Result<Update, UpdateFault>
    ensures { ReadsUpdate synchronize_at result cursor.old cursor.new }
{
    cursor.expect(&SYNCHRONIZE)?;
    cursor.end()?;
    Ok(Update::Synchronize)
}

/// Reads an update from its type on.
fn read_any(alloc: Global, cursor: &mut Cursor<'_>) -> Result<Update, UpdateFault>
    ensures { ReadsUpdate update_at result cursor.old cursor.new }
{
    let first = cursor.at();
    match cursor.u16_le()? {
        UPDATETYPE_ORDERS => read_orders_update(cursor),
        UPDATETYPE_BITMAP => read_tiles_update(alloc, cursor),
        UPDATETYPE_SYNCHRONIZE => {
            cursor.go_to(first);
            read_synchronize(cursor)
        }
        _ => {
            cursor.go_to(first);
            Err(UpdateFault::BadUpdate { at: first })
        }
    }
}

/// Reads the data of orders in a packet of the fast path.
fn read_fast_orders(cursor: &mut Cursor<'_>) -> Result<Update, UpdateFault>
    ensures { ReadsUpdate orders_in_fast result cursor.old cursor.new }
{
    let count = cursor.u16_le()?;
    Ok(Update::Orders {
        count,
        from: cursor.at(),
    })
}

/// Reads the data of a bitmap in a packet of the fast path.
fn read_fast_tiles(alloc: Global, cursor: &mut Cursor<'_>) -> Result<Update, UpdateFault>
    ensures { ReadsUpdate tiles_in_fast result cursor.old cursor.new }
{
    cursor.expect(&BITMAP)?;
    read_tiles_update(alloc, cursor)
}

/// Reads the data of a synchronization in a packet of the fast path.
fn read_fast_synchronize(cursor: &mut Cursor<'_>) -> Result<Update, UpdateFault>
    ensures { ReadsUpdate synchronize_in_fast result cursor.old cursor.new }
{
    cursor.end()?;
    Ok(Update::Synchronize)
}

/// Reads an update that came so.
fn read_form(alloc: Global, form: BodyForm, cursor: &mut Cursor<'_>) -> Result<Update, UpdateFault>
    ensures { ReadsUpdate (update_by_form (told_form form)) result cursor.old cursor.new }
{
    match form {
        BodyForm::Slow => read_any(alloc, cursor),
        BodyForm::FastOrders => read_fast_orders(cursor),
        BodyForm::FastBitmap => read_fast_tiles(alloc, cursor),
        BodyForm::FastSynchronize => read_fast_synchronize(cursor),
    }
}

/// Reads what the body of an update says that came so.
pub fn read_update(alloc: Global, form: BodyForm, body: &[u8]) -> Result<Update, UpdateFault>
    ensures { ReadsBody body.now (update_by_form (told_form form) body.now) result }
{
    let mut cursor = Cursor::new(body);
    match read_form(alloc, form, &mut cursor) {
        Ok(update) => Ok(update),
        Err(UpdateFault::BadUpdate { .. }) => Err(UpdateFault::BadUpdate { at: cursor.at() }),
        Err(UpdateFault::OutOfMemory) => Err(UpdateFault::OutOfMemory),
    }
}
