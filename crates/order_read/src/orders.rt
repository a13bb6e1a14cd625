//! The orders of an update's body.

ghost use Rattle.std.specs.Prelude.{◌≡◌, OnErr};
ghost use Rattle.order_fields.specs.OrderStream.{orders_in};
ghost use Rattle.wire_num.specs.Cursor.{rest};
ghost use Rattle.order_read.specs.Reading.{ReadsOrder, ReadsAll, ReadsBody, AreAfterFirst};

use crate::number::read_byte;
use crate::primary::read_primary;
use crate::secondary::{read_marker, read_secondary};
use crate::{OrderFault, Read};
use order_fields::Regs;
use px_core::Depth;
use std::alloc::Global;
use wire_num::Cursor;

/// How a primary order's control byte ends: TS_STANDARD without TS_SECONDARY.
const CLASS_COUNT: u8 = 4;

const TS_STANDARD: u8 = 0x01;

/// The control byte of a secondary order: TS_STANDARD and TS_SECONDARY.
const STANDARD_SECONDARY: u8 = 0x03;

/// The control byte of a frame marker: TS_ALTSEC_FRAME_MARKER, an alternate secondary order.
const FRAME_MARKER: u8 = 0x36;

/// Reads an order and appends what it says. An `Err` leaves the registers as they were.
fn read_order(
    alloc: Global,
    cursor: &mut Cursor<'_>,
    regs: &mut Regs,
    out: &mut Vec<Read>,
    depth: Depth,
) -> Result<(), OrderFault>
    ensures { ReadsOrder depth result regs.old regs.new cursor.old cursor.new out.old.items out.new.items }
{
    let first = cursor.at();
    let control = read_byte(cursor)?;
    if control % CLASS_COUNT == TS_STANDARD {
        return read_primary(alloc, cursor, first, control, regs, out);
    }
    if control == STANDARD_SECONDARY {
        return read_secondary(alloc, cursor, out, depth);
    }
    if control == FRAME_MARKER {
        return read_marker(cursor, out);
    }
    cursor.go_to(first);
    Err(OrderFault::BadOrder { at: first })
}

/// Reads so many orders, which fill the bytes, and appends what they say. A refusal leaves the cursor at the refused field, and an `Err` the registers after the last order that was read.
fn read_all(
    alloc: Global,
    cursor: &mut Cursor<'_>,
    count: u16,
    regs: &mut Regs,
    out: &mut Vec<Read>,
    depth: Depth,
) -> Result<(), OrderFault>
    ensures read { ReadsAll (orders_in depth (rest cursor.old) count regs.old) result regs.new cursor.old cursor.new out.old.items out.new.items }
    ensures registers { OnErr result (AreAfterFirst depth (rest cursor.old) count regs.old regs.new) }
{
    for _ in 0..count {
        read_order(alloc, cursor, regs, out, depth)?;
    }
    cursor.end()?;
    Ok(())
}

/// Reads the orders of a body, which are so many and fill it, as a client of this depth reads them: a cached brush of the other depth is refused.
///
/// A refusal leaves the registers after the last whole order, and want of memory after the last one that was read by then.
pub fn read_orders(
    alloc: Global,
    body: &[u8],
    count: u16,
    regs: &mut Regs,
    depth: Depth,
) -> Result<Vec<Read>, OrderFault>
    ensures read { ReadsBody body.now (orders_in depth body.now count regs.old) result regs.new }
    ensures registers { OnErr result (AreAfterFirst depth body.now count regs.old regs.new) }
{
    let mut cursor = Cursor::new(body);
    let mut out = Vec::new(alloc);
    match read_all(alloc, &mut cursor, count, regs, &mut out, depth) {
        Ok(()) => Ok(out),
        Err(OrderFault::BadOrder { .. }) => Err(OrderFault::BadOrder { at: cursor.at() }),
        Err(OrderFault::OutOfMemory) => Err(OrderFault::OutOfMemory),
    }
}
