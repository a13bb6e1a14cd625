//! Bounds of an order: a byte of flags, then the edges that stand there ([MS-RDPEGDI] 2.2.2.2.1.1.1.1).
//!
//! | flag | edge | |
//! |---|---|---|
//! | 01, 02, 04, 08 | left, top, right, bottom | absolute, 2 bytes |
//! | 10, 20, 40, 80 | left, top, right, bottom | one signed byte that is added to the last one |

ghost use Rattle.std.specs.Prelude.{◌≡◌, ◌<◌, ◌≤◌, ◌*◌, true, IfOk};
ghost use Rattle.wire_num.specs.Cursor.{ReadsField, ReadsFieldsAs};
ghost use Rattle.order_fields.specs.OrderTable.{fits_coordinate, FitEdges, FitBounds};
ghost use Rattle.order_fields.specs.OrderStream.{has_bit, edge_at, edges_at, bounds_at};
ghost use Rattle.order_fields.specs.Kept.{edges_in, optional_edges};
ghost use Rattle.order_fields.specs.NamedDrawing.{side_between};
ghost use Rattle.order_read.specs.Told.{bounds_rect, optional_rect};

use crate::bits::has_bit;
use crate::number::{read_byte, read_moved, read_signed};
use order_fields::Bounds;
use px_core::Rect;
use wire_num::{Cursor, Short};

/// The flags of absolute edges; those of moved ones weigh sixteen times as much.
const LEFT: u8 = 0x01;

const TOP: u8 = 0x02;

const RIGHT: u8 = 0x04;

const BOTTOM: u8 = 0x08;

const MOVED: u8 = 0x10;

/// The bytes of an absolute edge.
const EDGE_SIZE: usize = 2;

/// Reads the edge of this flag: absolute, moved from the last one, or the last one.
fn read_edge(cursor: &mut Cursor<'_>, flags: u8, flag: u8, last: i64) -> Result<i64, Short>
    requires some { 0 < flag }
    requires low { flag ≤ 8 }
    requires last { fits_coordinate last ≡ true }
    ensures read { ReadsField (edge_at (has_bit flags flag) (has_bit flags (16 * flag)) last) result cursor.old cursor.new }
    ensures fits { IfOk result (λ z. fits_coordinate z ≡ true) }
{
    if has_bit(flags, flag) {
        read_signed(cursor, EDGE_SIZE)
    } else if has_bit(flags, MOVED * flag) {
        read_moved(cursor, last)
    } else {
        Ok(last)
    }
}

/// Reads the four edges.
fn read_edges(cursor: &mut Cursor<'_>, flags: u8, old: Bounds) -> Result<Bounds, Short>
    requires { FitEdges (edges_in old) }
    ensures read { ReadsFieldsAs edges_in (edges_at flags (edges_in old)) result cursor.old cursor.new }
    ensures fits { IfOk result (λ new. FitEdges (edges_in new)) }
{
    let left = read_edge(cursor, flags, LEFT, old.left)?;
    let top = read_edge(cursor, flags, TOP, old.top)?;
    let right = read_edge(cursor, flags, RIGHT, old.right)?;
    let bottom = read_edge(cursor, flags, BOTTOM, old.bottom)?;
    Ok(Bounds {
        left,
        top,
        right,
        bottom,
    })
}

/// Reads the bounds of an order, where it has some.
pub fn read_bounds(
    cursor: &mut Cursor<'_>,
    bounded: bool,
    same: bool,
    old: Bounds,
) -> Result<Option<Bounds>, Short>
    requires { FitEdges (edges_in old) }
    ensures read { ReadsFieldsAs optional_edges (bounds_at bounded same (edges_in old)) result cursor.old cursor.new }
    ensures fits { IfOk result (λ new. FitBounds (optional_edges new)) }
{
    if !bounded {
        return Ok(None);
    }
    if same {
        return Ok(Some(old));
    }
    let flags = read_byte(cursor)?;
    let new = read_edges(cursor, flags, old)?;
    Ok(Some(new))
}

/// How many numbers a stretch has from its first to its last.
fn side(first: i64, last: i64) -> u32
    requires first { fits_coordinate first ≡ true }
    requires last { fits_coordinate last ≡ true }
    ensures { result ≡ side_between first last }
{
    if last < first {
        0
    } else {
        (last + 1 - first) as u32
    }
}

/// The rectangle of bounds.
fn rect_of(bounds: Bounds) -> Rect
    requires { FitEdges (edges_in bounds) }
    ensures { result ≡ bounds_rect (edges_in bounds) }
{
    Rect {
        x: bounds.left as i32,
        y: bounds.top as i32,
        w: side(bounds.left, bounds.right),
        h: side(bounds.top, bounds.bottom),
    }
}

/// The rectangle of bounds that may be missing.
pub fn optional_rect_of(bounds: Option<Bounds>) -> Option<Rect>
    requires { FitBounds (optional_edges bounds) }
    ensures { result ≡ optional_rect (optional_edges bounds) }
{
    match bounds {
        None => None,
        Some(bounds) => Some(rect_of(bounds)),
    }
}
