//! The message of a pointer packet, behind its kind.
//!
//! | offset | size | field | value |
//! |---|---|---|---|
//! | 0 | 1 | generalCompressedType | `00` |
//! | 1 | 2 | generalCompressedLength | |
//! | 3 | | the message, as `packet` has it | to the end of the total |

ghost use Rattle.std.specs.Prelude.{◌≡◌, []};
ghost use Rattle.draw_ops.specs.Slots.{lookup};
ghost use Rattle.wire_num.specs.Cursor.{ReadsFields, ReadsFieldsAs, ReadsCaused};
ghost use Rattle.frame_rules.specs.Told.{sides, xor_length, xor_size};
ghost use Rattle.pointer_share.specs.Messages.{fixed_at, is_entry, is_filled, index_at};
ghost use Rattle.order_means.specs.PointerPackets.{compression_at};
ghost use Rattle.pointer_share.specs.Outlines.{shape_at, outline_at, sent_brought, sent_behind, sent_at, sent_in};

use crate::fault::Cause;
use crate::outline::outline;
use wire_num::{Cursor, Short};

const UNCOMPRESSED: [u8; 1] = [0x00];

/// The bytes of generalCompressedLength.
const SIZE: usize = 2;

const BRINGS: u32 = 6;

const POINTS: u32 = 7;

const HOT_SPOT: [u8; 4] = [0, 0, 0, 0];

const MASK_LENGTH: [u8; 2] = [16, 0];

const MASK_SIZE: usize = 16;

/// The bytes of the colours of 8 and of 16 columns.
const XOR_SIZE: usize = 192;

const WIDE_XOR_SIZE: usize = 384;

/// A message: the outline of a shape for an entry, or an entry.
#[derive(Clone, Copy)]
pub enum Sent {
    Brings { index: u16, outline: (u8, u8) },
    Points { index: u16 },
}

/// Width and height of a shape.
fn sides(wide: bool) -> [u8; 4]
    ensures { result ≡ sides wide }
{
    if wide { [16, 0, 8, 0] } else { [8, 0, 8, 0] }
}

/// The length of the colours.
fn xor_length(wide: bool) -> [u8; 2]
    ensures { result ≡ xor_length wide }
{
    if wide { [0x80, 1] } else { [0xC0, 0] }
}

/// The bytes of the colours.
fn xor_size(wide: bool) -> usize
    ensures { result ≡ xor_size wide }
{
    if wide { WIDE_XOR_SIZE } else { XOR_SIZE }
}

/// What an entry holds, nothing past the cells.
pub fn held(cells: &[Option<(u8, u8)>], index: u16) -> Option<(u8, u8)>
    ensures { result ≡ lookup index cells.now }
{
    match cells.get(usize::from(index)) {
        Some(cell) => *cell,
        None => None,
    }
}

/// Reads hot spot, sides and lengths of a shape.
fn read_fixed(cursor: &mut Cursor<'_>, wide: bool) -> Result<(), Short>
    ensures { ReadsFieldsAs (λ _. []) (fixed_at wide) result cursor.old cursor.new }
{
    cursor.expect(&HOT_SPOT)?;
    cursor.expect(&sides(wide))?;
    cursor.expect(&MASK_LENGTH)?;
    cursor.expect(&xor_length(wide))
}

/// Reads the bytes of a shape, and gives its outline.
fn read_shape(cursor: &mut Cursor<'_>, wide: bool) -> Result<(u8, u8), Short>
    ensures { ReadsFields (shape_at wide) result cursor.old cursor.new }
{
    let xor = cursor.bytes(xor_size(wide))?;
    let mask = cursor.bytes(MASK_SIZE)?;
    Ok(outline(wide, xor, mask))
}

/// Reads what stands behind the index of a message that brings a shape.
fn read_outline(cursor: &mut Cursor<'_>, wide: bool) -> Result<(u8, u8), Short>
    ensures { ReadsFields (outline_at wide) result cursor.old cursor.new }
{
    read_fixed(cursor, wide)?;
    read_shape(cursor, wide)
}

/// Reads the index of an entry that can be filled.
fn read_entry(cursor: &mut Cursor<'_>, cells: &[Option<(u8, u8)>]) -> Result<u16, Cause>
    ensures { ReadsCaused (index_at (is_entry cells.now)) result cursor.old cursor.new }
{
    let at = cursor.at();
    let index = cursor.u16_le()?;
    if usize::from(index) >= cells.len() {
        cursor.go_to(at);
        return Err(Cause::Missing { index });
    }
    Ok(index)
}

/// Reads the index of an entry that can be shown.
fn read_filled(cursor: &mut Cursor<'_>, cells: &[Option<(u8, u8)>]) -> Result<u16, Cause>
    ensures { ReadsCaused (index_at (is_filled cells.now)) result cursor.old cursor.new }
{
    let at = cursor.at();
    let index = cursor.u16_le()?;
    if held(cells, index).is_none() {
        cursor.go_to(at);
        return Err(Cause::Missing { index });
    }
    Ok(index)
}

/// Reads what stands behind the type of a message that brings a shape.
fn read_brought(
    cursor: &mut Cursor<'_>,
    wide: bool,
    cells: &[Option<(u8, u8)>],
) -> Result<Sent, Cause>
    ensures { ReadsCaused (sent_brought wide cells.now) result cursor.old cursor.new }
{
    let index = read_entry(cursor, cells)?;
    let outline = read_outline(cursor, wide)?;
    Ok(Sent::Brings { index, outline })
}

/// Reads what stands behind the type of a message, which begins at a place.
fn read_behind(
    cursor: &mut Cursor<'_>,
    wide: bool,
    cells: &[Option<(u8, u8)>],
) -> Result<Sent, Cause>
    ensures { ReadsCaused (sent_behind wide cells.now) result cursor.old cursor.new }
{
    let at = cursor.at();
    let kind = cursor.u32_le()?;
    if kind == BRINGS {
        return read_brought(cursor, wide, cells);
    }
    if kind == POINTS {
        let index = read_filled(cursor, cells)?;
        return Ok(Sent::Points { index });
    }
    cursor.go_to(at);
    Err(Cause::Broken)
}

/// Reads a message, which is all that is left.
fn read_message(
    cursor: &mut Cursor<'_>,
    wide: bool,
    cells: &[Option<(u8, u8)>],
) -> Result<Sent, Cause>
    ensures { ReadsCaused (sent_at wide cells.now) result cursor.old cursor.new }
{
    let sent = read_behind(cursor, wide, cells)?;
    cursor.end()?;
    Ok(sent)
}

/// Reads compressed type and compressed length.
fn read_compression<'a>(cursor: &mut Cursor<'a>) -> Result<&'a [u8], Short>
    ensures { ReadsFieldsAs (λ part. part.now) compression_at result cursor.old cursor.new }
{
    cursor.expect(&UNCOMPRESSED)?;
    cursor.bytes(SIZE)
}

/// Reads what stands behind the kind of a pointer packet.
pub fn read_sent(
    cursor: &mut Cursor<'_>,
    wide: bool,
    cells: &[Option<(u8, u8)>],
) -> Result<Sent, Cause>
    ensures { ReadsCaused (sent_in wide cells.now) result cursor.old cursor.new }
{
    read_compression(cursor)?;
    read_message(cursor, wide, cells)
}
