//! Demand Active in a Send Data Indication ([MS-RDPBCGR] 2.2.1.13.1).
//!
//! | size | field | value |
//! |---|---|---|
//! | 62 | up to desktopWidth: the share control header, the General set, and of the Bitmap set the viewer's depth | each as it is |
//! | 2 | desktopWidth | 4 to 2,048, a multiple of four |
//! | 2 | desktopHeight | 1 to 2,048 |
//! | 2 | pad2octets | `00 00` |
//! | 2 | desktopResizeFlag | any |
//! | 208 | the rest of the Bitmap set, the sets behind it, and sessionId | each as it is |

ghost use Rattle.std.specs.Prelude.{◌≡◌, [], ◌∷◌};
ghost use Rattle.px_core.specs.Depth.{bits_in};
ghost use Rattle.wire_num.specs.Cursor.{ReadsField, ReadsRows, ReadsFieldsAs};
ghost use Rattle.wire_num.specs.Number.{little_at};
ghost use Rattle.wire_num.specs.FieldValue.{passing_at};
ghost use Rattle.wire_num.specs.Layout.{fields_at};
ghost use Rattle.viewer_rules.specs.HostAnswers.{indication, is_width, is_height, later_rows, later_answer, behind_height, height_and_later};
ghost use Rattle.viewer_rules.specs.HostAnswers.{width_and_later, demand_rows, demand_answer};
ghost use Rattle.viewer_wire.specs.Reads.{ReadsPacket, sides};

use crate::headers::read_indication;
use crate::rows::expect_each;
use px_core::{Depth, Size, bits_in};
use wire_num::{Cursor, Short};

/// The General set.
const GENERAL: [u8; 24] = [
    1, 0, 24, 0, 1, 0, 3, 0, 0, 2, 0, 0, 0, 0, 1, 4, 0, 0, 0, 0, 0, 0, 1, 1,
];

/// The Bitmap set from bitmapCompressionFlag on; the Order set; Pointer; Input; Virtual Channel; Share; Font; sessionId.
const LATER_SETS: [&[u8]; 14] = [
    &[1, 0, 0, 0, 1, 0, 0, 0],
    &[3, 0, 88, 0],
    &[0; 20],
    &[1, 0, 20, 0, 0, 0, 1, 0, 0, 0, 138, 0],
    &[
        1, 1, 1, 1, 1, 0, 0, 0, 0, 0, 0, 1, 0, 0, 0, 0, 0, 0, 0, 0, 0, 0, 0, 0, 0, 0, 0, 1, 0, 0,
        0, 0,
    ],
    &[0, 0, 4, 0, 0, 0, 0, 0, 0, 132, 3, 0],
    &[0; 8],
    &[8, 0, 10, 0, 1, 0, 25, 0, 25, 0],
    &[13, 0, 88, 0, 61, 0, 0, 0],
    &[0; 80],
    &[20, 0, 8, 0, 0, 0, 0, 0],
    &[9, 0, 8, 0, 0xEA, 3, 0, 0],
    &[14, 0, 8, 0, 1, 0, 0, 0],
    &[0; 4],
];

/// The most pixels of a side.
const MOST: u16 = 2_048;

/// The least width, and what each is a multiple of.
const WIDTH_STEP: u16 = 4;

/// Reads a Demand Active of this depth, and gives the session's size.
pub(crate) fn read_demand(packet: &[u8], depth: Depth) -> Result<Size, Short>
    ensures { ReadsPacket sides (fields_at (indication (demand_answer (bits_in depth)))) result packet.now }
{
    let mut cursor = Cursor::new(packet);
    match read_demand_packet(&mut cursor, depth) {
        Ok(read) => Ok(read),
        Err(_) => Err(Short { at: cursor.at() }),
    }
}

fn read_demand_packet(cursor: &mut Cursor<'_>, depth: Depth) -> Result<Size, Short>
    ensures { ReadsFieldsAs sides (fields_at (indication (demand_answer (bits_in depth)))) result cursor.old cursor.new }
{
    match read_indication(cursor) {
        Ok(()) => read_demand_answer(cursor, depth),
        Err(short) => Err(short),
    }
}

fn read_demand_answer(cursor: &mut Cursor<'_>, depth: Depth) -> Result<Size, Short>
    ensures { ReadsFieldsAs sides (fields_at (demand_answer (bits_in depth))) result cursor.old cursor.new }
{
    match read_demand_rows(cursor, depth) {
        Ok(()) => read_sides(cursor),
        Err(short) => Err(short),
    }
}

/// totalLength; pduType; pduSource; shareId; lengthSourceDescriptor; lengthCombinedCapabilities; sourceDescriptor; numberCapabilities and pad2Octets; the
/// General
/// set; the Bitmap set up to desktopWidth.
fn read_demand_rows(cursor: &mut Cursor<'_>, depth: Depth) -> Result<(), Short>
    ensures { ReadsRows (demand_rows (bits_in depth)) result cursor.old cursor.new }
{
    let bitmap: [u8; 12] = [2, 0, 28, 0, bits_in(depth) as u8, 0, 1, 0, 1, 0, 1, 0];
    let rows: [&[u8]; 10] = [
        &[32, 1],
        &[17, 0],
        &[0xEA, 3],
        &[0xEA, 3, 1, 0],
        &[4, 0],
        &[10, 1],
        &[0x52, 0x44, 0x50, 0],
        &[8, 0, 0, 0],
        &GENERAL,
        &bitmap,
    ];
    expect_each(cursor, &rows)
}

/// desktopWidth, desktopHeight, and what follows them.
#[tactic(auto, unfolding(viewer_rules::specs::HostAnswers::width_and_later))]
fn read_sides(cursor: &mut Cursor<'_>) -> Result<Size, Short>
    ensures { ReadsFieldsAs sides (fields_at width_and_later) result cursor.old cursor.new }
{
    let w = read_width(cursor)?;
    let h = read_height_and_later(cursor)?;
    Ok(Size {
        w: w as u32,
        h: h as u32,
    })
}

/// desktopWidth.
#[tactic(auto, unfolding(wire_num::specs::FieldValue::passing_at))]
fn read_width(cursor: &mut Cursor<'_>) -> Result<u16, Short>
    ensures { ReadsField (passing_at is_width (little_at 2)) result cursor.old cursor.new }
{
    let at = cursor.at();
    let w = cursor.u16_le()?;
    if !is_width(w) {
        cursor.go_to(at);
        return Err(Short { at });
    }
    Ok(w)
}

fn is_width(w: u16) -> bool
    ensures { result ≡ is_width w }
{
    WIDTH_STEP <= w && w <= MOST && w % WIDTH_STEP == 0
}

/// desktopHeight, and what follows it.
#[tactic(auto, unfolding(viewer_rules::specs::HostAnswers::height_and_later))]
fn read_height_and_later(cursor: &mut Cursor<'_>) -> Result<u16, Short>
    ensures { ReadsFieldsAs (λ h. h ∷ []) (fields_at height_and_later) result cursor.old cursor.new }
{
    let h = read_height(cursor)?;
    read_behind_height(cursor)?;
    Ok(h)
}

/// desktopHeight.
#[tactic(auto, unfolding(wire_num::specs::FieldValue::passing_at))]
fn read_height(cursor: &mut Cursor<'_>) -> Result<u16, Short>
    ensures { ReadsField (passing_at is_height (little_at 2)) result cursor.old cursor.new }
{
    let at = cursor.at();
    let h = cursor.u16_le()?;
    if !is_height(h) {
        cursor.go_to(at);
        return Err(Short { at });
    }
    Ok(h)
}

fn is_height(h: u16) -> bool
    ensures { result ≡ is_height h }
{
    1 <= h && h <= MOST
}

/// pad2octets; desktopResizeFlag; the rest.
#[tactic(auto, unfolding(viewer_rules::specs::HostAnswers::behind_height))]
fn read_behind_height(cursor: &mut Cursor<'_>) -> Result<(), Short>
    ensures { ReadsFieldsAs (λ _. []) (fields_at behind_height) result cursor.old cursor.new }
{
    cursor.expect(&[0, 0])?;
    cursor.bytes(2)?; // desktopResizeFlag
    read_later(cursor)
}

fn read_later(cursor: &mut Cursor<'_>) -> Result<(), Short>
    ensures { ReadsFieldsAs (λ _. []) (fields_at later_answer) result cursor.old cursor.new }
{
    match read_later_rows(cursor) {
        Ok(()) => cursor.end(),
        Err(short) => Err(short),
    }
}

fn read_later_rows(cursor: &mut Cursor<'_>) -> Result<(), Short>
    ensures { ReadsRows later_rows result cursor.old cursor.new }
{
    expect_each(cursor, &LATER_SETS)
}
