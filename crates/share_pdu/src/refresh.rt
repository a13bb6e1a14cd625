//! Refresh Rect ([MS-RDPBCGR] 2.2.11.2), behind the share data header.
//!
//! | offset | size | field | value |
//! |---|---|---|---|
//! | 0 | 1 | numberOfAreas | |
//! | 1 | 3 | pad3Octets | not read |
//! | 4 | 8 for each area | areasToRefresh | left, top, right, bottom, two bytes each, inclusive |
//!
//! An area whose right or bottom is less than its left or top is skipped.

ghost use Rattle.std.specs.Prelude.{◌≡◌, ◌∷◌, [], slice_get, IsOk};
ghost use Rattle.wire_num.specs.Layout.{fields_at};
ghost use Rattle.wire_num.specs.Cursor.{ReadsFields, ReadsFieldsAs, rest};
ghost use Rattle.share_pdu.specs.Bodies.{refresh_header, inclusive_area, rect_between, area_at, areas_at, areas_of, areas_by, passed_areas_at};
ghost use Rattle.share_pdu.specs.Bodies.{passed_refresh_at, FindsAreas};

use px_core::Rect;
use wire_num::{Cursor, Short};

/// The bytes of pad3Octets, of an area, and of each of its four numbers.
const PAD_SIZE: usize = 3;

const AREA_SIZE: usize = 8;

const NUMBER_SIZE: usize = 2;

/// The k-th area of a Refresh Rect, counted from 0 over the areas that aren't skipped; none exactly where it has no such area. Bytes
/// that are no Refresh Rect have none.
pub fn read_areas(body: &[u8], k: usize) -> Option<Rect>
    ensures { result ≡ slice_get (areas_of body.now) k }
{
    let mut cursor = Cursor::new(body);
    match find_areas(&mut cursor) {
        Ok(count) => find_area(count, k, &mut cursor),
        Err(_) => None,
    }
}

/// Reads the number of areas, all of which are there, and goes to the first one. An `Err` leaves the cursor at the byte that isn't there,
/// which the error names.
pub fn find_areas(cursor: &mut Cursor<'_>) -> Result<u8, Short>
    ensures { FindsAreas result cursor.old cursor.new }
{
    let count = read_count(cursor)?;
    let first = cursor.at();
    skip_areas(count, cursor)?;
    cursor.go_to(first);
    Ok(count)
}

/// Goes past a Refresh Rect.
#[tactic(auto, unfolding(crate::specs::Bodies::passed_refresh_at))]
pub fn check_areas(cursor: &mut Cursor<'_>) -> Result<(), Short>
    ensures { ReadsFieldsAs (λ _. []) passed_refresh_at result cursor.old cursor.new }
{
    let count = read_count(cursor)?;
    skip_areas(count, cursor)
}

/// Reads the number of areas, and goes to the first one.
#[tactic(auto, unfolding(crate::specs::Bodies::refresh_header, wire_num::specs::FieldValue::passing_at))]
fn read_count(cursor: &mut Cursor<'_>) -> Result<u8, Short>
    ensures { ReadsFieldsAs (λ count. count ∷ []) (fields_at refresh_header) result cursor.old cursor.new }
{
    let count = cursor.u8()?;
    cursor.bytes(PAD_SIZE)?;
    Ok(count)
}

/// Goes past so many areas by their size: none is read. An `Err` leaves the cursor at the first number that isn't there.
fn skip_areas(count: u8, cursor: &mut Cursor<'_>) -> Result<(), Short>
    ensures { ReadsFieldsAs (λ _. []) (passed_areas_at count) result cursor.old cursor.new }
{
    let wanted = usize::from(count) * AREA_SIZE;
    let there = wanted.min(cursor.left() / NUMBER_SIZE * NUMBER_SIZE);
    cursor.bytes(there)?;
    if there < wanted {
        return Err(Short { at: cursor.at() });
    }
    Ok(())
}

/// The k-th of so many areas, all of which are there.
fn find_area(count: u8, k: usize, cursor: &mut Cursor<'_>) -> Option<Rect>
    requires { IsOk (areas_at count (rest cursor.old)) }
    ensures { result ≡ slice_get (areas_by (areas_at count (rest cursor.old))) k }
{
    let mut left = k;
    for _ in 0..count {
        let area = match read_area(cursor) {
            Ok(area) => area,
            Err(_) => return None,
        };
        if let Some(area) = area {
            if left == 0 {
                return Some(area);
            }
            left -= 1;
        }
    }
    None
}

/// Reads the next area; none where it is to be skipped.
#[tactic(auto, unfolding(crate::specs::Bodies::area_at, crate::specs::Bodies::inclusive_area, wire_num::specs::FieldValue::passing_at))]
pub fn read_area(cursor: &mut Cursor<'_>) -> Result<Option<Rect>, Short>
    ensures { ReadsFields area_at result cursor.old cursor.new }
{
    let left = cursor.u16_le()?;
    let top = cursor.u16_le()?;
    let right = cursor.u16_le()?;
    let bottom = cursor.u16_le()?;
    Ok(rect_between(left, top, right, bottom))
}

/// The area between these columns and rows, which are in it.
fn rect_between(left: u16, top: u16, right: u16, bottom: u16) -> Option<Rect>
    ensures { result ≡ rect_between left top right bottom }
{
    if right < left || bottom < top {
        return None;
    }
    Some(Rect {
        x: i32::from(left),
        y: i32::from(top),
        w: u32::from(right - left) + 1,
        h: u32::from(bottom - top) + 1,
    })
}
