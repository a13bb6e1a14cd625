//! Reading the head of a record, as `write` writes it. Each of its fields is looked at once its own bytes are there.

ghost use Rattle.std.specs.Prelude.{◌≡◌, ◌≤◌, [], IfOk, OnOk, OnErr, length};
ghost use Rattle.wire_num.specs.FieldValue.{is_at_most};
ghost use Rattle.wire_num.specs.Field.{bytes_at};
ghost use Rattle.session_core.specs.Heads.{rows_of};
ghost use Rattle.script_rules.specs.Script.{row_limit};
ghost use Rattle.record_rules.specs.Reading.{byte_at, short_at, tested_at, last_role, is_record_mark, is_width, is_height, is_name_length, is_next_name, row_at, rows_at, head_at};
ghost use Rattle.record_file.specs.Reads.{row_of, head_of, ReadsOnce, ReadsFront};

use crate::Invite;
use crate::name::{NAME_LIMIT, is_name};
use crate::read_entry::{LAST_ROLE, role_numbered};
use crate::read_fault::ReadFault;
use info_lic::Name;
use line_text::is_same_word;
use px_core::{Size, is_session_size};
use session_core::is_new_name;
use std::alloc::Global;
use wire_num::Cursor;

/// What every record begins with.
const MARK: [u8; 6] = [0x52, 0x44, 0x50, 0x4A, 0x31, 0x0A];

/// The most rows (profile).
const ROW_LIMIT: u8 = 64;

/// A side of a session's size that goes with each height, and one that goes with each width.
const LEAST_WIDTH: u32 = 4;

const LEAST_HEIGHT: u32 = 1;

/// What a record has at its front: a session's size in pixels, and its rows.
#[derive(Drop)]
pub struct RecordHead {
    pub size: Size,
    pub rows: Vec<Invite>,
}

/// Reads the mark.
fn read_mark<'a>(cursor: &mut Cursor<'a>) -> Result<&'a [u8], ReadFault>
    ensures { ReadsOnce (λ mark. mark.now) (tested_at is_record_mark (bytes_at 6)) result cursor.old cursor.new }
{
    let at = cursor.at();
    let mark = cursor.bytes(MARK.len())?;
    if !is_same_word(&MARK, mark) {
        cursor.go_to(at);
        return Err(ReadFault::Broken { at });
    }
    Ok(mark)
}

/// Reads a session's width in pixels.
fn read_width(cursor: &mut Cursor<'_>) -> Result<u16, ReadFault>
    ensures { ReadsOnce (λ w. w) (tested_at is_width short_at) result cursor.old cursor.new }
{
    let at = cursor.at();
    let w = cursor.u16_le()?;
    if !is_session_size(u32::from(w), LEAST_HEIGHT) {
        cursor.go_to(at);
        return Err(ReadFault::Broken { at });
    }
    Ok(w)
}

/// Reads a session's height in pixels.
fn read_height(cursor: &mut Cursor<'_>) -> Result<u16, ReadFault>
    ensures { ReadsOnce (λ h. h) (tested_at is_height short_at) result cursor.old cursor.new }
{
    let at = cursor.at();
    let h = cursor.u16_le()?;
    if !is_session_size(LEAST_WIDTH, u32::from(h)) {
        cursor.go_to(at);
        return Err(ReadFault::Broken { at });
    }
    Ok(h)
}

/// Reads a byte that is at most `most`.
fn read_most(cursor: &mut Cursor<'_>, most: u8) -> Result<u8, ReadFault>
    ensures { ReadsOnce (λ n. n) (tested_at (is_at_most most) byte_at) result cursor.old cursor.new }
{
    let at = cursor.at();
    let n = cursor.u8()?;
    if n > most {
        cursor.go_to(at);
        return Err(ReadFault::Broken { at });
    }
    Ok(n)
}

/// Reads the length of a name, 1 to 64.
fn read_name_length(cursor: &mut Cursor<'_>) -> Result<u8, ReadFault>
    ensures { ReadsOnce (λ n. n) (tested_at is_name_length byte_at) result cursor.old cursor.new }
{
    let at = cursor.at();
    let n = cursor.u8()?;
    if n < 1 || n > NAME_LIMIT {
        cursor.go_to(at);
        return Err(ReadFault::Broken { at });
    }
    Ok(n)
}

/// Reads a name of so many bytes that keeps the rule of names, and that no earlier row has.
fn read_name(rows: &[Invite], n: u8, cursor: &mut Cursor<'_>) -> Result<Name, ReadFault>
    ensures { ReadsOnce (λ name. name) (tested_at (is_next_name (rows_of rows.now)) (bytes_at n)) result cursor.old cursor.new }
{
    let at = cursor.at();
    let name = cursor.bytes(usize::from(n))?;
    if !is_name(name) || !is_new_name(name, rows) {
        cursor.go_to(at);
        return Err(ReadFault::Broken { at });
    }
    Ok(Name::new(name))
}

/// Reads a row behind earlier ones: role, the length of its name, name.
#[tactic(auto, unfolding(record_rules::specs::Reading::row_at))]
fn read_row(rows: &[Invite], cursor: &mut Cursor<'_>) -> Result<Invite, ReadFault>
    ensures { ReadsOnce row_of (row_at (rows_of rows.now)) result cursor.old cursor.new }
{
    let role = role_numbered(read_most(cursor, LAST_ROLE)?);
    let n = read_name_length(cursor)?;
    let name = read_name(rows, n, cursor)?;
    Ok(Invite { name, role })
}

/// Reads so many rows.
fn read_rows(alloc: Global, count: u8, cursor: &mut Cursor<'_>) -> Result<Vec<Invite>, ReadFault>
    ensures { ReadsOnce (λ rows. rows_of rows.items) (rows_at count []) result cursor.old cursor.new }
{
    let mut rows = Vec::new(alloc);
    for _ in 0..count {
        let row = read_row(&rows, cursor)?;
        rows.push(row)?;
    }
    Ok(rows)
}

/// Reads the fields of a head.
#[tactic(auto, unfolding(record_rules::specs::Reading::head_at))]
fn read_fields(alloc: Global, cursor: &mut Cursor<'_>) -> Result<RecordHead, ReadFault>
    ensures { ReadsOnce head_of head_at result cursor.old cursor.new }
{
    read_mark(cursor)?;
    let w = u32::from(read_width(cursor)?);
    let h = u32::from(read_height(cursor)?);
    let count = read_most(cursor, ROW_LIMIT)?;
    let rows = read_rows(alloc, count, cursor)?;
    Ok(RecordHead {
        size: Size { w, h },
        rows,
    })
}

/// Reads the head at the front of these bytes, and how many bytes it has. `at` of an `Err` is the place of the first field that isn't all
/// there, or that breaks its rule.
pub fn read_head(alloc: Global, bytes: &[u8]) -> Result<(RecordHead, usize), ReadFault>
    ensures { ReadsFront head_of head_at result bytes.now }
{
    let mut cursor = Cursor::new(bytes);
    match read_fields(alloc, &mut cursor) {
        Ok(head) => Ok((head, cursor.at())),
        Err(ReadFault::Missing { .. }) => Err(ReadFault::Missing { at: cursor.at() }),
        Err(ReadFault::Broken { .. }) => Err(ReadFault::Broken { at: cursor.at() }),
        Err(ReadFault::OutOfMemory) => Err(ReadFault::OutOfMemory),
    }
}
