//! Reading an entry of a record, as `write` writes it: its length, and the body of so many bytes. The body is looked at once all of it
//! is there.

ghost use Rattle.std.specs.Prelude.{◌≡◌, IfOk};
ghost use Rattle.wire_num.specs.Cursor.{ReadsField, ReadsFields};
ghost use Rattle.wire_num.specs.FieldValue.{passing_at};
ghost use Rattle.record_rules.specs.Reading.{byte_at, is_kind, role_numbered, role_at, zero_at, zeros_at, key_at, mouse_at, event_by, event_at, clip_by, clip_at, join_at, leave_at, give_at, input_at, draw_at, entry_by, entry_at, body_at, framed_at};
ghost use Rattle.record_file.specs.Reads.{ReadsOr, ReadsFront, FindsBody, IsColored};

use crate::Entry;
use crate::read_fault::{BodyFault, ReadFault};
use crate::read_field::{read_byte_up_to, read_rect, read_short_up_to};
use crate::read_shape::read_shape;
use crate::write::{DRAW, GIVE, INPUT, JOIN, LEAVE};
use draw_ops::Drawing;
use input_pdu::Event;
use px_core::Rect;
use session_rules::Role;
use std::alloc::Global;
use wire_num::{Cursor, Short};

/// The greatest number of a role.
pub const LAST_ROLE: u8 = 2;

/// The tags of events.
const SYNC: u8 = 0;

const SCAN: u8 = 1;

const UNICODE: u8 = 2;

const MOUSE: u8 = 3;

const MOUSE_X: u8 = 4;

/// The role of a number.
pub fn role_numbered(number: u8) -> Role
    ensures { result ≡ role_numbered number }
{
    match number {
        0 => Role::Owner,
        1 => Role::Control,
        _ => Role::View,
    }
}

/// Reads a role.
#[tactic(auto, unfolding(record_rules::specs::Reading::role_at))]
fn read_role(cursor: &mut Cursor<'_>) -> Result<Role, Short>
    ensures { ReadsFields role_at result cursor.old cursor.new }
{
    Ok(role_numbered(read_byte_up_to(cursor, LAST_ROLE)?))
}

/// Reads a zero of two bytes.
fn read_zero(cursor: &mut Cursor<'_>) -> Result<u16, Short>
    ensures { ReadsField zero_at result cursor.old cursor.new }
{
    read_short_up_to(cursor, 0)
}

/// Reads three zeros.
#[tactic(auto, unfolding(record_rules::specs::Reading::zeros_at))]
fn read_zeros(cursor: &mut Cursor<'_>) -> Result<u16, Short>
    ensures { ReadsFields zeros_at result cursor.old cursor.new }
{
    read_zero(cursor)?;
    read_zero(cursor)?;
    read_zero(cursor)
}

/// Reads a key: its code, whether it was released, and a zero.
#[tactic(auto, unfolding(record_rules::specs::Reading::key_at))]
fn read_key(cursor: &mut Cursor<'_>) -> Result<(u16, bool), Short>
    ensures { ReadsFields key_at result cursor.old cursor.new }
{
    let code = cursor.u16_le()?;
    let up = read_short_up_to(cursor, 1)?;
    read_zero(cursor)?;
    Ok((code, up == 1))
}

/// Reads the mouse: flags, x, y.
#[tactic(auto, unfolding(record_rules::specs::Reading::mouse_at))]
fn read_mouse(cursor: &mut Cursor<'_>) -> Result<Event, Short>
    ensures { ReadsFields mouse_at result cursor.old cursor.new }
{
    let flags = cursor.u16_le()?;
    let x = cursor.u16_le()?;
    let y = cursor.u16_le()?;
    Ok(Event::Mouse { flags, x, y })
}

/// Reads the three numbers of the event of a tag.
#[tactic(auto, unfolding(record_rules::specs::Reading::event_by))]
fn read_event_by(tag: u8, cursor: &mut Cursor<'_>) -> Result<Event, Short>
    ensures { ReadsFields (event_by tag) result cursor.old cursor.new }
{
    match tag {
        SYNC => {
            read_zeros(cursor)?;
            Ok(Event::Sync)
        }
        SCAN => {
            let (code, up) = read_key(cursor)?;
            Ok(Event::Scan { code, up })
        }
        UNICODE => {
            let (code, up) = read_key(cursor)?;
            Ok(Event::Unicode { code, up })
        }
        MOUSE => read_mouse(cursor),
        _ => {
            read_zeros(cursor)?;
            Ok(Event::MouseX)
        }
    }
}

/// Reads an event: its tag and three numbers.
#[tactic(auto, unfolding(record_rules::specs::Reading::event_at))]
fn read_event(cursor: &mut Cursor<'_>) -> Result<Event, Short>
    ensures { ReadsFields event_at result cursor.old cursor.new }
{
    let tag = read_byte_up_to(cursor, MOUSE_X)?;
    read_event_by(tag, cursor)
}

/// Reads the clip behind its flag.
#[tactic(auto, unfolding(record_rules::specs::Reading::clip_by))]
fn read_clip_by(flag: u8, cursor: &mut Cursor<'_>) -> Result<Option<Rect>, Short>
    ensures { ReadsFields (clip_by flag) result cursor.old cursor.new }
{
    if flag == 0 {
        return Ok(None);
    }
    Ok(Some(read_rect(cursor)?))
}

/// Reads the flag of a clip, and behind a 1 the clip.
#[tactic(auto, unfolding(record_rules::specs::Reading::clip_at))]
fn read_clip(cursor: &mut Cursor<'_>) -> Result<Option<Rect>, Short>
    ensures { ReadsFields clip_at result cursor.old cursor.new }
{
    let flag = read_byte_up_to(cursor, 1)?;
    read_clip_by(flag, cursor)
}

/// Reads a Join: viewer, role.
#[tactic(auto, unfolding(record_rules::specs::Reading::join_at))]
fn read_join(cursor: &mut Cursor<'_>) -> Result<Entry, Short>
    ensures read { ReadsFields join_at result cursor.old cursor.new }
    ensures colors { IfOk result IsColored }
{
    let v = cursor.u32_le()?;
    let role = read_role(cursor)?;
    Ok(Entry::Join { v, role })
}

/// Reads a Leave: viewer.
#[tactic(auto, unfolding(record_rules::specs::Reading::leave_at))]
fn read_leave(cursor: &mut Cursor<'_>) -> Result<Entry, Short>
    ensures read { ReadsFields leave_at result cursor.old cursor.new }
    ensures colors { IfOk result IsColored }
{
    let v = cursor.u32_le()?;
    Ok(Entry::Leave { v })
}

/// Reads a Give: by whom, to whom.
#[tactic(auto, unfolding(record_rules::specs::Reading::give_at))]
fn read_give(cursor: &mut Cursor<'_>) -> Result<Entry, Short>
    ensures read { ReadsFields give_at result cursor.old cursor.new }
    ensures colors { IfOk result IsColored }
{
    let by = cursor.u32_le()?;
    let to = cursor.u32_le()?;
    Ok(Entry::Give { by, to })
}

/// Reads an Input: by whom, event.
#[tactic(auto, unfolding(record_rules::specs::Reading::input_at))]
fn read_input(cursor: &mut Cursor<'_>) -> Result<Entry, Short>
    ensures read { ReadsFields input_at result cursor.old cursor.new }
    ensures colors { IfOk result IsColored }
{
    let by = cursor.u32_le()?;
    let event = read_event(cursor)?;
    Ok(Entry::Input { by, event })
}

/// Reads a Draw: by whom, clip, shape.
#[tactic(auto, unfolding(record_rules::specs::Reading::draw_at))]
fn read_draw(alloc: Global, cursor: &mut Cursor<'_>) -> Result<Entry, BodyFault>
    ensures read { ReadsOr (λ e. e) draw_at result cursor.old cursor.new }
    ensures colors { IfOk result IsColored }
{
    let by = cursor.u32_le()?;
    let clip = read_clip(cursor)?;
    let shape = read_shape(alloc, cursor)?;
    Ok(Entry::Draw {
        by,
        d: Drawing { shape, clip },
    })
}

/// Reads a kind, 1 to 5.
#[tactic(auto, unfolding(wire_num::specs::FieldValue::passing_at))]
fn read_kind(cursor: &mut Cursor<'_>) -> Result<u8, Short>
    ensures { ReadsField (passing_at is_kind byte_at) result cursor.old cursor.new }
{
    let at = cursor.at();
    let kind = cursor.u8()?;
    if u32::from(kind) < JOIN || u32::from(kind) > DRAW {
        cursor.go_to(at);
        return Err(Short { at });
    }
    Ok(kind)
}

/// Reads the fields of an entry of a kind.
#[tactic(auto, unfolding(record_rules::specs::Reading::entry_by))]
fn read_entry_by(alloc: Global, kind: u8, cursor: &mut Cursor<'_>) -> Result<Entry, BodyFault>
    ensures read { ReadsOr (λ e. e) (entry_by kind) result cursor.old cursor.new }
    ensures colors { IfOk result IsColored }
{
    match u32::from(kind) {
        JOIN => Ok(read_join(cursor)?),
        LEAVE => Ok(read_leave(cursor)?),
        GIVE => Ok(read_give(cursor)?),
        INPUT => Ok(read_input(cursor)?),
        _ => read_draw(alloc, cursor),
    }
}

/// Reads an entry: its kind, and the fields of the kind.
#[tactic(auto, unfolding(record_rules::specs::Reading::entry_at))]
fn read_fields(alloc: Global, cursor: &mut Cursor<'_>) -> Result<Entry, BodyFault>
    ensures read { ReadsOr (λ e. e) entry_at result cursor.old cursor.new }
    ensures colors { IfOk result IsColored }
{
    let kind = read_kind(cursor)?;
    read_entry_by(alloc, kind, cursor)
}

/// Reads the entry that fills a body; what is left over is refused at its first byte.
fn read_body(alloc: Global, body: &mut Cursor<'_>) -> Result<Entry, BodyFault>
    ensures read { ReadsOr (λ e. e) body_at result body.old body.new }
    ensures colors { IfOk result IsColored }
{
    let entry = read_fields(alloc, body)?;
    body.end()?;
    Ok(entry)
}

/// Finds the body behind its length, all of which is there, and goes behind it. An `Err` leaves the cursor in it.
#[tactic(auto, unfolding(record_rules::specs::Reading::counted_at))]
fn find_body<'a>(cursor: &mut Cursor<'a>) -> Result<Cursor<'a>, Short>
    ensures { FindsBody result cursor.old cursor.new }
{
    let count = cursor.u16_le()?;
    cursor.within(usize::from(count))
}

/// Reads the entry at the front, behind its length, and how many bytes both have. Where not all its bytes are there, nothing of it is
/// looked at, and `at` of a `Missing` is 0.
#[tactic(auto, unfolding(record_rules::specs::Reading::framed_at))]
pub fn read_framed(alloc: Global, bytes: &[u8]) -> Result<(Entry, usize), ReadFault>
    ensures read { ReadsFront (λ e. e) framed_at result bytes.now }
    ensures colors { IfOk result (λ found. IsColored found.0) }
{
    let mut cursor = Cursor::new(bytes);
    let Ok(mut body) = find_body(&mut cursor) else {
        return Err(ReadFault::Missing { at: 0 });
    };
    match read_body(alloc, &mut body) {
        Ok(entry) => Ok((entry, cursor.at())),
        Err(BodyFault::Broken { .. }) => Err(ReadFault::Broken { at: body.at() }),
        Err(BodyFault::OutOfMemory) => Err(ReadFault::OutOfMemory),
    }
}
