//! Writing a record: its head, and each entry behind its length.
//!
//! | size | field | value |
//! |---|---|---|
//! | 6 | mark | `52 44 50 4A 31 0A` |
//! | 2 | width | of the session, in pixels |
//! | 2 | height | |
//! | 1 | rows | how many follow |
//! | 1 | role | of each row: 0 owner, 1 control, 2 view |
//! | 1 | length | of its name, in bytes |
//! | | name | |
//!
//! | size | field of an entry | value |
//! |---|---|---|
//! | 2 | length | how many bytes follow |
//! | 1 | kind | 1 Join, 2 Leave, 3 Give, 4 Input, 5 Draw |
//! | 4 | viewer | who joins, leaves, gives or makes the change |
//! | 1 | role | of a Join |
//! | 4 | viewer | to whom a Give gives |
//! | 1 | tag | of an Input: 0 Sync, 1 Scan, 2 Unicode, 3 Mouse, 4 MouseX |
//! | 3 times 2 | numbers | of an Input: code, release, 0; or flags, x, y; or zeros |
//! | 1 | clip | of a Draw: 0, or 1 and a rectangle |
//! | | shape | of a Draw |

ghost use Rattle.std.specs.Prelude.{◌≡◌, ◌++◌, ◌≤◌, ◌∷◌, [], length, OnOk, OnErr, IsTrue};
ghost use Rattle.byteorder.specs.Endian.{little_bytes};
ghost use Rattle.wire_num.specs.Written.{AppendsFront};
ghost use Rattle.draw_ops.specs.Ranges.{is_u16};
ghost use Rattle.session_rules.specs.declared.entry.Entry.TheVariants.{Draw};
ghost use Rattle.session_core.specs.Heads.{rows_of};
ghost use Rattle.record_rules.specs.Fields.{fields_bytes, are_in_place};
ghost use Rattle.record_rules.specs.Tables.{role_number, row_bytes, rows_bytes, head_bytes, event_row, event_fields, entry_fields, entry_rest, body_bytes, entry_bytes, are_named, is_recordable, is_recordable_head};
ghost use Rattle.script_rules.specs.Script.{is_name};

use crate::drawing::{drawing_length, put_drawing_fields, put_shape_rest};
use crate::gathered::Gathered;
use crate::put::{put_bytes, put_fields};
use crate::{Entry, Invite, OutOfMemory};
use draw_ops::Drawing;
use input_pdu::Event;
use px_core::Size;
use record_rules::Field;
use session_rules::Role;

/// The kinds of entries.
pub const JOIN: u32 = 1;

pub const LEAVE: u32 = 2;

pub const GIVE: u32 = 3;

pub const INPUT: u32 = 4;

pub const DRAW: u32 = 5;

/// How many bytes the kind and the viewer have.
const BY_SIZE: usize = 5;

/// How many bytes a viewer's number has.
const VIEWER_SIZE: usize = 4;

/// How many bytes the tag and the numbers of an event have.
const EVENT_SIZE: usize = 7;

/// The number of a role.
fn role_number(role: Role) -> u32
    ensures { result ≡ role_number role }
{
    match role {
        Role::Owner => 0,
        Role::Control => 1,
        Role::View => 2,
    }
}

/// Writes a row at the end. An `Err` leaves a front of it there.
fn put_row(out: &mut Vec<u8>, row: &Invite) -> Result<(), OutOfMemory>
    requires { IsTrue (is_name row.now.name) }
    ensures ok { OnOk result (out.new.items ≡ out.old.items ++ row_bytes (record { name = row.now.name; role = row.now.role })) }
    ensures memory { OnErr result (AppendsFront out.old.items (row_bytes (record { name = row.now.name; role = row.now.role })) out.new.items) }
{
    let name = row.name.bytes();
    let mut fields = Gathered::new();
    put_fields(
        &mut fields,
        &[
            Field::Byte(role_number(row.role)),
            Field::Byte(name.len() as u32),
        ],
    );
    put_bytes(out, fields.bytes())?;
    put_bytes(out, name)
}

/// Writes rows at the end. An `Err` leaves a front of them there.
fn put_rows(out: &mut Vec<u8>, rows: &[Invite]) -> Result<(), OutOfMemory>
    requires { IsTrue (are_named (rows_of rows.now)) }
    ensures ok { OnOk result (out.new.items ≡ out.old.items ++ rows_bytes (rows_of rows.now)) }
    ensures memory { OnErr result (AppendsFront out.old.items (rows_bytes (rows_of rows.now)) out.new.items) }
{
    for row in rows {
        put_row(out, row)?;
    }
    Ok(())
}

/// Writes the head of a record at the end: the mark, the session's size and its rows. An `Err` leaves a front of it there.
pub fn write_head(out: &mut Vec<u8>, size: Size, rows: &[Invite]) -> Result<(), OutOfMemory>
    requires { IsTrue (is_recordable_head (record { size = size; rows = rows_of rows.now })) }
    ensures ok { OnOk result (out.new.items ≡ out.old.items ++ head_bytes (record { size = size; rows = rows_of rows.now })) }
    ensures memory { OnErr result (AppendsFront out.old.items (head_bytes (record { size = size; rows = rows_of rows.now })) out.new.items) }
{
    let mut fields = Gathered::new();
    put_fields(
        &mut fields,
        &[
            Field::Byte(0x52),
            Field::Byte(0x44),
            Field::Byte(0x50),
            Field::Byte(0x4A),
            Field::Byte(0x31),
            Field::Byte(0x0A),
            Field::Short(size.w),
            Field::Short(size.h),
            Field::Byte(rows.len() as u32),
        ],
    );
    put_bytes(out, fields.bytes())?;
    put_rows(out, rows)
}

/// The fields of an event: its tag and three numbers.
fn event_numbers(event: Event) -> (u32, u32, u32, u32)
    ensures { event_row result.0 result.1 result.2 result.3 ≡ event_fields event }
{
    match event {
        Event::Sync => (0, 0, 0, 0),
        Event::Scan { code, up } => (1, u32::from(code), u32::from(up), 0),
        Event::Unicode { code, up } => (2, u32::from(code), u32::from(up), 0),
        Event::Mouse { flags, x, y } => (3, u32::from(flags), u32::from(x), u32::from(y)),
        Event::MouseX => (4, 0, 0, 0),
    }
}

/// Puts the fields of a Draw behind the others, up to what stands behind them.
fn put_draw_fields(out: &mut Gathered, by: u32, d: &Drawing)
    requires place { IsTrue (are_in_place (entry_fields (Draw by d.now))) }
    requires room { length out.old ≤ 4 }
    ensures { out.new ≡ out.old ++ fields_bytes (entry_fields (Draw by d.now)) }
{
    put_fields(out, &[Field::Byte(DRAW), Field::Long(by)]);
    put_drawing_fields(out, d);
}

/// Puts the fields of an entry behind the others, up to what stands behind them.
fn put_entry_fields(out: &mut Gathered, e: &Entry)
    requires place { IsTrue (are_in_place (entry_fields e.now)) }
    requires room { length out.old ≤ 4 }
    ensures { out.new ≡ out.old ++ fields_bytes (entry_fields e.now) }
{
    match e {
        Entry::Join { v, role } => put_fields(
            out,
            &[
                Field::Byte(JOIN),
                Field::Long(*v),
                Field::Byte(role_number(*role)),
            ],
        ),
        Entry::Leave { v } => put_fields(out, &[Field::Byte(LEAVE), Field::Long(*v)]),
        Entry::Give { by, to } => {
            put_fields(
                out,
                &[Field::Byte(GIVE), Field::Long(*by), Field::Long(*to)],
            )
        }
        Entry::Input { by, event } => {
            let (tag, a, b, c) = event_numbers(*event);
            put_fields(
                out,
                &[
                    Field::Byte(INPUT),
                    Field::Long(*by),
                    Field::Byte(tag),
                    Field::Short(a),
                    Field::Short(b),
                    Field::Short(c),
                ],
            )
        }
        Entry::Draw { by, d } => put_draw_fields(out, *by, d),
    }
}

/// Writes what stands behind an entry's fields at the end. An `Err` leaves a front of it there.
fn put_entry_rest(out: &mut Vec<u8>, e: &Entry) -> Result<(), OutOfMemory>
    ensures ok { OnOk result (out.new.items ≡ out.old.items ++ entry_rest e.now) }
    ensures memory { OnErr result (AppendsFront out.old.items (entry_rest e.now) out.new.items) }
{
    match e {
        Entry::Draw { d, .. } => put_shape_rest(out, &d.shape),
        Entry::Join { .. } | Entry::Leave { .. } | Entry::Give { .. } | Entry::Input { .. } => {
            put_bytes(out, &[])
        }
    }
}

/// How many bytes the body of an entry has.
fn body_length(e: &Entry) -> u16
    requires { IsTrue (is_u16 (length (body_bytes e.now))) }
    ensures { result ≡ length (body_bytes e.now) }
{
    let length = match e {
        Entry::Join { .. } => BY_SIZE + 1,
        Entry::Leave { .. } => BY_SIZE,
        Entry::Give { .. } => BY_SIZE + VIEWER_SIZE,
        Entry::Input { .. } => BY_SIZE + EVENT_SIZE,
        Entry::Draw { d, .. } => BY_SIZE + drawing_length(d),
    };
    length as u16
}

/// The length of an entry that a record can hold, and its fields, up to what stands behind them.
fn gather_fields(e: &Entry) -> Gathered
    requires { IsTrue (is_recordable e.now) }
    ensures { result ≡ little_bytes 2 (length (body_bytes e.now)) ++ fields_bytes (entry_fields e.now) }
{
    let mut fields = Gathered::new();
    let length = u32::from(body_length(e));
    put_fields(&mut fields, &[Field::Short(length)]);
    put_entry_fields(&mut fields, e);
    fields
}

/// Writes an entry that a record can hold at the end, behind its length. An `Err` leaves a front of it there.
pub fn write_entry(out: &mut Vec<u8>, e: &Entry) -> Result<(), OutOfMemory>
    requires { IsTrue (is_recordable e.now) }
    ensures ok { OnOk result (out.new.items ≡ out.old.items ++ entry_bytes e.now) }
    ensures memory { OnErr result (AppendsFront out.old.items (entry_bytes e.now) out.new.items) }
{
    let fields = gather_fields(e);
    put_bytes(out, fields.bytes())?;
    put_entry_rest(out, e)
}
