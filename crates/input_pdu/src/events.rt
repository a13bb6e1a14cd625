//! The body of a slow-path input PDU ([MS-RDPBCGR] 2.2.8.1.1.3.1, TS_INPUT_PDU_DATA, behind the share data header).
//!
//! | offset | size | field | value |
//! |---|---|---|---|
//! | 0 | 2 | numEvents | |
//! | 2 | 2 | pad2Octets | not read |
//! | 4 | 12 for each event | slowPathInputEvents | |
//! | | | | any bytes to the end, not read |

ghost use Rattle.std.specs.Prelude.{◌≡◌, IsOk, OnOk, OnErr, []};
ghost use Rattle.wire_num.specs.Cursor.{ReadsFieldsAs, ReadsFields, rest};
ghost use Rattle.input_pdu.specs.Events.{event_count_at, events_at, passed_events_at, FindsEvents, Reads, Pushes};

use crate::Event;
use crate::input_fault::InputFault;
use crate::one_event::read_event;
use wire_num::{Cursor, Short};

/// The bytes of pad2Octets.
const PAD_SIZE: usize = 2;

/// The bytes of an event.
const EVENT_SIZE: usize = 12;

/// Reads the events of a body and appends them, in their order. Events of other types are skipped, and bytes behind the counted
/// events are dropped. A refusal leaves `out` as it was; want of memory comes only where all events are there, and leaves a
/// front of them behind what it held.
pub fn read_events(body: &[u8], out: &mut Vec<Event>) -> Result<(), InputFault>
    ensures { Reads body.now result out.old.items out.new.items }
{
    let mut cursor = Cursor::new(body);
    match find_events(&mut cursor) {
        Ok(count) => push_events(count, &mut cursor, out),
        Err(_) => Err(InputFault::BadInput { at: cursor.at() }),
    }
}

/// Reads the number of events, all of which are there, and goes to the first one. Only where they aren't, it goes over them, to the
/// first field that is missing.
fn find_events(cursor: &mut Cursor<'_>) -> Result<u16, Short>
    ensures { FindsEvents result cursor.old cursor.new }
{
    let count = read_count(cursor)?;
    if usize::from(count) * EVENT_SIZE <= cursor.left() {
        return Ok(count);
    }
    let first = cursor.at();
    check_events(count, cursor)?;
    cursor.go_to(first);
    Ok(count)
}

/// Reads the number of events, and goes to the first one.
#[tactic(auto, unfolding(crate::specs::Events::event_count_at))]
fn read_count(cursor: &mut Cursor<'_>) -> Result<u16, Short>
    ensures { ReadsFields event_count_at result cursor.old cursor.new }
{
    let count = cursor.u16_le()?;
    cursor.bytes(PAD_SIZE)?;
    Ok(count)
}

/// Goes past so many events.
fn check_events(count: u16, cursor: &mut Cursor<'_>) -> Result<(), Short>
    ensures { ReadsFieldsAs (λ _. []) (passed_events_at count) result cursor.old cursor.new }
{
    for _ in 0..count {
        read_event(cursor)?;
    }
    Ok(())
}

/// Reads so many events, all of which are there, and appends them.
fn push_events(count: u16, cursor: &mut Cursor<'_>, out: &mut Vec<Event>) -> Result<(), InputFault>
    requires { IsOk (events_at count (rest cursor.old)) }
    ensures { Pushes (events_at count (rest cursor.old)) result out.old.items out.new.items }
{
    for _ in 0..count {
        if let Some(event) = read_event(cursor)? {
            out.push(event)?;
        }
    }
    Ok(())
}
