//! The events of a client's fast-path packet ([MS-RDPBCGR] 2.2.8.1.2).
//!
//! | offset | size | field | value |
//! |---|---|---|---|
//! | 0 | 1 | fpInputHeader | action 0 in the low two bits, numEvents in the next four, flags in the top two, of which none is set |
//! | 1 | 1 or 2 | length | of the whole packet; not read again |
//! | | 1 | numEvents | only where the number in the first byte is 0 |
//! | | | fpInputEvents | |
//! | | | | any bytes to the end, not read |

ghost use Rattle.std.specs.Prelude.{◌≡◌, ◌<◌, IsOk, [], length};
ghost use Rattle.wire_num.specs.Cursor.{ReadsFieldsAs, ReadsFields, rest};
ghost use Rattle.fast_path.specs.Events.{first_at, length_at, count_at, event_count_at, events_at, passed_events_at, FindsEvents, PushesEvents, ReadsEvents};

use crate::one_event::read_event;
use input_pdu::{Event, InputFault};
use wire_num::{Cursor, Short};

/// The lowest of the flag bits of the first byte; none may be set.
const FIRST_FLAG: u8 = 0x40;

/// The place of the number of events in the first byte.
const NUMBER: u8 = 4;

/// The least first byte of a length of two bytes.
const LONG: u8 = 0x80;

/// Reads the events of a whole packet and appends them, in their order. Bytes behind the counted events are dropped. A refusal leaves
/// `out` as it was; want of memory comes only where all events are there, and leaves a front of them behind what it held.
pub fn read_fast(packet: &[u8], out: &mut Vec<Event>) -> Result<(), InputFault>
    ensures { ReadsEvents packet.now result out.old.items out.new.items }
{
    let mut cursor = Cursor::new(packet);
    match find_events(&mut cursor) {
        Ok(count) => push_events(count, &mut cursor, out),
        Err(_) => Err(InputFault::BadInput { at: cursor.at() }),
    }
}

/// Reads the number of events, all of which are there, and goes to the first one.
fn find_events(cursor: &mut Cursor<'_>) -> Result<u8, Short>
    ensures { FindsEvents result cursor.old cursor.new }
{
    let count = read_headers(cursor)?;
    let first = cursor.at();
    check_events(count, cursor)?;
    cursor.go_to(first);
    Ok(count)
}

/// Reads the number of events, and goes to the first one.
#[tactic(auto, unfolding(crate::specs::Events::event_count_at))]
fn read_headers(cursor: &mut Cursor<'_>) -> Result<u8, Short>
    ensures { ReadsFields event_count_at result cursor.old cursor.new }
{
    let first = read_first(cursor)?;
    pass_length(cursor)?;
    read_count(first / NUMBER, cursor)
}

/// Reads the first byte. A set flag is refused there.
#[tactic(auto, unfolding(crate::specs::Events::first_at))]
fn read_first(cursor: &mut Cursor<'_>) -> Result<u8, Short>
    ensures { ReadsFields first_at result cursor.old cursor.new }
{
    let at = cursor.at();
    let first = cursor.u8()?;
    if first >= FIRST_FLAG {
        cursor.go_to(at);
        return Err(Short { at });
    }
    Ok(first)
}

/// Goes past the packet's length.
#[tactic(auto, unfolding(crate::specs::Events::length_at))]
fn pass_length(cursor: &mut Cursor<'_>) -> Result<(), Short>
    ensures { ReadsFieldsAs (λ _. []) length_at result cursor.old cursor.new }
{
    let high = cursor.u8()?;
    if high >= LONG {
        cursor.u8()?;
    }
    Ok(())
}

/// The number of events, where the first byte has this one.
#[tactic(auto, unfolding(crate::specs::Events::count_at))]
fn read_count(number: u8, cursor: &mut Cursor<'_>) -> Result<u8, Short>
    ensures { ReadsFields (count_at number) result cursor.old cursor.new }
{
    if number == 0 { cursor.u8() } else { Ok(number) }
}

/// Goes past so many events.
fn check_events(count: u8, cursor: &mut Cursor<'_>) -> Result<(), Short>
    ensures { ReadsFieldsAs (λ _. []) (passed_events_at count) result cursor.old cursor.new }
{
    for _ in 0..count {
        read_event(cursor)?;
    }
    Ok(())
}

/// Reads so many events, all of which are there, and appends them.
fn push_events(count: u8, cursor: &mut Cursor<'_>, out: &mut Vec<Event>) -> Result<(), InputFault>
    requires { IsOk (events_at count (rest cursor.old)) }
    ensures { PushesEvents (events_at count (rest cursor.old)) result out.old.items out.new.items }
{
    for _ in 0..count {
        out.push(read_event(cursor)?)?;
    }
    Ok(())
}
