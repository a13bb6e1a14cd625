//! One input event ([MS-RDPBCGR] 2.2.8.1.1.3.1.1).
//!
//! | offset | size | field | value |
//! |---|---|---|---|
//! | 0 | 4 | eventTime | not read |
//! | 4 | 2 | messageType | `00 00` Synchronize, `04 00` Scancode, `05 00` Unicode, `01 80` Mouse, `02 80` Extended Mouse; others are skipped |
//! | 6 | 6 | slowPathInputData | by the type |
//!
//! | offset | size | Scancode, Unicode | Mouse |
//! |---|---|---|---|
//! | 6 | 2 | keyboardFlags: `8000` released | pointerFlags |
//! | 8 | 2 | keyCode, unicodeCode | xPos |
//! | 10 | 2 | pad | yPos |

ghost use Rattle.std.specs.Prelude.{◌≡◌, length};
ghost use Rattle.wire_num.specs.Cursor.{ReadsFields, rest};
ghost use Rattle.wire_num.specs.FieldValue.{has_bits};
ghost use Rattle.input_pdu.specs.Events.{event_of, event_at};

use crate::Event;
use byteorder::{ByteOrder, LittleEndian};
use wire_num::{Cursor, Short};

/// The types of the events that are told.
const INPUT_EVENT_SYNC: u16 = 0x0000;

const INPUT_EVENT_SCANCODE: u16 = 0x0004;

const INPUT_EVENT_UNICODE: u16 = 0x0005;

const INPUT_EVENT_MOUSE: u16 = 0x8001;

const INPUT_EVENT_MOUSEX: u16 = 0x8002;
/// The bit of keyboardFlags that says that the key was released.
const KBDFLAGS_RELEASE: u16 = 0x8000;
/// The bytes of eventTime.
const TIME_SIZE: usize = 4;
/// The bytes of slowPathInputData.
const DATA_SIZE: usize = 6;

/// Reads the next event; `None` where it is of another type.
#[tactic(auto, unfolding(crate::specs::Events::event_at))]
pub fn read_event(cursor: &mut Cursor<'_>) -> Result<Option<Event>, Short>
    ensures { ReadsFields event_at result cursor.old cursor.new }
{
    cursor.bytes(TIME_SIZE)?;
    let kind = cursor.u16_le()?;
    let data = cursor.bytes(DATA_SIZE)?;
    Ok(event_of(kind, data))
}

/// The event of this type with these data.
fn event_of(kind: u16, bytes: &[u8]) -> Option<Event>
    requires { length bytes.now ≡ 6 }
    ensures { result ≡ event_of kind bytes.now }
{
    let flags = LittleEndian::read_u16(bytes);
    let second = LittleEndian::read_u16(&bytes[2..]);
    let third = LittleEndian::read_u16(&bytes[4..]);
    match kind {
        INPUT_EVENT_SYNC => Some(Event::Sync),
        INPUT_EVENT_SCANCODE => Some(Event::Scan {
            code: second,
            up: is_release(flags),
        }),
        INPUT_EVENT_UNICODE => Some(Event::Unicode {
            code: second,
            up: is_release(flags),
        }),
        INPUT_EVENT_MOUSE => Some(Event::Mouse {
            flags,
            x: second,
            y: third,
        }),
        INPUT_EVENT_MOUSEX => Some(Event::MouseX),
        _ => None,
    }
}

/// Whether keyboardFlags say that the key was released.
fn is_release(flags: u16) -> bool
    ensures { result ≡ has_bits 32768 flags }
{
    flags & KBDFLAGS_RELEASE == KBDFLAGS_RELEASE
}
