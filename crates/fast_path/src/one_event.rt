//! One event of a fast-path packet ([MS-RDPBCGR] 2.2.8.1.2.2).
//!
//! | offset | size | field | value |
//! |---|---|---|---|
//! | 0 | 1 | eventHeader | flags in the low five bits, `01` released; the code in the top three |
//! | 1 | | | 0 Scancode: keyCode (1); 1 Mouse and 2 Extended Mouse: pointerFlags (2), xPos (2), yPos (2); 3 Synchronize: nothing; 4 Unicode: unicodeCode (2) |

ghost use Rattle.std.specs.Prelude.{◌≡◌, ℕ};
ghost use Rattle.wire_num.specs.Cursor.{ReadsFields, rest};
ghost use Rattle.input_pdu.specs.declared.event.Event.TheVariants.{Mouse, MouseX};
ghost use Rattle.fast_path.specs.Events.{is_released, scan_at, unicode_at, mouse_at, event_at};

use input_pdu::Event;
use wire_num::{Cursor, Short};

/// The codes of the events.
const SCANCODE: u8 = 0;

const MOUSE: u8 = 1;

const MOUSEX: u8 = 2;

const SYNC: u8 = 3;

const UNICODE: u8 = 4;
/// The place of the code in an event's first byte.
const CODE: u8 = 32;
/// FASTPATH_INPUT_KBDFLAGS_RELEASE, the flag of a key that was released.
const RELEASE: u8 = 0x01;

/// Reads the next event. Another code is refused at the event.
#[tactic(auto, unfolding(crate::specs::Events::event_at))]
pub fn read_event(cursor: &mut Cursor<'_>) -> Result<Event, Short>
    ensures { ReadsFields event_at result cursor.old cursor.new }
{
    let at = cursor.at();
    let first = cursor.u8()?;
    match first / CODE {
        SCANCODE => read_scan(is_released(first), cursor),
        MOUSE => read_mouse(cursor),
        MOUSEX => read_mousex(cursor),
        SYNC => Ok(Event::Sync),
        UNICODE => read_unicode(is_released(first), cursor),
        _ => {
            cursor.go_to(at);
            Err(Short { at })
        }
    }
}

/// Whether the flags of an event say that the key was released.
fn is_released(first: u8) -> bool
    ensures { result ≡ is_released first }
{
    first & RELEASE == RELEASE
}

/// Reads a key by its scan code.
fn read_scan(up: bool, cursor: &mut Cursor<'_>) -> Result<Event, Short>
    ensures { ReadsFields (scan_at up) result cursor.old cursor.new }
{
    let code = cursor.u8()?;
    Ok(Event::Scan {
        code: u16::from(code),
        up,
    })
}

/// Reads a key by its Unicode code.
fn read_unicode(up: bool, cursor: &mut Cursor<'_>) -> Result<Event, Short>
    ensures { ReadsFields (unicode_at up) result cursor.old cursor.new }
{
    let code = cursor.u16_le()?;
    Ok(Event::Unicode { code, up })
}

/// Reads the flags and the place of a mouse.
#[tactic(auto, unfolding(crate::specs::Events::mouse_at))]
fn read_mouse(cursor: &mut Cursor<'_>) -> Result<Event, Short>
    ensures { ReadsFields (mouse_at (λ flags x y. Mouse flags x y)) result cursor.old cursor.new }
{
    let flags = cursor.u16_le()?;
    let x = cursor.u16_le()?;
    let y = cursor.u16_le()?;
    Ok(Event::Mouse { flags, x, y })
}

/// Reads the fields of a mouse's further buttons, which aren't told.
#[tactic(auto, unfolding(crate::specs::Events::mouse_at))]
fn read_mousex(cursor: &mut Cursor<'_>) -> Result<Event, Short>
    ensures { ReadsFields (mouse_at (λ flags x y. MouseX)) result cursor.old cursor.new }
{
    cursor.u16_le()?;
    cursor.u16_le()?;
    cursor.u16_le()?;
    Ok(Event::MouseX)
}
