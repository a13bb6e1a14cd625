//! Input events and the other steps that draw nothing.
//!
//! | form | step |
//! |---|---|
//! | `refresh X Y W H` | the tiles of a rectangle are asked for |
//! | `key CC down`, `key CC up` | a key by its scan code ([MS-RDPBCGR] 2.2.8.1.1.3.1.1.1) |
//! | `char N` | a key by its Unicode code, pressed (2.2.8.1.1.3.1.1.2) |
//! | `mouse FLAGS X Y` | the mouse (2.2.8.1.1.3.1.1.3) |
ghost use Rattle.std.specs.Prelude.{◌≡◌};
ghost use Rattle.script_rules.specs.Forms.{is_up};
ghost use Rattle.script_lines.specs.Steps.{key_by, key_of, unicode_by, char_of, mouse_of};

use crate::field::{next_count, next_flags};
use line_text::{Parts, is_same_word, read_hexadecimal, read_number};
use session_rules::Event;

/// How many hexadecimal digits a scan code has.
const SCAN_DIGITS: usize = 2;

/// The greatest code of a Unicode event.
const UNICODE_LIMIT: u64 = 65_535;

/// The word of a key that is pressed.
const DOWN: &[u8] = b"down";

/// The word of a key that is released.
const UP: &[u8] = b"up";

/// `key CC down` and `key CC up`.
pub(crate) fn read_key(words: &mut Parts<'_>) -> Option<Event>
    ensures { result ≡ key_of words.old }
{
    let code = words.next_part()?;
    let direction = words.next_part()?;
    if words.next_part().is_some() {
        return None;
    }
    key(code, direction)
}

/// A key by its code and by where it went.
fn key(code: &[u8], direction: &[u8]) -> Option<Event>
    ensures { result ≡ key_by code.now direction.now }
{
    let code = read_hexadecimal(code, SCAN_DIGITS)?;
    let up = read_direction(direction)?;
    Some(Event::Scan {
        code: code as u16,
        up,
    })
}

/// Whether a word says that a key went up, where it says that it went down or up.
fn read_direction(word: &[u8]) -> Option<bool>
    ensures { result ≡ is_up word.now }
{
    if is_same_word(word, DOWN) {
        Some(false)
    } else if is_same_word(word, UP) {
        Some(true)
    } else {
        None
    }
}

/// `char N`.
pub(crate) fn read_char(words: &mut Parts<'_>) -> Option<Event>
    ensures { result ≡ char_of words.old }
{
    let word = words.next_part()?;
    if words.next_part().is_some() {
        return None;
    }
    unicode(word)
}

/// The Unicode event of a code.
fn unicode(word: &[u8]) -> Option<Event>
    ensures { result ≡ unicode_by word.now }
{
    let code = read_number(word, UNICODE_LIMIT)?;
    Some(Event::Unicode {
        code: code as u16,
        up: false,
    })
}

/// `mouse FLAGS X Y`.
pub(crate) fn read_mouse(words: &mut Parts<'_>) -> Option<Event>
    ensures { result ≡ mouse_of words.old }
{
    let flags = next_flags(words)?;
    let x = next_count(words)?;
    let y = next_count(words)?;
    match words.next_part() {
        Some(_) => None,
        None => Some(Event::Mouse { flags, x, y }),
    }
}
