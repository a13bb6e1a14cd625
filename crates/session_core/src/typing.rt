//! The code that was typed last.

ghost use Rattle.std.specs.Prelude.{◌≡◌};
ghost use Rattle.session_rules.specs.Typing.{typed_by_event};

use input_pdu::Event;

/// The first code that shows, the exclamation mark.
const FIRST_SHOWN: u16 = 0x21;

/// The last code that shows, the tilde.
const LAST_SHOWN: u16 = 0x7E;

/// What is typed last after an event, over what was before it.
pub fn typed_by_event(before: Option<u8>, e: Event) -> Option<u8>
    ensures { result ≡ typed_by_event before e }
{
    match e {
        Event::Unicode { code, up } => {
            if !up && FIRST_SHOWN <= code && code <= LAST_SHOWN {
                Some(code as u8)
            } else {
                before
            }
        }
        _ => before,
    }
}
