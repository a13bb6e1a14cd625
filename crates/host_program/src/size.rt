//! The size of a session's picture, as words.

ghost use Rattle.std.specs.Prelude.{◌≡◌, IsTrue, IfSome};
ghost use Rattle.px_core.specs.Rectangle.{is_session_size};
ghost use Rattle.line_text.specs.Numbers.{number_up_to};
ghost use Rattle.script_rules.specs.Script.{size_with};
ghost use Rattle.host_program.specs.Answering.{size_of_words};

use line_text::read_number;
use px_core::{Size, is_session_size};

/// The most columns, and the most rows, of a session's picture (profile).
const MOST_SIDE: u64 = 2_048;

/// The size of so many columns and rows of pixels, where a session's picture may have it.
pub(crate) fn size_of_words(w: &[u8], h: &[u8]) -> Option<Size>
    ensures size { result ≡ size_of_words w.now h.now }
    ensures range { IfSome result (λ size. IsTrue (is_session_size size.w size.h)) }
{
    session_size(read_side(w)?, read_side(h)?)
}

/// The number of a picture's columns or rows.
fn read_side(word: &[u8]) -> Option<u32>
    ensures { result ≡ number_up_to 2048 word.now }
{
    let side = read_number(word, MOST_SIDE)?;
    Some(side as u32)
}

/// The size of these sides, where a session may have it.
fn session_size(w: u32, h: u32) -> Option<Size>
    ensures size { result ≡ size_with w h }
    ensures range { IfSome result (λ size. IsTrue (is_session_size size.w size.h)) }
{
    if is_session_size(w, h) {
        Some(Size { w, h })
    } else {
        None
    }
}
