//! The first two lines of a script: its size, and whether rows follow.
ghost use Rattle.std.specs.Prelude.{◌≡◌, IfSome, IsTrue, is_some};
ghost use Rattle.px_core.specs.Rectangle.{is_session_size};
ghost use Rattle.line_text.specs.Numbers.{number_up_to};
ghost use Rattle.line_text.specs.Words.{words_of};
ghost use Rattle.script_rules.specs.Script.{size_with, size_of_words, invite_form};

use crate::form::invite_form;
use crate::words::three_words;
use line_text::{is_same_word, read_number};
use px_core::{Size, is_session_size};

/// The word of a script's first line.
const SIZE: &[u8] = b"size";

/// The size of a session's picture that a script's first line gives, where it does: `size W H`.
pub fn size_of_line(text: &[u8]) -> Option<Size>
    ensures form { result ≡ size_of_words (words_of text.now) }
    ensures range { IfSome result (λ size. IsTrue (is_session_size size.w size.h)) }
{
    let (word, width, height) = three_words(text)?;
    if !is_same_word(word, SIZE) {
        return None;
    }
    session_size(read_side(width)?, read_side(height)?)
}

/// Whether a line is an invite by its form: a script whose second line isn't is solo.
pub fn is_invite(text: &[u8]) -> bool
    ensures { result ≡ is_some (invite_form (words_of text.now)) }
{
    invite_form(text).is_some()
}

/// The number of a picture's columns or rows, where it has 32 bits.
fn read_side(word: &[u8]) -> Option<u32>
    ensures { result ≡ number_up_to 4294967295 word.now }
{
    let side = read_number(word, u64::from(u32::MAX))?;
    Some(side as u32)
}

/// The size of these sides, where a session may have it.
fn session_size(w: u32, h: u32) -> Option<Size>
    ensures size { result ≡ size_with w h }
    ensures range { IfSome result (λ size. IsTrue (is_session_size size.w size.h)) }
{
    if is_session_size(w, h) {
        Some(Size { w, h })
    } else {
        None
    }
}
