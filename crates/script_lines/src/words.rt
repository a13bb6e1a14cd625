//! The words of a line as parts of its text.
ghost use Rattle.std.specs.Prelude.{◌≡◌, ◌∷◌, [], ◌&&◌, ℕ, List, MatchOption};
ghost use Rattle.std.specs.Option.{option_copied};
ghost use Rattle.line_text.specs.Words.{words_of, parts_left};
ghost use Rattle.script_rules.specs.Script.{are_words, all_bytes, is_ascii};

use line_text::{Parts, find_byte};

/// What separates words.
const SPACE: u8 = b' ';

/// The first word of a text, and the text after its space.
pub(crate) fn first_word(text: &[u8]) -> (&[u8], Option<&[u8]>)
    ensures { words_of text.now ≡ result.0.now ∷ parts_left 32 (option_copied result.1) }
{
    match find_byte(text, SPACE) {
        Some(at) => (&text[..at], Some(&text[at + 1..])),
        None => (text, None),
    }
}

/// Whether no word of a text is empty.
pub(crate) fn are_words(text: &[u8]) -> bool
    ensures { result ≡ are_words (words_of text.now) }
{
    let mut words = Parts::words(text);
    while let Some(word) = words.next_part() {
        if word.is_empty() {
            return false;
        }
    }
    true
}

/// The words of a line that has three.
pub(crate) fn three_words(line: &[u8]) -> Option<(&[u8], &[u8], &[u8])>
    ensures { MatchOption result ((a b c : List ℕ) → words_of line.now ≡ a ∷ b ∷ c ∷ [] → ⊥)
        (λ words. words_of line.now ≡ words.0.now ∷ words.1.now ∷ words.2.now ∷ []) }
{
    let mut words = Parts::words(line);
    let first = words.next_part()?;
    let second = words.next_part()?;
    let third = words.next_part()?;
    match words.next_part() {
        Some(_) => None,
        None => Some((first, second, third)),
    }
}

/// Whether a line is ended by a line feed and has only ASCII bytes.
pub fn is_text_line(text: &[u8], ended: bool) -> bool
    ensures { result ≡ (ended && all_bytes is_ascii text.now) }
{
    ended && all_ascii(text)
}

/// Whether each byte of a text is ASCII.
fn all_ascii(text: &[u8]) -> bool
    ensures { result ≡ all_bytes is_ascii text.now }
{
    text.is_ascii()
}
