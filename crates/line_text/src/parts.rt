ghost use Rattle.std.specs.Prelude.{◌≡◌, ◌∷◌, [], ℕ, List, MatchOption};
ghost use Rattle.std.specs.Option.{option_copied};
ghost use Rattle.line_text.specs.Words.{parts_at, parts_left, words_of};

use crate::find_byte;
use std::marker::Model;

/// What separates the words of a line.
const SPACE: u8 = b' ';

/// The parts of a text between separators, from the front on. It is seen as the list of the parts that are left.
#[derive(Drop)]
pub struct Parts<'a> {
    text: Option<&'a [u8]>,
    separator: u8,
}

impl<'a> Model for Parts<'a> {
    ghost Value = { List (List ℕ) };

    ghost view = { λ p. parts_left p.separator (option_copied p.text) };
}

impl<'a> Parts<'a> {
    /// The parts of a text, of which there is one at least.
    pub fn new(text: &'a [u8], separator: u8) -> Parts<'a>
        ensures { result ≡ parts_at separator text.now }
    {
        Parts {
            text: Some(text),
            separator,
        }
    }

    /// The words of a line.
    pub fn words(line: &'a [u8]) -> Parts<'a>
        ensures { result ≡ words_of line.now }
    {
        Parts::new(line, SPACE)
    }

    /// Takes the next part, until none is left.
    pub fn next_part(&mut self) -> Option<&'a [u8]>
        ensures { MatchOption result ((self.old ≡ []) × (self.new ≡ [])) (λ part. self.old ≡ part.now ∷ self.new) }
    {
        let (part, rest) = cut(self.text?, self.separator);
        self.text = rest;
        Some(part)
    }
}

/// The first part of a text, and what stands after its separator.
fn cut(text: &[u8], separator: u8) -> (&[u8], Option<&[u8]>)
    ensures { parts_at separator text.now ≡ result.0.now ∷ parts_left separator (option_copied result.1) }
{
    match find_byte(text, separator) {
        Some(at) => (&text[..at], Some(&text[at + 1..])),
        None => (text, None),
    }
}
