//! Preset words, each one word of a command line.
ghost use Rattle.std.specs.Prelude.{◌≡◌, ◌++◌, ◌∷◌, ℕ, List, false, map, IfOk, OnOk};
ghost use Rattle.std.specs.List.{list_any};
ghost use Rattle.caps_sets.specs.Presets.{presets, is_pointer_word, confirmed_by};
ghost use Rattle.script_rules.specs.Capture.{spaced};
ghost use Rattle.command_words.specs.ViewWords.{has_space, preset_of};

use caps_sets::{Confirmed, is_pointer_word, preset};
use std::alloc::Global;
use wire_num::OutOfMemory;

/// What separates the words of a line.
const SPACE: u8 = b' ';

/// What preset words confirm, each of them one word of the command; `None` where they are no such words, or one says how many pointers are
/// kept, since the viewer keeps none.
pub(crate) fn confirmed_by_words(
    alloc: Global,
    words: &[&str],
) -> Result<Option<Confirmed>, OutOfMemory>
    ensures { IfOk result (λ confirmed. confirmed ≡ preset_of (map (λ s. s.now) words.now)) }
{
    if one_says_pointers(words) {
        return Ok(None);
    }
    if one_has_space(words) {
        return Ok(None);
    }
    let text = spaced(alloc, words)?;
    Ok(confirmed_by_text(&text))
}

/// What preset words confirm, with a space before each of them.
fn confirmed_by_text(text: &[u8]) -> Option<Confirmed>
    ensures { (words : List (List ℕ)) → list_any has_space words ≡ false → text.now ≡ spaced words → result ≡ confirmed_by presets words }
{
    match text {
        [_, words @ ..] => preset(words),
        [] => None,
    }
}

/// Whether one of the words says how many pointers are kept.
fn one_says_pointers(words: &[&str]) -> bool
    ensures { result ≡ list_any is_pointer_word (map (λ s. s.now) words.now) }
{
    for word in words {
        if is_pointer_word(word.as_bytes()) {
            return true;
        }
    }
    false
}

/// Whether one of the words has a space.
fn one_has_space(words: &[&str]) -> bool
    ensures { result ≡ list_any has_space (map (λ s. s.now) words.now) }
{
    for word in words {
        if has_space(word.as_bytes()) {
            return true;
        }
    }
    false
}

/// Whether a word has a space.
fn has_space(word: &[u8]) -> bool
    ensures { result ≡ has_space word.now }
{
    word.contains(&SPACE)
}

/// The words, with a space before each of them.
fn spaced(alloc: Global, words: &[&str]) -> Result<Vec<u8>, OutOfMemory>
    ensures { IfOk result (λ text. text.items ≡ spaced (map (λ s. s.now) words.now)) }
{
    let mut text = Vec::new(alloc);
    for word in words {
        add_word(&mut text, word.as_bytes())?;
    }
    Ok(text)
}

/// Appends a space and a word.
fn add_word(text: &mut Vec<u8>, word: &[u8]) -> Result<(), OutOfMemory>
    ensures { OnOk result (text.new.items ≡ text.old.items ++ 32 ∷ word.now) }
{
    text.push(SPACE)?;
    text.extend_from_slice(word)?;
    Ok(())
}
