//! What a line of a capture says.

ghost use Rattle.std.specs.Prelude.{◌≡◌, ◌∷◌, [], ◌&&◌, ℕ, List, codes, IfOk};
ghost use Rattle.std.specs.Bool.{then_some};
ghost use Rattle.std.specs.Option.{option_map, option_and_then, option_copied};
ghost use Rattle.px_core.specs.Rectangle.{is_session_size};
ghost use Rattle.line_text.specs.Numbers.{number_of, number_up_to};
ghost use Rattle.line_text.specs.Words.{words_of, parts_left, is_same_word};
ghost use Rattle.script_rules.specs.Script.{size_with};
ghost use Rattle.script_rules.specs.Capture.{capture_line, viewer_word, joined_words, viewer_line, is_step_refusal};
ghost use Rattle.script_rules.specs.Capture.CaptureLine.{OtherLine};
ghost use Rattle.capture_show.specs.Lines.{Says, meant_by, nobody_line};

use crate::OutOfMemory;
use crate::digits::{is_bytes_word, read_bytes};
use crate::refusals::{is_broken_line, is_nobody_line, is_step_refusal};
use caps_sets::{Confirmed, preset};
use edge_io::find_byte;
use line_text::{is_same_word, read_number};
use px_core::{Size, is_session_size};

/// What separates words.
const SPACE: u8 = b' ';

/// The greatest number of a viewer (profile).
const VIEWER_LIMIT: u64 = 65_535;

/// What a line of a capture says; the bytes that one gives stand beside it.
#[derive(Clone, Copy)]
pub(crate) enum Said {
    /// A viewer joined, with a picture of this size.
    Joined {
        viewer: u16,
        size: Size,
        confirmed: Confirmed,
    },
    /// A viewer left, a take of it gave nothing, or a step of it was refused.
    Other {
        viewer: u16,
    },
    /// A take of a viewer gave bytes.
    Bytes {
        viewer: u16,
    },
    /// A join was refused, or a line of the script.
    Nobody,
}

/// What a line's text says. Where it gives this viewer bytes, they come in place of those that the vector held; those of another are judged
/// and not read.
///
/// A viewer's number is looked for first, so that long digits aren't gone through for the lines that name no viewer.
pub(crate) fn read_said(
    wanted: u16,
    text: &[u8],
    bytes: &mut Vec<u8>,
) -> Result<Option<Said>, OutOfMemory>
    ensures { IfOk result (λ said. Says wanted bytes.new.items said (capture_line (words_of text.now))) }
{
    let (word, behind) = first_word(text);
    match read_viewer(word) {
        Some(viewer) => read_behind(wanted, viewer, behind, bytes),
        None => Ok(read_nobody(text)),
    }
}

/// What a line says whose first word is no number of a viewer.
fn read_nobody(text: &[u8]) -> Option<Said>
    ensures { (bytes : List ℕ) → nobody_line (words_of text.now) ≡ option_map (meant_by bytes) result }
{
    if is_nobody_line(text) || is_broken_line(text) {
        Some(Said::Nobody)
    } else {
        None
    }
}

/// What it says that stands behind a viewer's number.
fn read_behind(
    wanted: u16,
    viewer: u16,
    behind: Option<&[u8]>,
    bytes: &mut Vec<u8>,
) -> Result<Option<Said>, OutOfMemory>
    ensures { IfOk result (λ said. Says wanted bytes.new.items said (viewer_line viewer (parts_left 32 (option_copied behind.entry)))) }
{
    match behind {
        Some(text) => read_of_viewer(wanted, viewer, text, bytes),
        None => Ok(None),
    }
}

/// The first word of a text, and the text after its space.
fn first_word(text: &[u8]) -> (&[u8], Option<&[u8]>)
    ensures { words_of text.now ≡ result.0.now ∷ parts_left 32 (option_copied result.1) }
{
    match find_byte(text, SPACE) {
        Some(at) => (&text[..at], Some(&text[at + 1..])),
        None => (text, None),
    }
}

/// The number of a viewer.
fn read_viewer(word: &[u8]) -> Option<u16>
    ensures { result ≡ viewer_word word.now }
{
    match read_number(word, VIEWER_LIMIT)? {
        0 => None,
        viewer => Some(viewer as u16),
    }
}

/// What the text after a viewer's number says.
fn read_of_viewer(
    wanted: u16,
    viewer: u16,
    text: &[u8],
    bytes: &mut Vec<u8>,
) -> Result<Option<Said>, OutOfMemory>
    ensures { IfOk result (λ said. Says wanted bytes.new.items said (viewer_line viewer (words_of text.now))) }
{
    let (word, behind) = first_word(text);
    match behind {
        None => read_alone(wanted, viewer, word, bytes),
        Some(behind) => Ok(read_several(viewer, word, behind)),
    }
}

/// What a word says that stands alone after a viewer's number.
fn read_alone(
    wanted: u16,
    viewer: u16,
    word: &[u8],
    bytes: &mut Vec<u8>,
) -> Result<Option<Said>, OutOfMemory>
    ensures { IfOk result (λ said. Says wanted bytes.new.items said (viewer_line viewer (word.now ∷ []))) }
{
    if is_same_word(word, b"left") || is_same_word(word, b"nothing") {
        return Ok(Some(Said::Other { viewer }));
    }
    if !is_bytes_word(word) {
        return Ok(None);
    }
    if viewer == wanted {
        read_bytes(bytes, word)?;
    }
    Ok(Some(Said::Bytes { viewer }))
}

/// What a word says after a viewer's number, with the text behind it.
fn read_several(viewer: u16, word: &[u8], behind: &[u8]) -> Option<Said>
    ensures { (bytes : List ℕ) → viewer_line viewer (word.now ∷ words_of behind.now) ≡ option_map (meant_by bytes) result }
{
    if is_same_word(word, b"joined") {
        read_joined(viewer, behind)
    } else {
        other_where(viewer, is_refusal(word, behind))
    }
}

/// A line without bytes, where it is one.
fn other_where(viewer: u16, is: bool) -> Option<Said>
    ensures { (bytes : List ℕ) → then_some is (OtherLine viewer) ≡ option_map (meant_by bytes) result }
{
    if is {
        Some(Said::Other { viewer })
    } else {
        None
    }
}

/// Whether a word, with the text behind it, tells why a step was refused.
fn is_refusal(word: &[u8], behind: &[u8]) -> bool
    ensures { result ≡ (is_same_word word.now (codes "refused") && is_step_refusal (words_of behind.now)) }
{
    is_same_word(word, b"refused") && is_step_refusal(behind)
}

/// As what a viewer joined.
fn read_joined(viewer: u16, text: &[u8]) -> Option<Said>
    ensures { (bytes : List ℕ) → joined_words viewer (words_of text.now) ≡ option_map (meant_by bytes) result }
{
    let (width, behind) = first_word(text);
    let (height, words) = first_word(behind?);
    let size = read_size(width, height)?;
    let confirmed = preset(words?)?;
    Some(Said::Joined {
        viewer,
        size,
        confirmed,
    })
}

/// The size of a picture by its columns and rows.
fn read_size(width: &[u8], height: &[u8]) -> Option<Size>
    ensures { result ≡ option_and_then (λ m. option_and_then (λ n. size_with m n) (number_of height.now)) (number_of width.now) }
{
    session_size(read_side(width)?, read_side(height)?)
}

/// The number of a picture's columns or rows, where it has 32 bits.
fn read_side(word: &[u8]) -> Option<u32>
    ensures { result ≡ number_up_to 4294967295 word.now }
{
    let side = read_number(word, u64::from(u32::MAX))?;
    Some(side as u32)
}

/// The size of these sides, where a session may have it.
fn session_size(w: u32, h: u32) -> Option<Size>
    ensures { result ≡ size_with w h }
{
    if is_session_size(w, h) {
        Some(Size { w, h })
    } else {
        None
    }
}
