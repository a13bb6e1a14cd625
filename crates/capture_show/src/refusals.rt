//! Lines of a capture that tell refusals.

ghost use Rattle.std.specs.Prelude.{◌≡◌, ◌||◌, ◌∷◌, [], codes, is_some};
ghost use Rattle.line_text.specs.Words.{words_of};
ghost use Rattle.script_rules.specs.Capture.{number_between, is_counted, is_step_refusal, is_join_refusal, is_nobody_line, is_broken_line};

use line_text::{Parts, is_same_word, read_number};

/// The greatest number of a holder (profile).
const HOLDER_LIMIT: u64 = 65_535;

/// The greatest rule of a drawing (profile).
const DRAWING_RULES: u64 = 9;

/// The greatest slot (profile).
const SLOT_LIMIT: u64 = 255;

/// The greatest number of a script's line (profile).
const LINE_LIMIT: u64 = 4_294_967_295;

/// The greatest rule of a script's line (profile).
const LINE_RULES: u64 = 7;

/// Whether a text tells why a step of a viewer was refused.
pub(crate) fn is_step_refusal(text: &[u8]) -> bool
    ensures { result ≡ is_step_refusal (words_of text.now) }
{
    let mut words = Parts::words(text);
    let Some(word) = words.next_part() else {
        return false;
    };
    let Some(count) = words.next_part() else {
        return is_same_word(word, b"journal-full");
    };
    match words.next_part() {
        Some(_) => false,
        None => is_counted_refusal(word, count),
    }
}

/// Whether these two words tell why a step was refused.
fn is_counted_refusal(word: &[u8], count: &[u8]) -> bool
    ensures { result ≡ ((is_counted (codes "not-holder") 0 65535 word.now count.now || is_counted (codes "bad-drawing") 1 9 word.now count.now)
        || (is_counted (codes "empty-slot") 0 255 word.now count.now || is_counted (codes "slot-size") 0 255 word.now count.now)) }
{
    is_right_or_form(word, count) || is_slot_fault(word, count)
}

/// Whether these two words name a holder, or a rule of drawings.
fn is_right_or_form(word: &[u8], count: &[u8]) -> bool
    ensures { result ≡ (is_counted (codes "not-holder") 0 65535 word.now count.now || is_counted (codes "bad-drawing") 1 9 word.now count.now) }
{
    is_counted(b"not-holder", 0, HOLDER_LIMIT, word, count)
        || is_counted(b"bad-drawing", 1, DRAWING_RULES, word, count)
}

/// Whether these two words name a slot.
fn is_slot_fault(word: &[u8], count: &[u8]) -> bool
    ensures { result ≡ (is_counted (codes "empty-slot") 0 255 word.now count.now || is_counted (codes "slot-size") 0 255 word.now count.now) }
{
    is_counted(b"empty-slot", 0, SLOT_LIMIT, word, count)
        || is_counted(b"slot-size", 0, SLOT_LIMIT, word, count)
}

/// Whether a word is the one that is wanted, and the next a number in a range.
fn is_counted(wanted: &[u8], least: u64, most: u64, word: &[u8], count: &[u8]) -> bool
    ensures { result ≡ is_counted wanted.now least most word.now count.now }
{
    is_same_word(word, wanted) && is_number_between(least, most, count)
}

/// Whether a word is a number in a range.
fn is_number_between(least: u64, most: u64, word: &[u8]) -> bool
    ensures { result ≡ is_some (number_between least most word.now) }
{
    match read_number(word, most) {
        Some(number) => least <= number,
        None => false,
    }
}

/// Whether a line tells why a join was refused.
pub(crate) fn is_nobody_line(text: &[u8]) -> bool
    ensures { result ≡ is_nobody_line (words_of text.now) }
{
    let mut words = Parts::words(text);
    let Some(zero) = words.next_part() else {
        return false;
    };
    let Some(word) = words.next_part() else {
        return false;
    };
    let Some(cause) = words.next_part() else {
        return false;
    };
    match words.next_part() {
        Some(_) => false,
        None => is_same_word(zero, b"0") && is_same_word(word, b"refused") && is_join_cause(cause),
    }
}

/// Whether a word tells why a join was refused.
fn is_join_cause(word: &[u8]) -> bool
    ensures { result ≡ is_join_refusal (word.now ∷ []) }
{
    is_same_word(word, b"not-invited")
        || is_same_word(word, b"room-full")
        || is_same_word(word, b"joins-spent")
}

/// Whether a line tells which line of a script was refused.
pub(crate) fn is_broken_line(text: &[u8]) -> bool
    ensures { result ≡ is_broken_line (words_of text.now) }
{
    let mut words = Parts::words(text);
    let Some(line) = words.next_part() else {
        return false;
    };
    let Some(number) = words.next_part() else {
        return false;
    };
    let Some(word) = words.next_part() else {
        return false;
    };
    let Some(rule) = words.next_part() else {
        return false;
    };
    match words.next_part() {
        Some(_) => false,
        None => {
            is_same_word(line, b"line")
                && is_number_between(1, LINE_LIMIT, number)
                && is_counted(b"rule", 1, LINE_RULES, word, rule)
        }
    }
}
