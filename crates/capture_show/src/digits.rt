//! Bytes as a line of a capture writes them: lower-case hexadecimal digits, two for each byte.

ghost use Rattle.std.specs.Prelude.{◌≡◌, ◌==◌, ◌*◌, ◌<◌, length, true, is_some, Some, IsSome, OnOk};
ghost use Rattle.std.specs.Char.{digit_char};
ghost use Rattle.line_text.specs.Hexadecimal.{hexadecimal_text};
ghost use Rattle.script_rules.specs.Script.{all_bytes};
ghost use Rattle.script_rules.specs.Capture.{is_lower_digit, bytes_word};

use crate::OutOfMemory;

/// How many digits a byte has.
const BYTE_DIGITS: usize = 2;

/// Whether a word is the digits of some bytes.
pub(crate) fn is_bytes_word(word: &[u8]) -> bool
    ensures { result ≡ is_some (bytes_word word.now) }
{
    if word.is_empty() || word.len() % BYTE_DIGITS != 0 {
        return false;
    }
    are_lower_digits(word)
}

/// Reads the bytes that a word's digits write in place of those that the vector held.
pub(crate) fn read_bytes(out: &mut Vec<u8>, word: &[u8]) -> Result<(), OutOfMemory>
    requires { IsSome (bytes_word word.now) }
    ensures { OnOk result (bytes_word word.now ≡ Some out.new.items) }
{
    out.resize(word.len() / BYTE_DIGITS, 0)?;
    write_bytes(out, word);
    Ok(())
}

/// Writes the bytes of which these are the digits.
fn write_bytes(bytes: &mut [u8], digits: &[u8])
    requires room { length digits.now ≡ 2 * length bytes.old }
    requires lower { all_bytes is_lower_digit digits.now ≡ true }
    ensures { hexadecimal_text bytes.new ≡ digits.now }
{
    for at in 0..bytes.len() {
        let high = digit_value(digits[2 * at]);
        let low = digit_value(digits[2 * at + 1]);
        bytes[at] = 16 * high + low;
    }
}

/// The number of which this is the lower-case hexadecimal digit.
fn digit_value(digit: u8) -> u8
    requires { is_lower_digit digit ≡ true }
    ensures value { digit_char result ≡ digit }
    ensures bound { result < 16 }
{
    if digit <= b'9' {
        digit - b'0'
    } else {
        digit - b'a' + 10
    }
}

/// Whether each byte is a digit of lower-case hexadecimal.
///
/// No byte ends the loop, and what it found is kept as a byte, so that it is done by vectors.
fn are_lower_digits(word: &[u8]) -> bool
    ensures { result ≡ all_bytes is_lower_digit word.now }
{
    let mut wrong = 0;
    for byte in word {
        wrong = wrong.max(fault(*byte));
    }
    wrong == 0
}

/// 0 for a digit of lower-case hexadecimal, and 1 for any other byte.
fn fault(byte: u8) -> u8
    ensures { (result == 0) ≡ is_lower_digit byte }
{
    u8::from(!is_lower_digit(byte))
}

/// Whether a byte is a digit of lower-case hexadecimal.
fn is_lower_digit(byte: u8) -> bool
    ensures { result ≡ is_lower_digit byte }
{
    byte.is_ascii_digit() | (97 <= byte && byte <= 102)
}
