ghost use Rattle.std.specs.Prelude.{◌≡◌, ◌∷◌, [], ◌+◌, ◌*◌, ◌/◌, ◌≤◌, ◌<◌, ◌^◌, ◌++◌, IfSome, IfOk, OnOk, OnErr, Some, None};
ghost use Rattle.std.specs.Option.{option_map};
ghost use Rattle.line_text.specs.Numbers.{digits_behind};
ghost use Rattle.line_text.specs.Hexadecimal.{hexadecimal_of, hexadecimals_of};

use crate::OutOfMemory;
use std::alloc::Global;

/// The radix of hexadecimal numbers.
const SIXTEEN: u32 = 16;

/// The number that a word of exactly so many hexadecimal digits of either case writes.
pub fn read_hexadecimal(word: &[u8], digits: usize) -> Option<u32>
    requires { digits ≤ 8 }
    ensures value { result ≡ hexadecimal_of digits word.now }
    ensures bound { IfSome result (λ n. n < 16 ^ digits) }
{
    if word.len() != digits {
        return None;
    }
    let mut value = 0;
    for digit in word {
        value = with_hexadecimal_digit(value, *digit)?;
    }
    Some(value)
}

/// The numbers of so many hexadecimal digits each that a word writes without a space between, or `None` where it writes
/// anything else.
pub fn read_hexadecimals(
    alloc: Global,
    word: &[u8],
    digits: usize,
) -> Result<Option<Vec<u32>>, OutOfMemory>
    requires some { 1 ≤ digits }
    requires few { digits ≤ 8 }
    ensures { IfOk result (λ found. option_map (λ numbers. numbers.items) found ≡ hexadecimals_of digits word.now) }
{
    let mut numbers = Vec::new(alloc);
    let mut rest = word;
    while rest.len() >= digits {
        let (first, others) = rest.split_at(digits);
        match read_hexadecimal(first, digits) {
            Some(number) => numbers.push(number)?,
            None => return Ok(None),
        }
        rest = others;
    }
    if rest.is_empty() {
        Ok(Some(numbers))
    } else {
        Ok(None)
    }
}

/// A number of at most seven digits with one more digit behind it.
fn with_hexadecimal_digit(value: u32, digit: u8) -> Option<u32>
    requires { value < 16 ^ 7 }
    ensures value { result ≡ digits_behind 16 value (digit ∷ []) }
    ensures bound { IfSome result (λ n. n < 16 * value + 16) }
{
    let digit = char::from(digit).to_digit(SIXTEEN)?;
    Some(SIXTEEN * value + digit)
}
