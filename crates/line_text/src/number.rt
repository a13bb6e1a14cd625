ghost use Rattle.std.specs.Prelude.{◌≡◌, ◌∷◌, [], ◌≤◌, ◌<◌, ◌++◌, IfSome, OnOk, OnErr, pos};
ghost use Rattle.std.specs.Fmt.{decimal};
ghost use Rattle.line_text.specs.Numbers.{digits_behind, at_most, number_up_to, coordinate_of};

use crate::OutOfMemory;
use std::alloc::Global;

/// The radix of decimal numbers.
const TEN: u32 = 10;

/// The largest size of a coordinate.
const COORDINATE_LIMIT: u64 = 65_535;

/// The number that a word writes in decimal digits without leading zeros, where it is at most `most`.
pub fn read_number(word: &[u8], most: u64) -> Option<u64>
    ensures value { result ≡ number_up_to most word.now }
    ensures bound { IfSome result (λ n. n ≤ most) }
{
    match word {
        [] | [b'0', _, ..] => None,
        _ => digits_value(word, most),
    }
}

/// The number that decimal digits write, where it is at most `most`.
fn digits_value(digits: &[u8], most: u64) -> Option<u64>
    ensures value { result ≡ at_most most (digits_behind 10 0 digits.now) }
    ensures bound { IfSome result (λ n. n ≤ most) }
{
    let mut value = 0;
    for digit in digits {
        value = with_decimal_digit(value, *digit, most)?;
    }
    Some(value)
}

/// A number with one more decimal digit behind it, where it is at most `most`.
fn with_decimal_digit(value: u64, digit: u8, most: u64) -> Option<u64>
    ensures value { result ≡ at_most most (digits_behind 10 value (digit ∷ [])) }
    ensures bound { IfSome result (λ n. n ≤ most) }
{
    let digit = char::from(digit).to_digit(TEN)?;
    let next = value
        .checked_mul(u64::from(TEN))?
        .checked_add(u64::from(digit))?;
    if next <= most { Some(next) } else { None }
}

/// A coordinate: a number of at most 65,535 with an optional minus sign in front.
pub fn read_coordinate(word: &[u8]) -> Option<i32>
    ensures { result ≡ coordinate_of word.now }
{
    match word {
        [b'-', digits @ ..] => Some(-signed(read_number(digits, COORDINATE_LIMIT)?)),
        _ => Some(signed(read_number(word, COORDINATE_LIMIT)?)),
    }
}

/// Appends a number in decimal digits. An `Err` leaves the vector as it was.
pub fn write_decimal(alloc: Global, out: &mut Vec<u8>, n: u64) -> Result<(), OutOfMemory>
    ensures ok { OnOk result (out.new.items ≡ out.old.items ++ decimal n) }
    ensures unchanged { OnErr result (out.new.items ≡ out.old.items) }
{
    let digits = format!(in alloc; "{n}")?;
    out.extend_from_slice(digits.as_bytes())?;
    Ok(())
}

/// A number as a signed one.
fn signed(n: u64) -> i32
    requires { n ≤ 65535 }
    ensures { result ≡ pos n }
{
    n as i32
}
