//! Bytes as hexadecimal digits, made a piece at a time.
ghost use Rattle.std.specs.Prelude.{◌≡◌, ◌*◌, ◌++◌, ◌<◌, ◌≤◌, length, OnOk, OnErr};
ghost use Rattle.std.specs.Char.{digit_char};
ghost use Rattle.line_text.specs.Hexadecimal.{hexadecimal_text, HoldsFront};

use crate::OutOfMemory;

/// How many bytes are written at once.
const PIECE: usize = 32;

/// Appends bytes as lower-case hexadecimal digits, two for each byte. After an `Err` a front of them was appended.
pub fn append_hexadecimals(out: &mut Vec<u8>, bytes: &[u8]) -> Result<(), OutOfMemory>
    ensures ok { OnOk result (out.new.items ≡ out.old.items ++ hexadecimal_text bytes.now) }
    ensures front { OnErr result (HoldsFront out.old.items out.new.items (hexadecimal_text bytes.now)) }
{
    let mut rest = bytes;
    while !rest.is_empty() {
        let (piece, others) = rest.split_at(rest.len().min(PIECE));
        append_piece(out, piece)?;
        rest = others;
    }
    Ok(())
}

/// Appends some bytes as digits. An `Err` leaves the vector as it was.
fn append_piece(out: &mut Vec<u8>, piece: &[u8]) -> Result<(), OutOfMemory>
    requires { length piece.now ≤ PIECE }
    ensures ok { OnOk result (out.new.items ≡ out.old.items ++ hexadecimal_text piece.now) }
    ensures unchanged { OnErr result (out.new.items ≡ out.old.items) }
{
    let mut room = [0; 2 * PIECE];
    let digits = &mut room[..2 * piece.len()];
    write_digits(digits, piece);
    out.extend_from_slice(digits)?;
    Ok(())
}

/// Writes bytes as lower-case hexadecimal digits, two for each byte.
pub fn write_digits(digits: &mut [u8], bytes: &[u8])
    requires { length digits.old ≡ 2 * length bytes.now }
    ensures { digits.new ≡ hexadecimal_text bytes.now }
{
    for at in 0..bytes.len() {
        let byte = bytes[at];
        digits[2 * at] = digit_char(byte / 16);
        digits[2 * at + 1] = digit_char(byte % 16);
    }
}

/// The lower-case hexadecimal digit of a number.
fn digit_char(digit: u8) -> u8
    requires { digit < 16 }
    ensures { result ≡ digit_char digit }
{
    if digit < 10 {
        b'0' + digit
    } else {
        b'a' + (digit - 10)
    }
}
