//! A row's files.

use crate::verdict::Trouble;
use line_text::{read_hexadecimals, read_number};
use std::alloc::Global;
use std::fs;
use std::rt::Files;

/// How many digits a byte has.
const DIGITS: usize = 2;

/// The bytes of a file.
pub fn read<R: Files + AllocGlobal>(rt: &R, name: &str) -> Result<Vec<u8>, Trouble> {
    match fs::read(rt, name) {
        Ok(bytes) => Ok(bytes),
        Err(_) => Err(Trouble::NoFile),
    }
}

/// The bytes of the file of a row with this ending.
pub fn read_of<R: Files + AllocGlobal>(
    rt: &R,
    row: &str,
    ending: &str,
) -> Result<Vec<u8>, Trouble> {
    let name = format!(in rt.alloc(); "{row}.{ending}")?;
    read(rt, name.as_str())
}

/// The bytes that a file of hexadecimal text stands for: pairs of digits, a comment from `#` to its line's end, and `< FILE FROM TO` for
/// the bytes of another one from a place up to another.
pub fn read_hex<R: Files + AllocGlobal>(
    rt: &R,
    row: &str,
    ending: &str,
) -> Result<Vec<u8>, Trouble> {
    let name = format!(in rt.alloc(); "{row}.{ending}")?;
    let Ok(text) = fs::read_to_string(rt, name.as_str()) else {
        return Err(Trouble::NoFile);
    };
    let mut bytes = Vec::new(rt.alloc());
    for line in text.as_str().lines() {
        match line.strip_prefix("< ") {
            Some(words) => append_part(rt, &mut bytes, words)?,
            None => append_line(rt.alloc(), &mut bytes, line)?,
        }
    }
    Ok(bytes)
}

/// Appends the bytes of another file that the words of a line name.
fn append_part<R: Files + AllocGlobal>(
    rt: &R,
    bytes: &mut Vec<u8>,
    words: &str,
) -> Result<(), Trouble> {
    let words = words.split(' ').collect::<Vec<&str>>(rt.alloc())?;
    let [name, from, to] = words.as_slice() else {
        return Err(Trouble::NoForm);
    };
    let whole = read_plain(rt, name)?;
    let (Some(from), Some(to)) = (place(from), place(to)) else {
        return Err(Trouble::NoForm);
    };
    match whole.get(from..to) {
        Some(part) => Ok(bytes.extend_from_slice(part)?),
        None => Err(Trouble::NoForm),
    }
}

/// The bytes of a file of hexadecimal text in which no other is named.
fn read_plain<R: Files + AllocGlobal>(rt: &R, name: &str) -> Result<Vec<u8>, Trouble> {
    let Ok(text) = fs::read_to_string(rt, name) else {
        return Err(Trouble::NoFile);
    };
    let mut bytes = Vec::new(rt.alloc());
    for line in text.as_str().lines() {
        append_line(rt.alloc(), &mut bytes, line)?;
    }
    Ok(bytes)
}

/// A place in a file.
fn place(word: &str) -> Option<usize> {
    let place = read_number(word.as_bytes(), u32::MAX.into())?;
    Some(place as usize)
}

/// Appends the bytes of a line of hexadecimal text.
fn append_line(alloc: Global, bytes: &mut Vec<u8>, line: &str) -> Result<(), Trouble> {
    let digits = match line.split_once('#') {
        Some((digits, _)) => digits,
        None => line,
    };
    for word in digits.split_whitespace() {
        append_word(alloc, bytes, word)?;
    }
    Ok(())
}

/// Appends the bytes of a word of hexadecimal digits.
pub fn append_word(alloc: Global, bytes: &mut Vec<u8>, word: &str) -> Result<(), Trouble> {
    match read_hexadecimals(alloc, word.as_bytes(), DIGITS) {
        Ok(Some(numbers)) => append_numbers(bytes, &numbers),
        Ok(None) => Err(Trouble::NoForm),
        Err(_) => Err(Trouble::OutOfMemory),
    }
}

/// Appends numbers, each of which is a byte.
fn append_numbers(bytes: &mut Vec<u8>, numbers: &[u32]) -> Result<(), Trouble> {
    for number in numbers {
        match u8::try_from(*number) {
            Ok(byte) => bytes.extend_from_slice(&[byte])?,
            Err(_) => return Err(Trouble::NoForm),
        }
    }
    Ok(())
}
