//! Words of a command line of which one is no text.
ghost use Rattle.std.specs.Io.{WritesAtMost};

use crate::turns::otherwise;
use crate::verdict::{Found, Trouble, Way};
use command_words::words_given;
use std::alloc::Global;
use std::env::{Env, FillError};

/// A program's name that is UTF-8, and a word that isn't.
#[derive(Drop)]
struct OddWord;

impl Env for OddWord {
    fn arg(&self, i: usize, buf: &mut [u8]) -> Result<usize, FillError> {
        match i {
            0 => put_word(buf, b"program"),
            1 => put_word(buf, b"\xFF"),
            _ => Err(FillError::NotPresent),
        }
    }

    fn var(&self, _name: &str, _buf: &mut [u8]) -> Result<usize, FillError> {
        Err(FillError::NotPresent)
    }

    fn var_at(&self, _i: usize, _buf: &mut [u8]) -> Result<usize, FillError> {
        Err(FillError::NotPresent)
    }
}

/// Puts a word at the front of a buffer that has room for it.
fn put_word(buf: &mut [u8], word: &[u8]) -> Result<usize, FillError>
    ensures { WritesAtMost result buf.new }
{
    match buf.get_mut(..word.len()) {
        Some(front) => {
            front.copy_from_slice(word);
            Ok(word.len())
        }
        None => Err(FillError::TooLong),
    }
}

/// Reads the words, which leave none.
pub fn run_row(alloc: Global, words: &[&str]) -> Result<(), Trouble> {
    if !words.is_empty() {
        return Err(Trouble::NoForm);
    }
    match words_given(&(OddWord, alloc), alloc) {
        Some(found) if found.is_empty() => Ok(()),
        Some(found) => otherwise(Way::Whole, Found::Number(found.len() as u64)),
        None => Err(Trouble::OutOfMemory),
    }
}
