ghost use Rattle.std.specs.Prelude.{◌≡◌, ◌≢◌, [], MatchOption};

use std::alloc::Global;
use std::env::{self, Env};
use std::io::ErrorKind;

/// The words that the program was run with, its name first. Where one of them isn't UTF-8 there are none, as no command line has such a word;
/// `None` is want of memory.
pub fn words_given<R: Env + Alloc<A = Global>>(rt: &R, alloc: Global) -> Option<Vec<String>> {
    match env::args(rt) {
        Ok(words) => words.collect::<Vec<String>>(alloc).ok(),
        Err(fault) => no_words(fault.kind(), alloc),
    }
}

/// No words, where they weren't given for another reason than want of memory.
fn no_words(kind: ErrorKind, alloc: Global) -> Option<Vec<String>>
    ensures { MatchOption result (kind ≡ ErrorKind.OutOfMemory) (λ words. (kind ≢ ErrorKind.OutOfMemory) × (words.items ≡ [])) }
{
    match kind {
        ErrorKind::OutOfMemory => None,
        _ => Some(Vec::new(alloc)),
    }
}
