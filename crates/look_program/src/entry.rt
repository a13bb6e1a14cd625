//! The program over its own words, standard input and standard output.

use crate::ending::Ending;
use command_words::words_given;
use edge_io::{FileIn, FileOut};
use std::alloc::Global;
use std::env::Env;
use std::sync::Wait;

/// Shows what the words ask for, over what the runtime has. What it ends with is the status of its run.
pub fn run_look<R: Env + Alloc<A = Global> + Input + Print + Wait>(rt: &R) -> Ending {
    let alloc = rt.alloc();
    let words = words_given(rt, alloc);
    let mut input = FileIn::new(rt);
    let mut output = FileOut::new(rt);
    Ending::of_run(rt, alloc, words, &mut input, &mut output)
}
