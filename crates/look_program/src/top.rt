ghost use Rattle.std.specs.Prelude.{ℕ, ◌≡◌, Some, None, map, string_bytes};
ghost use Rattle.edge_io.specs.Outside.{output_of, outside_of};
ghost use Rattle.command_words.specs.LookWords.{viewer_of_words};
ghost use Rattle.look_program.specs.Look.{fault_status, look_status, LooksAt, WritesUsage};

use capture_show::{ShowFault, put, show_capture};
use command_words::status::{BAD_WORDS, DONE, OUT_OF_MEMORY, READ_FAULT, REFUSED, WRITE_FAULT};
use command_words::{OutOfMemory, viewer_of_words};
use edge_io::{Sink, Source};
use std::alloc::Global;
use std::sync::Wait;

/// What is printed where the words name no viewer.
const USAGE: &[u8] = b"usage: rdp_look V\n";

/// The whole program, over any input and output; the answer is its exit status. The words begin with the program's name.
///
/// The words are read by `clap` as one simple command with a viewer's number, from 1 to 65,535. The input is read as a capture, and what
/// it shows this viewer goes to the output. Other words write the usage line.
pub fn look_top<R: Wait, S: Source, K: Sink>(
    rt: &R,
    alloc: Global,
    words: &[String],
    input: &mut S,
    output: &mut K,
) -> u8
    // Where the input tells its bytes, and memory isn't wanting: what is written is just what the capture in them shows the viewer.
    ensures look { (viewer : ℕ) → viewer_of_words (map string_bytes words.now) ≡ Some viewer → LooksAt result viewer
        (outside_of S.Source K.Sink input.old output.old)
        (outside_of S.Source K.Sink input.new output.new) }
    ensures usage { viewer_of_words (map string_bytes words.now) ≡ None
        → WritesUsage result (output_of K.Sink output.old) (output_of K.Sink output.new) }
    ensures input { viewer_of_words (map string_bytes words.now) ≡ None → input.new ≡ input.old }
{
    match viewer_of_words(alloc, words) {
        Ok(Some(viewer)) => look_status(show_capture(rt, alloc, viewer, input, output)),
        Ok(None) => refuse_words(output),
        Err(OutOfMemory) => OUT_OF_MEMORY,
    }
}

/// The exit status that an answer of showing a capture is.
fn look_status(answer: Result<bool, ShowFault>) -> u8
    ensures { result ≡ look_status answer }
{
    match answer {
        Ok(true) => DONE,
        Ok(false) => REFUSED,
        Err(fault) => fault_status(fault),
    }
}

/// The exit status that a fault is.
fn fault_status(fault: ShowFault) -> u8
    ensures { result ≡ fault_status fault }
{
    match fault {
        ShowFault::ReadFault => READ_FAULT,
        ShowFault::WriteFault => WRITE_FAULT,
        ShowFault::OutOfMemory => OUT_OF_MEMORY,
    }
}

/// Writes the usage line, and answers the status of words that name no viewer.
fn refuse_words<K: Sink>(output: &mut K) -> u8
    ensures { WritesUsage result (output_of K.Sink output.old) (output_of K.Sink output.new) }
{
    match put(output, USAGE) {
        Ok(()) => BAD_WORDS,
        Err(fault) => fault_status(fault),
    }
}
