//! Command lines of `rdp_host` and of `rdp_look` that are run whole: the status, and what is written.

use crate::expected::first_difference;
use crate::files;
use crate::row::number;
use crate::serves::gate_of;
use crate::turns::otherwise;
use crate::verdict::{Found, Trouble, Way};
use crate::words::strings_of;
use edge_io::{PlanSink, PlanSource};
use host_program::top;
use look_program::look_top;
use std::rt::Files;
use std::sync::Wait;
use std::thread::Threads;

/// The word for no fault and for no bytes.
const NONE: &str = "none";

/// The words for a first read and a first write that fail, and what stands before the number of a gate's call that does.
const READ: &str = "read";

const WRITE: &str = "write";

const GATE: &str = "gate-";

/// What stands before the words of one line, and between them.
const LINE: &str = "=";

const BETWEEN: char = '+';

/// How a file's name ends that has hexadecimal text.
const RECORD: &str = "record";

const HEXADECIMAL: &str = ".record";

/// A command line with its input, the calls that fail, and what it comes to.
#[derive(Drop)]
struct Command {
    words: Vec<String>,
    input: PlanSource,
    output: PlanSink,
    // The calls of a gate that fail.
    calls: Vec<u32>,
    status: u8,
    written: Vec<u8>,
}

/// Runs a command line of `rdp_host` beside a gate with one link, whose client says nothing.
pub fn run_host<R: Files + AllocGlobal + Threads + Wait + Sync>(
    rt: &R,
    words: &[&str],
) -> Result<(), Trouble> {
    let alloc = rt.alloc();
    let Command {
        words,
        mut input,
        mut output,
        calls,
        status,
        written,
    } = command_of(rt, words)?;
    let mut gate = gate_of(alloc, Vec::new(alloc), Vec::new(alloc), calls)?;
    let ended = top(rt, alloc, &words, &mut input, &mut output, &mut gate);
    must_end(ended, status, &output, &written)
}

/// Runs a command line of `rdp_look`.
pub fn run_look<R: Files + AllocGlobal + Wait>(rt: &R, words: &[&str]) -> Result<(), Trouble> {
    let Command {
        words,
        mut input,
        mut output,
        calls: _,
        status,
        written,
    } = command_of(rt, words)?;
    let ended = look_top(rt, rt.alloc(), &words, &mut input, &mut output);
    must_end(ended, status, &output, &written)
}

/// The command line of a row, by its words: STATUS FAULT INPUT OUTPUT, and those of the command line.
fn command_of<R: Files + AllocGlobal>(rt: &R, words: &[&str]) -> Result<Command, Trouble> {
    let [status, fault, input, output, behind @ ..] = words else {
        return Err(Trouble::NoForm);
    };
    let alloc = rt.alloc();
    Ok(Command {
        words: strings_of(alloc, behind)?,
        input: PlanSource::new(
            bytes_of(rt, input)?,
            Vec::new(alloc),
            vec![in alloc; 1; usize::from(*fault == READ)]?,
        ),
        output: PlanSink::new(alloc, vec![in alloc; 1; usize::from(*fault == WRITE)]?),
        calls: calls_of(rt, fault)?,
        status: number(status, u8::MAX.into())? as u8,
        written: bytes_of(rt, output)?,
    })
}

/// The calls of a gate that fail.
fn calls_of<R: AllocGlobal>(rt: &R, fault: &str) -> Result<Vec<u32>, Trouble> {
    if let Some(call) = fault.strip_prefix(GATE) {
        let call = number(call, u32::MAX.into())? as u32;
        return Ok(vec![in rt.alloc(); call; 1]?);
    }
    if fault == NONE || fault == READ || fault == WRITE {
        Ok(Vec::new(rt.alloc()))
    } else {
        Err(Trouble::NoForm)
    }
}

/// The bytes that a word stands for: none, one line of words, or those of a file.
fn bytes_of<R: Files + AllocGlobal>(rt: &R, word: &str) -> Result<Vec<u8>, Trouble> {
    let alloc = rt.alloc();
    if word == NONE {
        return Ok(Vec::new(alloc));
    }
    if let Some(line) = word.strip_prefix(LINE) {
        let words = line.split(BETWEEN).collect::<Vec<&str>>(alloc)?;
        let line = words.join(alloc, " ")?;
        return Ok(format!(in alloc; "{line}\n")?.into_bytes());
    }
    match word.strip_suffix(HEXADECIMAL) {
        Some(name) => files::read_hex(rt, name, RECORD),
        None => files::read(rt, word),
    }
}

/// A command must end with its status, and have written just this.
fn must_end(ended: u8, status: u8, output: &PlanSink, written: &[u8]) -> Result<(), Trouble> {
    if ended != status {
        return otherwise(Way::Whole, Found::Number(ended.into()));
    }
    match first_difference(output.bytes(), written) {
        Some(at) => otherwise(Way::Whole, Found::Byte(at)),
        None => Ok(()),
    }
}
