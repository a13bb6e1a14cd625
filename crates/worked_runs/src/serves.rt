//! Clients' streams that come by the one link of a gate, with the line of that link.

ghost use Rattle.std.specs.Prelude.{◌≡◌, [], false, IfOk};

use crate::expected::first_difference;
use crate::files;
use crate::row::number;
use crate::streams::STREAM;
use crate::turns::otherwise;
use crate::verdict::{Found, Trouble, Way};
use crate::words::command_line;
use edge_io::{Bytes, Keep, MemLink, PlanGate, PlanSink, PlanSource};
use host_program::top;
use std::alloc::Global;
use std::rt::Files;
use std::sync::Wait;
use std::thread::Threads;

/// The mode, the port, and how many links the gate is asked for.
const SERVE: &str = "serve";

const PORT: &str = "3389";

const LINKS: &str = "1";

/// The status of a service that came to the gate's end.
const DONE: u8 = 0;

/// Serves a client over a gate in memory, where the write of this number fails, and none for 0, and compares what is printed with the
/// line of its link.
pub fn run_row<R: Files + AllocGlobal + Threads + Wait + Sync>(
    rt: &R,
    words: &[&str],
) -> Result<(), Trouble> {
    let [name, call, w, h, owner, line @ ..] = words else {
        return Err(Trouble::NoForm);
    };
    let alloc = rt.alloc();
    let stream = files::read_hex(rt, name, STREAM)?;
    let call = number(call, u32::MAX.into())? as u32;
    let writes = vec![in alloc; call; 1]?;
    let mut gate = gate_of(alloc, stream, writes, Vec::new(alloc))?;
    let mut input = Bytes::new(Vec::new(alloc), Vec::new(alloc));
    let mut output = Keep::new(alloc);
    let asked = command_line(alloc, &[SERVE, PORT, w, h, LINKS, owner])?;
    let status = top(rt, alloc, &asked, &mut input, &mut output, &mut gate);
    if status != DONE {
        return otherwise(Way::Whole, Found::Number(status.into()));
    }
    match first_difference(output.bytes(), &line_of(alloc, line)?) {
        Some(at) => otherwise(Way::Whole, Found::Byte(at)),
        None => Ok(()),
    }
}

/// A gate with a link that has this stream, and whose writes of these numbers fail, as the gate's calls of others do.
pub fn gate_of(
    alloc: Global,
    stream: Vec<u8>,
    writes: Vec<u32>,
    calls: Vec<u32>,
) -> Result<PlanGate, Trouble>
    ensures unused { IfOk result (λ gate. gate.given ≡ []) }
    ensures open { IfOk result (λ gate. gate.ended ≡ false) }
{
    let link = MemLink {
        reader: PlanSource::new(stream, Vec::new(alloc), Vec::new(alloc)),
        writer: PlanSink::new(alloc, writes),
    };
    let mut links = Vec::with_capacity(alloc, 1)?;
    links.push_reserved(link);
    match PlanGate::new(alloc, links, calls) {
        Ok(gate) => Ok(gate),
        Err(_) => Err(Trouble::OutOfMemory),
    }
}

/// The line of the first link, whose number stands before these words.
fn line_of(alloc: Global, words: &[&str]) -> Result<Vec<u8>, Trouble> {
    let mut line = Vec::from_slice(alloc, b"1")?;
    for word in words {
        line.extend_from_slice(b" ")?;
        line.extend_from_slice(word.as_bytes())?;
    }
    line.extend_from_slice(b"\n")?;
    Ok(line)
}
