//! The mode `serve`: a gate's links are served over one session, and then the line of each is written.

ghost use Rattle.std.specs.Prelude.{◌≡◌, [], false};
ghost use Rattle.edge_io.specs.Outside.{output_of};
ghost use Rattle.gate_run.specs.Gates.{gate_state};
ghost use Rattle.host_program.specs.Serving.{IsHostable};
ghost use Rattle.host_program.specs.Hosting.{PrintsLinks, RunsServe, failed_status, served_status};

use crate::host::status;
use crate::links::put_links;
use crate::serving::Hosting;
use command_words::status::{OUT_OF_MEMORY, PORT_FAULT};
use edge_io::{Gate, Sink};
use gate_run::{GateEnd, serve_gate};
use script_run::ScriptFault;
use serve_rules::ConnReport;
use session_core::Session;
use std::alloc::Global;
use std::sync::Wait;
use std::thread::Threads;

/// Serves what the words ask for, and answers the exit status.
#[tactic(auto, using(crate::proofs::Changed::changed))]
pub(crate) fn host_links<R: Threads + Wait + Sync, K: Sink, G: Gate>(
    rt: &R,
    alloc: Global,
    hosting: &Hosting,
    output: &mut K,
    gate: &mut G,
) -> u8
    requires hostable { IsHostable hosting.now }
    requires unused { G.given gate.old ≡ [] }
    requires open { G.ended gate.old ≡ false }
    ensures { RunsServe result hosting.now (gate_state G.Gate G.Link.Link gate.old) (gate_state G.Gate G.Link.Link gate.new)
        (output_of K.Sink output.old) (output_of K.Sink output.new) }
{
    let Ok(session) = Session::new(alloc, hosting.size, &hosting.rows) else {
        return OUT_OF_MEMORY;
    };
    match serve_gate(rt, alloc, session, hosting.port, hosting.links, gate) {
        Ok(served) => print_links(alloc, output, &served.reports, served.end),
        Err(_) => OUT_OF_MEMORY,
    }
}

/// Writes the line of each link after the gate's end, unless the gate couldn't be opened, and answers the exit status. Where the gate
/// failed it is that of its fault, also where the output fails; but not where memory was wanted for the lines.
fn print_links<K: Sink>(alloc: Global, output: &mut K, reports: &[ConnReport], end: GateEnd) -> u8
    ensures { PrintsLinks result end reports.now (output_of K.Sink output.old) (output_of K.Sink output.new) }
{
    match end {
        GateEnd::Ended | GateEnd::Failed => served_status(end, put_links(alloc, output, reports)),
        GateEnd::NoListen => PORT_FAULT,
    }
}

/// The exit status, by how the gate ended and by the answer of writing the links' lines.
fn served_status(end: GateEnd, answer: Result<(), ScriptFault>) -> u8
    ensures { result ≡ served_status end answer }
{
    match end {
        GateEnd::Ended => status(answer),
        GateEnd::Failed => failed_status(answer),
        GateEnd::NoListen => PORT_FAULT,
    }
}

/// The exit status after a gate that failed, by the answer of writing the links' lines.
fn failed_status(answer: Result<(), ScriptFault>) -> u8
    ensures { result ≡ failed_status answer }
{
    match answer {
        Ok(()) => PORT_FAULT,
        Err(ScriptFault::Line { .. }) => PORT_FAULT,
        Err(ScriptFault::ReadFault) => PORT_FAULT,
        Err(ScriptFault::WriteFault) => PORT_FAULT,
        Err(ScriptFault::OutOfMemory) => OUT_OF_MEMORY,
    }
}
