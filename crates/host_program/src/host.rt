ghost use Rattle.std.specs.Prelude.{◌≡◌, [], false, Some, None, map, string_bytes};
ghost use Rattle.edge_io.specs.Outside.{output_of, outside_of};
ghost use Rattle.gate_run.specs.Gates.{gate_state};
ghost use Rattle.host_program.specs.declared.mode.Mode.{Mode};
ghost use Rattle.host_program.specs.Mode.{mode_of, reads_input, reads_if, opens_gate, opens_if, IsRunnable};
ghost use Rattle.host_program.specs.Statuses.{script_status};
ghost use Rattle.host_program.specs.Top.{RunsMode, WritesUsage};

use crate::answering::answer_status;
use crate::hosting::host_links;
use crate::mode::{Mode, mode_of};
use crate::recording::replay_status;
use answer_run::run_answer;
use command_words::OutOfMemory;
use command_words::status::{BAD_WORDS, DONE, OUT_OF_MEMORY, READ_FAULT, REFUSED, WRITE_FAULT};
use demo_run::run_demo;
use edge_io::{Gate, Sink, Source};
use record_run::{record_script, replay_record};
use script_run::{ScriptFault, put, run_script};
use std::alloc::Global;
use std::sync::Wait;
use std::thread::Threads;

/// What is printed where the words ask for no mode.
const USAGE: &[u8] = b"usage: rdp_host MODE ARGS\n";

/// The whole program, over any input, output and gate; the answer is its exit status. The words begin with the program's name.
///
/// The words are read by `clap` as one simple command with a mode and its arguments. `script` reads a script from the input and writes
/// its capture to the output. `answer W H OWNER` serves one client, whose bytes come from the input, and whose answer goes to the output.
/// `demo SEED STEPS` runs the demonstration load and writes the line that counts its run. `serve PORT W H LINKS OWNER GUEST ..` serves
/// at most LINKS links of the gate, opened at PORT, each in a thread of its own, over one session; when all of them have ended it writes
/// the line of each. `record` reads a script and writes its journal as a record, and `replay N` reads a record and writes the picture after N
/// of its entries. Other words write the usage line. Only `script`, `answer`, `record` and `replay` touch the input, and only `serve` the gate.
pub fn top<R: Threads + Wait + Sync, S: Source, K: Sink, G: Gate>(
    rt: &R,
    alloc: Global,
    words: &[String],
    input: &mut S,
    output: &mut K,
    gate: &mut G,
) -> u8
    requires unused { G.given gate.old ≡ [] }
    requires open { G.ended gate.old ≡ false }
    // What the words ask for was done. In the modes `script` and `answer`, and for each link of `serve`: whatever the script, the client's
    // stream or the links, and however joins, inputs, drawings, refreshes, takes and departures stand among each other, each viewer's bytes
    // in what is written are never refused, and each mark shows the picture after exactly the journal entries that the frame's take found;
    // each change was made by the holder of control. The lines of the links' reports stand in the links' order. The record is that of the
    // script's size, rows and journal; the picture of a replay that after so many entries; the demonstration's line has its run's counts.
    // After a fault or want of memory what was written is a front of it, as each mode's part says.
    ensures mode { (mode : Mode) → mode_of (map string_bytes words.now) ≡ Some mode → RunsMode mode result
        (outside_of S.Source K.Sink input.old output.old) (outside_of S.Source K.Sink input.new output.new)
        (gate_state G.Gate G.Link.Link gate.old) (gate_state G.Gate G.Link.Link gate.new) }
    ensures usage { mode_of (map string_bytes words.now) ≡ None
        → WritesUsage result (output_of K.Sink output.old) (output_of K.Sink output.new) }
    ensures input { reads_if (mode_of (map string_bytes words.now)) ≡ false → input.new ≡ input.old }
    ensures gate { opens_if (mode_of (map string_bytes words.now)) ≡ false → gate.new ≡ gate.old }
{
    match mode_of(alloc, words) {
        Ok(Some(mode)) => run(rt, alloc, mode, input, output, gate),
        Ok(None) => refuse_words(output),
        Err(OutOfMemory) => OUT_OF_MEMORY,
    }
}

/// Does what a mode asks for, and answers the exit status.
fn run<R: Threads + Wait + Sync, S: Source, K: Sink, G: Gate>(
    rt: &R,
    alloc: Global,
    mode: Mode,
    input: &mut S,
    output: &mut K,
    gate: &mut G,
) -> u8
    requires runnable { IsRunnable mode }
    requires unused { G.given gate.old ≡ [] }
    requires open { G.ended gate.old ≡ false }
    ensures mode { RunsMode mode result
        (outside_of S.Source K.Sink input.old output.old) (outside_of S.Source K.Sink input.new output.new)
        (gate_state G.Gate G.Link.Link gate.old) (gate_state G.Gate G.Link.Link gate.new) }
    ensures input { reads_input mode ≡ false → input.new ≡ input.old }
    ensures gate { opens_gate mode ≡ false → gate.new ≡ gate.old }
{
    match mode {
        Mode::Script => status(run_script(alloc, input, output)),
        Mode::Record => status(record_script(alloc, input, output)),
        Mode::Answer(client) => {
            answer_status(run_answer(alloc, client.size, &client.owner, input, output))
        }
        Mode::Demo(load) => status(run_demo(alloc, load.seed, load.steps, output)),
        Mode::Replay(stop) => replay_status(replay_record(rt, alloc, stop, input, output)),
        Mode::Serve(hosting) => host_links(rt, alloc, &hosting, output, gate),
    }
}

/// The exit status that an answer of a script's run is.
pub(crate) fn status(answer: Result<(), ScriptFault>) -> u8
    ensures { result ≡ script_status answer }
{
    match answer {
        Ok(()) => DONE,
        Err(ScriptFault::Line { .. }) => REFUSED,
        Err(ScriptFault::ReadFault) => READ_FAULT,
        Err(ScriptFault::WriteFault) => WRITE_FAULT,
        Err(ScriptFault::OutOfMemory) => OUT_OF_MEMORY,
    }
}

/// Writes the usage line, and answers the status of words that ask for no mode.
fn refuse_words<K: Sink>(output: &mut K) -> u8
    ensures { WritesUsage result (output_of K.Sink output.old) (output_of K.Sink output.new) }
{
    match put(output, USAGE) {
        Ok(()) => BAD_WORDS,
        Err(fault) => status(Err(fault)),
    }
}
