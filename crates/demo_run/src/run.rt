ghost use Rattle.std.specs.Prelude.{IfErr, OnOk, OnErr};
ghost use Rattle.std.specs.Io.KnownBytes.{Appends};
ghost use Rattle.edge_io.specs.Sink.{WritesFront};
ghost use Rattle.script_run.specs.Run.{WritesCause};
ghost use Rattle.script_run.specs.Steps.{IsWriteFault};
ghost use Rattle.demo_run.specs.Counts.{demo_line};

use crate::OutOfMemory;
use crate::line::demo_line;
use edge_io::Sink;
use script_run::{ScriptFault, put};
use std::alloc::Global;

/// Runs the demonstration of a seed and a number of steps, and writes the line that counts its run: the steps, the entries of the journal,
/// the takes with work, the marks, primary orders and tiles that the viewers' clients read, the bytes that the viewers were sent, and the
/// steps that were refused. An `Err` leaves a front of the line there.
pub fn run_demo<K: Sink>(
    alloc: Global,
    seed: u64,
    steps: u32,
    output: &mut K,
) -> Result<(), ScriptFault>
    ensures written { OnOk result (Appends (K.told output.old) (K.told output.new) (demo_line seed steps)) }
    ensures front { OnErr result (WritesFront (K.told output.old) (K.told output.new) (demo_line seed steps)) }
    ensures fault { IfErr result IsWriteFault }
    ensures cause { WritesCause result (K.faults output.old) (K.faults output.new) }
{
    match demo_line(alloc, seed, steps) {
        Ok(line) => put(output, &line),
        Err(OutOfMemory) => Err(ScriptFault::OutOfMemory),
    }
}
