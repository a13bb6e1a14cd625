ghost use Rattle.script_run.specs.Run.{RunsScript, ReadsCause, WritesCause};

use crate::ScriptHost;
use crate::fault::ScriptFault;
use crate::run::run_course;
use edge_io::{Sink, Source};
use std::alloc::Global;

/// Reads a script, a line at a time, and writes its capture, a line for each step that was done.
///
/// At most 65,536 bytes of the capture are held back, and none while the input is read, nor where the run has ended.
///
/// `Line` names the first line that breaks a rule and the least rule that it breaks; the capture's last line says it too. A `ReadFault`
/// leaves exactly what the whole lines write that the input had handed out, and a `WriteFault`, or want of memory, what the first lines
/// write, of those that were done, and a front of what the next line, or the script's end, writes. From the second line on lines have
/// written their capture; behind the first alone nothing is written, as it isn't known who joins.
pub fn run_script<S: Source, K: Sink>(
    alloc: Global,
    input: &mut S,
    output: &mut K,
) -> Result<(), ScriptFault>
    // What is written is the script's capture: in it each viewer's bytes are never refused, and at each mark they show the picture, and
    // the pointer where the viewer has pointer cells, after exactly the journal entries that the frame's take found. A line is refused
    // exactly where it is the first that breaks a rule.
    // After a failed read exactly what the whole lines write stands there that the input had handed out; after a failed write, or want
    // of memory, what the first lines write, and then a front of what the next line, or the script's end, writes. Each viewer's marks
    // are then the first ones.
    ensures capture { RunsScript result (S.left input.old) (S.left input.new) (K.told output.old) (K.told output.new) }
    ensures read { ReadsCause result (S.faults input.old) (S.faults input.new) }
    ensures write { WritesCause result (K.faults output.old) (K.faults output.new) }
{
    run_course::<ScriptHost, S, K>(alloc, input, output)
}
