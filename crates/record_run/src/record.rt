ghost use Rattle.script_run.specs.Run.{ReadsCause, WritesCause};
ghost use Rattle.record_run.specs.Run.{RecordsScript};

use crate::recorder::Recorder;
use edge_io::{Sink, Source};
use script_run::{ScriptFault, run_course};
use std::alloc::Global;

/// Reads a script, a line at a time, and writes its journal as a record: the head at the first step, or at the end, and each entry behind
/// the step that appends it. Frames are neither made nor written.
///
/// At most 65,536 bytes of the record are held back, and none while the input is read, nor where the run has ended.
///
/// `Line` names the first line that breaks a rule and the least rule that it breaks; the record ends there, and where it is the first line
/// nothing is written. A `ReadFault` leaves exactly what the whole lines write that the input had handed out, and a `WriteFault`, or want of
/// memory, what the lines done write and a front of what the next line, or the script's end, writes.
pub fn record_script<S: Source, K: Sink>(
    alloc: Global,
    input: &mut S,
    output: &mut K,
) -> Result<(), ScriptFault>
    // What is written is the record of the script's size, its rows and the journal of its steps, up to the first line that breaks a rule,
    // and nothing where that is the first one. After a fault, and after want of memory, a front of it stands there.
    ensures record { RecordsScript result (S.left input.old) (S.left input.new) (K.told output.old) (K.told output.new) }
    ensures read { ReadsCause result (S.faults input.old) (S.faults input.new) }
    ensures write { WritesCause result (K.faults output.old) (K.faults output.new) }
{
    run_course::<Recorder, S, K>(alloc, input, output)
}
