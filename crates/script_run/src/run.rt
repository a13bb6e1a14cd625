ghost use Rattle.script_run.specs.Run.{ReadsCause, WritesCause};
ghost use Rattle.script_run.specs.Reading.{RunsLines};
ghost use Rattle.script_run.specs.Writing.{IsWriting};

use crate::course::Course;
use crate::fault::ScriptFault;
use crate::found::refuse_first;
use crate::lines::do_lines;
use crate::opening::{FirstLine, first_line};
use edge_io::{LineReader, Sink, Source};
use std::alloc::Global;

/// Reads a script, a line at a time, and writes what its lines write.
///
/// At most 65,536 bytes of that are held back, and none while the input is read, nor where the run has ended.
///
/// `Line` names the first line that breaks a rule and the least rule that it breaks. A `ReadFault` leaves exactly what the whole lines write that
/// the input had handed out, and a `WriteFault`, or want of memory, what the first lines write, of those that were done, and a front of what
/// the next line, or the script's end, writes.
pub fn run_course<C: Course, S: Source, K: Sink>(
    alloc: Global,
    input: &mut S,
    output: &mut K,
) -> Result<(), ScriptFault>
    requires { IsWriting C.writing }
    ensures lines { RunsLines result C.writing.script (S.left input.old) (S.left input.new) (K.told output.old) (K.told output.new) }
    ensures read { ReadsCause result (S.faults input.old) (S.faults input.new) }
    ensures write { WritesCause result (K.faults output.old) (K.faults output.new) }
{
    let mut reader = LineReader::new(alloc)?;
    match first_line(&mut reader, input) {
        FirstLine::Sized(size) => do_lines::<C, S, K>(alloc, &mut reader, input, output, size),
        FirstLine::Breaks(rule) => Err(refuse_first::<C, K>(alloc, output, rule)),
        FirstLine::Failed => Err(ScriptFault::ReadFault),
    }
}
