ghost use Rattle.std.specs.Prelude.{◌≡◌, ◌<◌, [], length, Some, IfOk, IfErr, OnOk, OnErr};
ghost use Rattle.std.specs.Io.KnownBytes.{Appends};
ghost use Rattle.edge_io.specs.Sink.{WritesFront};
ghost use Rattle.frame_rules.specs.Encoder.{Encoder};
ghost use Rattle.script_rules.specs.Script.{ScriptReading};
ghost use Rattle.script_rules.specs.CaptureText.{Run};
ghost use Rattle.script_lines.specs.Lines.{number_of_rule};
ghost use Rattle.script_run.specs.Run.{WritesCause};
ghost use Rattle.script_run.specs.Standing.{Stands, IsInCourse};
ghost use Rattle.script_run.specs.Steps.{DoesFound, FaultCause, IsWriteFault, Refuses, answer_of};
ghost use Rattle.script_run.specs.Texts.{text_of};

use crate::OutOfMemory;
use crate::course::Course;
use crate::fault::ScriptFault;
use crate::line::do_line;
use crate::text::Text;
use edge_io::{Found, Sink, Wrote};
use script_lines::LineRule;
use std::alloc::Global;

/// The number of the line that gives the size.
pub(crate) const FIRST: u32 = 1;

/// What was done where a line was found.
#[derive(Clone, Copy, Debug, PartialEq, Eq)]
pub(crate) enum Step {
    /// The line was done.
    Done,
    /// Nothing, since no line is left.
    NoLine,
    /// The line breaks this rule.
    Refused(LineRule),
}

/// Does what was found asks for, as line `k`, and appends what that writes. After want of memory nothing is said of the text.
pub(crate) fn do_found<C: Course>(
    alloc: Global,
    out: &mut Text,
    course: &mut C,
    k: u32,
    found: Found,
    text: &[u8],
) -> Result<Step, OutOfMemory>
    requires course { IsInCourse (C.keeps course.old) }
    requires read { found ≡ Found.Failed → ⊥ }
    ensures { IfOk result (λ step. (r : ScriptReading) (run : Run Encoder) → Stands (C.seen course.old) (C.keeps course.old) r run
        → DoesFound C.writing step found k r run (Stands (C.seen course.new) (C.keeps course.new)) text.now (Some (text_of out.old)) (Some (text_of out.new))) }
{
    let broken = match found {
        Found::Line { ended } => do_line(alloc, out, course, text, ended)?,
        Found::PastLimits => Some(LineRule::Text),
        Found::End | Found::Failed => {
            out.end(course)?;
            return Ok(Step::NoLine);
        }
    };
    match broken {
        Some(rule) => {
            out.refuse(alloc, course, k, rule)?;
            Ok(Step::Refused(rule))
        }
        None => Ok(Step::Done),
    }
}

/// What a script's run answers of a step that was done as line `k`, or whether it goes on.
pub(crate) fn answer(k: u32, step: Step) -> Result<bool, ScriptFault>
    ensures { result ≡ answer_of k step }
{
    match step {
        Step::Done => Ok(true),
        Step::NoLine => Ok(false),
        Step::Refused(rule) => Err(ScriptFault::Line {
            k,
            rule: rule.number(),
        }),
    }
}

/// Writes what a first line writes that breaks a rule, and answers so. After another answer a front of it stands in the output.
pub(crate) fn refuse_first<C: Course, K: Sink>(
    alloc: Global,
    output: &mut K,
    rule: LineRule,
) -> ScriptFault
    ensures done { Refuses C.writing result (number_of_rule rule) (K.told output.old) (K.told output.new) }
    ensures cause { FaultCause result (K.faults output.old) (K.faults output.new) }
{
    match write_first::<C, K>(alloc, output, rule) {
        Ok(()) => ScriptFault::Line {
            k: FIRST,
            rule: rule.number(),
        },
        Err(fault) => fault,
    }
}

/// Writes what a first line writes that breaks a rule.
fn write_first<C: Course, K: Sink>(
    alloc: Global,
    output: &mut K,
    rule: LineRule,
) -> Result<(), ScriptFault>
    ensures written { OnOk result (Appends (K.told output.old) (K.told output.new) (C.writing.first (number_of_rule rule))) }
    ensures front { OnErr result (WritesFront (K.told output.old) (K.told output.new) (C.writing.first (number_of_rule rule))) }
    ensures fault { IfErr result IsWriteFault }
    ensures cause { WritesCause result (K.faults output.old) (K.faults output.new) }
{
    let mut line = Vec::new(alloc);
    C::refuse_first(alloc, &mut line, rule)?;
    put(output, &line)
}

/// Writes bytes; where there are none the output isn't called, and it doesn't fail. An `Err` leaves a front of them there.
pub fn put<K: Sink>(output: &mut K, bytes: &[u8]) -> Result<(), ScriptFault>
    ensures written { OnOk result (Appends (K.told output.old) (K.told output.new) bytes.now) }
    ensures front { OnErr result (WritesFront (K.told output.old) (K.told output.new) bytes.now) }
    ensures fault { IfErr result IsWriteFault }
    ensures cause { WritesCause result (K.faults output.old) (K.faults output.new) }
    ensures untouched { bytes.now ≡ [] → output.new ≡ output.old }
    ensures some { OnErr result (0 < length bytes.now) }
{
    if bytes.is_empty() {
        return Ok(());
    }
    match output.write_all(bytes) {
        Wrote::All => Ok(()),
        Wrote::Failed => Err(ScriptFault::WriteFault),
        Wrote::OutOfMemory => Err(ScriptFault::OutOfMemory),
    }
}
