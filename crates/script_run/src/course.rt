//! What does the lines of a script, one after the other.
ghost use Rattle.std.specs.Prelude.{◌≡◌, ◌<◌, ◌++◌, [], length, false, IsTrue, IfOk, OnOk};
ghost use Rattle.px_core.specs.Rectangle.{is_session_size};
ghost use Rattle.line_text.specs.Words.{words_of};
ghost use Rattle.session_rules.specs.Steps.Step.{JoinStep};
ghost use Rattle.frame_rules.specs.Encoder.{Encoder};
ghost use Rattle.script_rules.specs.Script.{ScriptReading, is_name, is_invited, opened_reading, with_row, without_preset};
ghost use Rattle.script_rules.specs.CaptureText.{Run};
ghost use Rattle.script_lines.specs.Keywords.{step_of};
ghost use Rattle.script_lines.specs.Lines.{IsStepInRange, number_of_rule};
ghost use Rattle.script_run.specs.Answers.{frame_end};
ghost use Rattle.script_run.specs.Solo.{first_run};
ghost use Rattle.script_run.specs.Standing.{Seen, Stands, IsInCourse, DoesStep};
ghost use Rattle.script_run.specs.Writing.{Writing};

use crate::OutOfMemory;
use caps_sets::Confirmed;
use px_core::Size;
use script_lines::{LineRule, ViewerStep};
use session_rules::Role;
use std::alloc::Global;

/// A script in its course: first its rows come, then its steps. What each of these writes is appended to a buffer.
///
/// A step may give the bytes of a frame, whose digits and a line feed belong behind what it appended. Where an answer is want of memory, the
/// step may be done in part, and nothing more is to be asked.
pub trait Course: Drop {
    // What is written of the script's lines.
    ghost writing: { Writing };

    // Its size and rows, whether a step was asked for, and who is present.
    ghost seen: { Self → Seen };

    // For which readings of a script it stands, and for which runs.
    ghost keeps: { Self → ScriptReading → Run Encoder → Type 0 };

    /// A script of this size, of which no row was read.
    fn begin(alloc: Global, size: Size) -> Self
        requires { IsTrue (is_session_size size.w size.h) }
        ensures { Stands (seen result) (keeps result) (opened_reading size []) (first_run size) };

    /// Whether a step was asked for, so that no row may come.
    fn has_begun(&self) -> bool
        ensures { result ≡ (seen self.now).begun };

    /// How many rows there are.
    fn row_count(&self) -> usize
        ensures { result ≡ length (seen self.now).head.rows };

    /// Whether a row has this name.
    fn is_invited(&self, name: &[u8]) -> bool
        ensures { result ≡ is_invited name.now (seen self.now).head.rows };

    /// Whether a viewer is present.
    fn present(&self, viewer: u32) -> bool
        ensures { result ≡ (seen self.now).here viewer };

    /// A row comes, before any step: a viewer may join by this name, as this.
    fn invite(&mut self, name: &[u8], role: Role) -> Result<(), OutOfMemory>
        requires early { (seen self.old).begun ≡ false }
        requires name { IsTrue (is_name name.now) }
        requires fresh { is_invited name.now (seen self.old).head.rows ≡ false }
        requires room { length (seen self.old).head.rows < 64 }
        ensures { OnOk result ((r : ScriptReading) (run : Run Encoder) → Stands (seen self.old) (keeps self.old) r run
            → Stands (seen self.new) (keeps self.new) (with_row r (record { name = name.now; role = role })) run) };

    /// A viewer joins by a row that has this name, where it is let in; these are the words of its preset.
    fn join(
        &mut self,
        alloc: Global,
        out: &mut Vec<u8>,
        name: &[u8],
        preset: &[u8],
        confirmed: Confirmed,
    ) -> Result<Option<Vec<u8>>, OutOfMemory>
        requires { IsTrue (is_name name.now) }
        ensures { IfOk result (λ frame. (r : ScriptReading) (run : Run Encoder) → Stands (seen self.old) (keeps self.old) r run
            → DoesStep writing (Stands (seen self.new) (keeps self.new)) r run
            (record { step = JoinStep name.now; preset = words_of preset.now; confirmed = confirmed }) out.old.items (out.new.items ++ frame_end frame)) };

    /// A step of a viewer that is present.
    fn step(
        &mut self,
        alloc: Global,
        out: &mut Vec<u8>,
        viewer: u32,
        step: ViewerStep,
    ) -> Result<Option<Vec<u8>>, OutOfMemory>
        requires present { IsTrue ((seen self.old).here viewer) }
        requires range { IsStepInRange step }
        requires course { IsInCourse (keeps self.old) }
        ensures { IfOk result (λ frame. (r : ScriptReading) (run : Run Encoder) → Stands (seen self.old) (keeps self.old) r run
            → DoesStep writing (Stands (seen self.new) (keeps self.new)) r run (without_preset (step_of viewer step))
            out.old.items (out.new.items ++ frame_end frame)) };

    /// Line `k` breaks a rule, and ends the script.
    fn refuse(
        &self,
        alloc: Global,
        out: &mut Vec<u8>,
        k: u32,
        rule: LineRule,
    ) -> Result<(), OutOfMemory>
        ensures { OnOk result ((r : ScriptReading) (run : Run Encoder) → Stands (seen self.now) (keeps self.now) r run
            → out.new.items ≡ out.old.items ++ writing.broken k r (number_of_rule rule)) };

    /// No line is left.
    fn end(&self, out: &mut Vec<u8>) -> Result<(), OutOfMemory>
        ensures { OnOk result ((r : ScriptReading) (run : Run Encoder) → Stands (seen self.now) (keeps self.now) r run
            → out.new.items ≡ out.old.items ++ writing.end r) };

    /// A script's first line breaks a rule.
    fn refuse_first(alloc: Global, out: &mut Vec<u8>, rule: LineRule) -> Result<(), OutOfMemory>
        ensures { OnOk result (out.new.items ≡ out.old.items ++ writing.first (number_of_rule rule)) };
}
