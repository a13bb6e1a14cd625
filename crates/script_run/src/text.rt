//! What lines of a script write, of which the digits of a frame at its end are made only when they are written.
ghost use Rattle.std.specs.Prelude.{◌≡◌, ◌++◌, ◌*◌, ◌≤◌, [], None, length, IsTrue, IfErr, OnOk, OnErr};
ghost use Rattle.line_text.specs.Hexadecimal.{hexadecimal_text};
ghost use Rattle.line_text.specs.Words.{words_of};
ghost use Rattle.edge_io.specs.Sink.{WritesFront};
ghost use Rattle.session_rules.specs.Steps.Step.{JoinStep};
ghost use Rattle.frame_rules.specs.Encoder.{Encoder};
ghost use Rattle.script_rules.specs.Script.{ScriptReading, is_name, without_preset};
ghost use Rattle.script_rules.specs.Capture.{ended};
ghost use Rattle.script_rules.specs.CaptureText.{Run};
ghost use Rattle.script_lines.specs.Keywords.{step_of};
ghost use Rattle.script_lines.specs.Lines.{IsStepInRange, number_of_rule};
ghost use Rattle.script_run.specs.Held.{Holds};
ghost use Rattle.script_run.specs.Run.{WritesCause};
ghost use Rattle.script_run.specs.Standing.{Stands, IsInCourse, DoesStep};
ghost use Rattle.script_run.specs.Steps.{IsWriteFault};
ghost use Rattle.script_run.specs.Texts.{text_of};

use crate::OutOfMemory;
use crate::course::Course;
use crate::fault::ScriptFault;
use crate::page::{Page, hold};
use caps_sets::Confirmed;
use edge_io::Sink;
use script_lines::{LineRule, ViewerStep, append_hexadecimals, write_digits};
use std::alloc::Global;

/// What ends a line.
const LINE_FEED: u8 = b'\n';

/// How many bytes of a frame are written at once.
const PIECE: usize = 1_024;

/// What lines write. A frame's bytes at its end stand for their digits and a line feed, of which a large picture's frame has 25 million.
#[derive(Drop)]
pub(crate) struct Text {
    words: Vec<u8>,
    frame: Option<Vec<u8>>,
}

impl Text {
    /// No lines.
    pub(crate) fn new(alloc: Global) -> Text
        ensures { text_of result ≡ [] }
    {
        Text {
            words: Vec::new(alloc),
            frame: None,
        }
    }

    /// Appends what the join of a viewer writes. After want of memory nothing is said of the text.
    pub(crate) fn join<C: Course>(
        &mut self,
        alloc: Global,
        course: &mut C,
        name: &[u8],
        preset: &[u8],
        confirmed: Confirmed,
    ) -> Result<(), OutOfMemory>
        requires { IsTrue (is_name name.now) }
        ensures { OnOk result ((r : ScriptReading) (run : Run Encoder) → Stands (C.seen course.old) (C.keeps course.old) r run
            → DoesStep C.writing (Stands (C.seen course.new) (C.keeps course.new)) r run
            (record { step = JoinStep name.now; preset = words_of preset.now; confirmed = confirmed }) (text_of self.old) (text_of self.new)) }
    {
        self.settle()?;
        self.frame = course.join(alloc, &mut self.words, name, preset, confirmed)?;
        Ok(())
    }

    /// Appends what a step of a viewer writes that is present. After want of memory nothing is said of the text.
    pub(crate) fn step<C: Course>(
        &mut self,
        alloc: Global,
        course: &mut C,
        viewer: u32,
        step: ViewerStep,
    ) -> Result<(), OutOfMemory>
        requires present { IsTrue ((C.seen course.old).here viewer) }
        requires range { IsStepInRange step }
        requires course { IsInCourse (C.keeps course.old) }
        ensures { OnOk result ((r : ScriptReading) (run : Run Encoder) → Stands (C.seen course.old) (C.keeps course.old) r run
            → DoesStep C.writing (Stands (C.seen course.new) (C.keeps course.new)) r run (without_preset (step_of viewer step))
            (text_of self.old) (text_of self.new)) }
    {
        self.settle()?;
        self.frame = course.step(alloc, &mut self.words, viewer, step)?;
        Ok(())
    }

    /// Appends what line `k` writes, which breaks a rule. After want of memory nothing is said of the text.
    pub(crate) fn refuse<C: Course>(
        &mut self,
        alloc: Global,
        course: &C,
        k: u32,
        rule: LineRule,
    ) -> Result<(), OutOfMemory>
        ensures { OnOk result ((r : ScriptReading) (run : Run Encoder) → Stands (C.seen course.now) (C.keeps course.now) r run
            → text_of self.new ≡ text_of self.old ++ C.writing.broken k r (number_of_rule rule)) }
    {
        self.settle()?;
        course.refuse(alloc, &mut self.words, k, rule)
    }

    /// Appends what the end of the script writes. After want of memory nothing is said of the text.
    pub(crate) fn end<C: Course>(&mut self, course: &C) -> Result<(), OutOfMemory>
        ensures { OnOk result ((r : ScriptReading) (run : Run Encoder) → Stands (C.seen course.now) (C.keeps course.now) r run
            → text_of self.new ≡ text_of self.old ++ C.writing.end r) }
    {
        self.settle()?;
        course.end(&mut self.words)
    }

    /// Makes the digits of a frame that stands at the end, since more lines follow.
    fn settle(&mut self) -> Result<(), OutOfMemory>
        ensures same { OnOk result (text_of self.new ≡ text_of self.old) }
        ensures settled { OnOk result (self.new.frame ≡ None) }
    {
        if let Some(bytes) = self.frame.take() {
            append_hexadecimals(&mut self.words, &bytes)?;
            self.words.push(LINE_FEED)?;
        }
        Ok(())
    }
}

/// Holds back a text for the output, or writes it where there is no room; a frame's digits go a piece at a time. An `Err` holds nothing back, and
/// leaves a front of all that in the output.
pub(crate) fn hold_text<K: Sink>(
    output: &mut K,
    page: &mut Page,
    text: &Text,
) -> Result<(), ScriptFault>
    ensures held { OnOk result (Holds (K.told output.old) (K.told output.new) page.old page.new (text_of text.now)) }
    ensures front { OnErr result (WritesFront (K.told output.old) (K.told output.new) (page.old ++ text_of text.now)) }
    ensures empty { OnErr result (page.new ≡ []) }
    ensures fault { IfErr result IsWriteFault }
    ensures cause { WritesCause result (K.faults output.old) (K.faults output.new) }
{
    hold(output, page, &text.words)?;
    match &text.frame {
        None => Ok(()),
        Some(bytes) => hold_frame(output, page, bytes),
    }
}

/// The same of a frame's digits and a line feed.
fn hold_frame<K: Sink>(output: &mut K, page: &mut Page, bytes: &[u8]) -> Result<(), ScriptFault>
    ensures held { OnOk result (Holds (K.told output.old) (K.told output.new) page.old page.new (ended (hexadecimal_text bytes.now))) }
    ensures front { OnErr result (WritesFront (K.told output.old) (K.told output.new) (page.old ++ ended (hexadecimal_text bytes.now))) }
    ensures empty { OnErr result (page.new ≡ []) }
    ensures fault { IfErr result IsWriteFault }
    ensures cause { WritesCause result (K.faults output.old) (K.faults output.new) }
{
    let mut rest = bytes;
    while !rest.is_empty() {
        let (piece, others) = rest.split_at(rest.len().min(PIECE));
        hold_piece(output, page, piece)?;
        rest = others;
    }
    hold(output, page, &[LINE_FEED])
}

/// The same of the digits of a piece.
fn hold_piece<K: Sink>(output: &mut K, page: &mut Page, piece: &[u8]) -> Result<(), ScriptFault>
    requires { length piece.now ≤ PIECE }
    ensures held { OnOk result (Holds (K.told output.old) (K.told output.new) page.old page.new (hexadecimal_text piece.now)) }
    ensures front { OnErr result (WritesFront (K.told output.old) (K.told output.new) (page.old ++ hexadecimal_text piece.now)) }
    ensures empty { OnErr result (page.new ≡ []) }
    ensures fault { IfErr result IsWriteFault }
    ensures cause { WritesCause result (K.faults output.old) (K.faults output.new) }
{
    let mut room = [0; 2 * PIECE];
    let digits = &mut room[..2 * piece.len()];
    write_digits(digits, piece);
    hold(output, page, digits)
}
