//! One line of a script: the rules that it may break, the least first, and what it asks for.
ghost use Rattle.std.specs.Prelude.{◌≡◌, ℕ, List, Some, IfOk};
ghost use Rattle.frame_rules.specs.Encoder.{Encoder};
ghost use Rattle.line_text.specs.Words.{words_of};
ghost use Rattle.script_rules.specs.Script.{ScriptReading, form_outcome};
ghost use Rattle.script_rules.specs.Script.LineForm.{InviteForm, JoinForm, StepForm};
ghost use Rattle.script_rules.specs.CaptureText.{Run};
ghost use Rattle.script_lines.specs.Keywords.{step_of};
ghost use Rattle.script_lines.specs.Lines.{IsStepInRange};
ghost use Rattle.script_run.specs.Outcomes.{outcome_within};
ghost use Rattle.script_run.specs.Standing.{Stands, IsInCourse};
ghost use Rattle.script_run.specs.Steps.{LineAnswered};
ghost use Rattle.script_run.specs.Texts.{text_of};

use crate::OutOfMemory;
use crate::course::Course;
use crate::text::Text;
use caps_sets::preset;
use script_lines::{LineForm, LineRule, ViewerStep, is_name, is_text_line, line_form};
use session_rules::Role;
use std::alloc::Global;

/// The most rows (profile).
const ROW_LIMIT: usize = 64;

/// Does what a line within the limits asks for, and appends what it writes; or answers the rule that it breaks.
///
/// Want of memory may leave the line's step half done: nothing more is to be asked then.
pub(crate) fn do_line<C: Course>(
    alloc: Global,
    out: &mut Text,
    course: &mut C,
    text: &[u8],
    ended: bool,
) -> Result<Option<LineRule>, OutOfMemory>
    requires { IsInCourse (C.keeps course.old) }
    ensures { IfOk result (λ broken. (r : ScriptReading) (run : Run Encoder) → Stands (C.seen course.old) (C.keeps course.old) r run
        → LineAnswered C.writing (outcome_within r text.now ended) broken r run (Stands (C.seen course.new) (C.keeps course.new)) (text_of out.old)
        (text_of out.new)) }
{
    if !is_text_line(text, ended) {
        return Ok(Some(LineRule::Text));
    }
    match line_form(alloc, text) {
        Ok(None) => Ok(Some(LineRule::Form)),
        Ok(Some(LineForm::Invite { name, role })) => invite(course, name, role),
        Ok(Some(LineForm::Join { name, preset })) => join(alloc, out, course, name, preset),
        Ok(Some(LineForm::Step { viewer, step })) => do_step(alloc, out, course, viewer, step),
        Err(fault) => Err(fault),
    }
}

/// Adds a row, before any step.
pub(crate) fn invite<C: Course>(
    course: &mut C,
    name: &[u8],
    role: Role,
) -> Result<Option<LineRule>, OutOfMemory>
    ensures { IfOk result (λ broken. (r : ScriptReading) (run : Run Encoder) (out : List ℕ) → Stands (C.seen course.old) (C.keeps course.old) r run
        → LineAnswered C.writing (form_outcome r (Some (InviteForm name.now role))) broken r run (Stands (C.seen course.new) (C.keeps course.new)) out out) }
{
    if course.has_begun() {
        return Ok(Some(LineRule::Order));
    }
    if !is_name(name) || course.is_invited(name) || course.row_count() >= ROW_LIMIT {
        return Ok(Some(LineRule::Name));
    }
    course.invite(name, role)?;
    Ok(None)
}

/// Lets a viewer join, where it may, and appends what that writes.
pub(crate) fn join<C: Course>(
    alloc: Global,
    out: &mut Text,
    course: &mut C,
    name: &[u8],
    words: &[u8],
) -> Result<Option<LineRule>, OutOfMemory>
    ensures { IfOk result (λ broken. (r : ScriptReading) (run : Run Encoder) → Stands (C.seen course.old) (C.keeps course.old) r run
        → LineAnswered C.writing (form_outcome r (Some (JoinForm name.now (words_of words.now)))) broken r run
        (Stands (C.seen course.new) (C.keeps course.new)) (text_of out.old) (text_of out.new)) }
{
    if !is_name(name) {
        return Ok(Some(LineRule::Name));
    }
    let Some(confirmed) = preset(words) else {
        return Ok(Some(LineRule::Preset));
    };
    out.join(alloc, course, name, words, confirmed)?;
    Ok(None)
}

/// Does a step of a viewer that is present, and appends what that writes.
fn do_step<C: Course>(
    alloc: Global,
    out: &mut Text,
    course: &mut C,
    viewer: u32,
    step: ViewerStep,
) -> Result<Option<LineRule>, OutOfMemory>
    requires range { IsStepInRange step }
    requires course { IsInCourse (C.keeps course.old) }
    ensures { IfOk result (λ broken. (r : ScriptReading) (run : Run Encoder) → Stands (C.seen course.old) (C.keeps course.old) r run
        → LineAnswered C.writing (form_outcome r (Some (StepForm viewer (step_of viewer step)))) broken r run
        (Stands (C.seen course.new) (C.keeps course.new)) (text_of out.old) (text_of out.new)) }
{
    if !course.present(viewer) {
        return Ok(Some(LineRule::Presence));
    }
    out.step(alloc, course, viewer, step)?;
    Ok(None)
}
