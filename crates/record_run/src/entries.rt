//! What is asked of a session, with the entry that it appends.

ghost use Rattle.std.specs.Prelude.{◌≡◌, ◌++◌, ◌≤◌, List, length, IsTrue, OnOk, Option, option_to_list};
ghost use Rattle.draw_ops.specs.Ranges.{HasColors};
ghost use Rattle.session_rules.specs.declared.entry.Entry.{Entry};
ghost use Rattle.session_rules.specs.Steps.Step.{JoinStep, LeaveStep, InputStep, DrawStep};
ghost use Rattle.session_core.specs.SessionModel.{is_here};
ghost use Rattle.script_lines.specs.Keywords.{step_of};
ghost use Rattle.script_lines.specs.Lines.{IsStepInRange};
ghost use Rattle.record_rules.specs.Tables.{entries_bytes};
ghost use Rattle.record_run.specs.Recorders.{Enters, Records};

use crate::OutOfMemory;
use draw_ops::Drawing;
use info_lic::Name;
use input_pdu::Event;
use record_file::write_entry;
use script_lines::ViewerStep;
use session_core::{DrawRefusal, InputRefusal, JoinFault, Session};

/// A viewer joins, where it may, and its entry is written.
pub(crate) fn join(session: &mut Session, name: &Name, out: &mut Vec<u8>) -> Result<(), OutOfMemory>
    ensures head { session.new.head ≡ session.old.head }
    ensures done { OnOk result (Records (JoinStep name.now) session.old session.new out.old.items out.new.items) }
{
    let before = session.length();
    if let Err(JoinFault::OutOfMemory) = session.join(name) {
        return Err(OutOfMemory);
    }
    write_next(session, before, out)
}

/// A step of a viewer that is present, where it may be, and its entry is written. What is kept of viewers for their frames stays, since no
/// entry stands on it.
pub(crate) fn do_step(
    session: &mut Session,
    viewer: u32,
    step: ViewerStep,
    out: &mut Vec<u8>,
) -> Result<(), OutOfMemory>
    requires present { IsTrue (is_here session.old viewer) }
    requires range { IsStepInRange step }
    ensures head { session.new.head ≡ session.old.head }
    ensures done { OnOk result (Records (step_of viewer step) session.old session.new out.old.items out.new.items) }
{
    let before = session.length();
    match step {
        ViewerStep::Leave => session.leave(viewer),
        ViewerStep::Input { event } => input(session, viewer, event)?,
        ViewerStep::Draw { drawing } => draw(session, viewer, drawing)?,
        ViewerStep::Take | ViewerStep::Suppress { .. } | ViewerStep::Refresh { .. } => {}
    }
    write_next(session, before, out)
}

/// An input event of a viewer, where it may be.
fn input(session: &mut Session, viewer: u32, event: Event) -> Result<(), OutOfMemory>
    requires { IsTrue (is_here session.old viewer) }
    ensures head { session.new.head ≡ session.old.head }
    ensures done { OnOk result (Enters (InputStep viewer event) session.old session.new) }
{
    if let Err(InputRefusal::OutOfMemory) = session.input(viewer, event) {
        return Err(OutOfMemory);
    }
    Ok(())
}

/// A drawing of a viewer, where it may be.
fn draw(session: &mut Session, viewer: u32, drawing: Drawing) -> Result<(), OutOfMemory>
    requires present { IsTrue (is_here session.old viewer) }
    requires colors { HasColors drawing }
    ensures head { session.new.head ≡ session.old.head }
    ensures done { OnOk result (Enters (DrawStep viewer drawing) session.old session.new) }
{
    if let Err(DrawRefusal::OutOfMemory) = session.draw(viewer, drawing) {
        return Err(OutOfMemory);
    }
    Ok(())
}

/// Writes the entry behind the first ones, where there is one.
fn write_next(session: &Session, before: u64, out: &mut Vec<u8>) -> Result<(), OutOfMemory>
    ensures { OnOk result ((j : List Entry) (entry : Option Entry) → session.now.journal ≡ j ++ option_to_list entry → length j ≡ before
        → out.new.items ≡ out.old.items ++ entries_bytes (option_to_list entry)) }
{
    if before >= session.length() {
        return Ok(());
    }
    session.recall_legal();
    write_entry(out, session.entry(before))
}
