//! The steps of a client's stream that follow Ready, each in a turn of its own.
ghost use Rattle.std.specs.Prelude.{◌≡◌, ◌<◌, ◌∷◌, [], List, IfOk};
ghost use Rattle.conn_rules.specs.declared.conn_step.ConnStep.{ConnStep};
ghost use Rattle.conn_rules.specs.Placed.{IsStepPlaced, ArePlaced};
ghost use Rattle.grow_lock.specs.Passes.{IsPassOf};
ghost use Rattle.serve_rules.specs.Notices.{notice_in};
ghost use Rattle.serve_rules.specs.Reading.{HasTurns, HasTurnsOf};
ghost use Rattle.viewer_run.specs.Doing.{NotesPlace, EventDone, StepDone, StepsFront, WholeIfOk};

use crate::turns::{handle_event, refresh, suppress};
use crate::{Noted, OutOfMemory, Stay};
use conn_rules::ConnStep;
use grow_lock::Pass;
use input_pdu::Event;
use session_core::Session;
use std::sync::Wait;

/// Does steps one after the other, as far as memory suffices. Room for one more place is kept.
pub fn do_steps<R: Wait>(
    stay: &Stay<'_, R>,
    pass: Pass<Session>,
    steps: &[ConnStep],
    noted: &mut Noted,
) -> (Pass<Session>, Result<(), OutOfMemory>)
    requires lock { IsPassOf stay.now.lock.now pass }
    requires placed { ArePlaced steps.now }
    requires room { 0 < noted.old.places.room }
    ensures lock { IsPassOf stay.now.lock.now result.0 }
    ensures room { 0 < noted.new.places.room }
    ensures done { (undone : List ConnStep) × StepsFront stay.now.lock.now.head stay.now.v steps.now undone pass result.0 noted.old noted.new
        × WholeIfOk result.1 undone }
    ensures turns { IfOk result.1 (λ done. HasTurnsOf steps.now pass result.0) }
{
    let mut now = pass;
    for step in steps {
        let (next, done) = do_step(stay, now, *step, noted);
        now = next;
        if done.is_err() {
            return (now, done);
        }
    }
    (now, Ok(()))
}

/// Does one step.
fn do_step<R: Wait>(
    stay: &Stay<'_, R>,
    pass: Pass<Session>,
    step: ConnStep,
    noted: &mut Noted,
) -> (Pass<Session>, Result<(), OutOfMemory>)
    requires lock { IsPassOf stay.now.lock.now pass }
    requires placed { IsStepPlaced step }
    requires room { 0 < noted.old.places.room }
    ensures lock { IsPassOf stay.now.lock.now result.0 }
    ensures room { 0 < noted.new.places.room }
    ensures done { StepDone result.1 stay.now.lock.now.head stay.now.v step pass result.0 noted.old noted.new }
    ensures turns { IfOk result.1 (λ done. HasTurnsOf (step ∷ []) pass result.0) }
{
    match step {
        ConnStep::Event(event) => note_event(stay, pass, event, noted),
        ConnStep::Refresh(area) => (refresh(stay.rt, stay.lock, pass, stay.v, area), Ok(())),
        ConnStep::Suppress(stop) => {
            noted.quiet = stop;
            (suppress(stay.rt, stay.lock, pass, stay.v, stop), Ok(()))
        }
        ConnStep::Bye => {
            noted.bye = true;
            (pass, Ok(()))
        }
        ConnStep::Shutdown => {
            noted.shutdown = true;
            (pass, Ok(()))
        }
        ConnStep::Named(_) => (pass, Ok(())),
        ConnStep::Ready(_) => (pass, Ok(())),
        ConnStep::Packet => (pass, Ok(())),
    }
}

/// Handles an event, and notes the place of its entry. Room for one more place is kept.
fn note_event<R: Wait>(
    stay: &Stay<'_, R>,
    pass: Pass<Session>,
    event: Event,
    noted: &mut Noted,
) -> (Pass<Session>, Result<(), OutOfMemory>)
    requires lock { IsPassOf stay.now.lock.now pass }
    requires room { 0 < noted.old.places.room }
    ensures lock { IsPassOf stay.now.lock.now result.0 }
    ensures room { 0 < noted.new.places.room }
    ensures notice { notice_in noted.new ≡ notice_in noted.old }
    ensures done { EventDone result.1 stay.now.lock.now.head stay.now.v event pass result.0 noted.old.places.list noted.new.places.list }
    ensures turns { IfOk result.1 (λ done. HasTurns 1 pass result.0) }
{
    if noted.places.make_room().is_err() {
        return (pass, Err(OutOfMemory));
    }
    let (pass, done) = handle_event(stay.rt, stay.lock, pass, stay.v, event);
    let answer = note_place(done, noted);
    (pass, answer)
}

/// Notes the place of an event's entry.
fn note_place(done: Result<Option<u64>, OutOfMemory>, noted: &mut Noted) -> Result<(), OutOfMemory>
    requires room { 1 < noted.old.places.room }
    ensures room { 0 < noted.new.places.room }
    ensures notice { notice_in noted.new ≡ notice_in noted.old }
    ensures noted { NotesPlace done result noted.old.places.list noted.new.places.list }
{
    if let Some(place) = done? {
        noted.places.add(place);
    }
    Ok(())
}
