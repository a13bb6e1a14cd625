//! Turns at the session in which a viewer's steps are done.
ghost use Rattle.std.specs.Prelude.{◌≡◌, length, MatchResult};
ghost use Rattle.px_core.specs.Rectangle.{IsPlaced};
ghost use Rattle.session_rules.specs.Journal.{reached_at};
ghost use Rattle.session_rules.specs.Entering.{entry_of_event};
ghost use Rattle.session_core.specs.SessionModel.{reached_by, is_here, asked_by, is_suppressed};
ghost use Rattle.grow_lock.specs.Journal.{StartsWith};
ghost use Rattle.grow_lock.specs.Passes.{IsPassOf};
ghost use Rattle.serve_rules.specs.Turns.{IsHandled, Idles};
ghost use Rattle.viewer_run.specs.Asking.{asked_with, suppressed_with};
ghost use Rattle.viewer_run.specs.Handling.{HandledHere, SettledAs, place_between};

use crate::OutOfMemory;
use grow_lock::{GrowLock, Pass};
use input_pdu::Event;
use px_core::Rect;
use session_core::{InputRefusal, Session};
use std::sync::Wait;

/// Handles an event of a viewer in a turn of its own, and gives the place of its entry, if it has one. An event of a viewer who isn't
/// present, and one that is refused, does nothing.
pub fn handle_event<R: Wait>(
    rt: &R,
    lock: &GrowLock<Session>,
    pass: Pass<Session>,
    v: u32,
    event: Event,
) -> (Pass<Session>, Result<Option<u64>, OutOfMemory>)
    requires { IsPassOf lock.now pass }
    ensures lock { IsPassOf lock.now result.0 }
    ensures done { MatchResult result.1 (λ place. IsHandled lock.now.head v event pass result.0 place) (λ _. Idles pass result.0) }
{
    let mut turn = lock.enter(rt, pass);
    let done = input_here(turn.value(), v, event);
    let pass = lock.leave(turn);
    (pass, done)
}

/// Handles an event of a viewer at a session.
fn input_here(session: &mut Session, v: u32, event: Event) -> Result<Option<u64>, OutOfMemory>
    ensures head { session.new.head ≡ session.old.head }
    ensures done { HandledHere result (entry_of_event session.old.head v event (reached_by session.old)) session.old.journal session.new.journal }
    ensures goes_on { StartsWith session.new.journal session.old.journal }
{
    if !session.present(v) {
        return Ok(None);
    }
    let before = session.length();
    let answer = session.input(v, event);
    settle(answer, before, session.length())
}

/// The place of the entry that an event appended, if it did, by the journal's lengths before and after; an event that is refused counts as done.
fn settle(
    answer: Result<(), InputRefusal>,
    before: u64,
    after: u64,
) -> Result<Option<u64>, OutOfMemory>
    ensures { SettledAs answer before after result }
{
    match answer {
        Ok(()) => Ok(place_between(before, after)),
        Err(InputRefusal::NotHolder { .. }) | Err(InputRefusal::JournalFull) => Ok(None),
        Err(InputRefusal::OutOfMemory) => Err(OutOfMemory),
    }
}

/// The place of what was appended to a journal of this length, if anything was.
fn place_between(before: u64, after: u64) -> Option<u64>
    ensures { result ≡ place_between before after }
{
    if before < after { Some(before) } else { None }
}

/// Asks for tiles in a turn of its own; for a viewer who isn't present it does nothing.
pub fn refresh<R: Wait>(
    rt: &R,
    lock: &GrowLock<Session>,
    pass: Pass<Session>,
    v: u32,
    area: Rect,
) -> Pass<Session>
    requires lock { IsPassOf lock.now pass }
    requires placed { IsPlaced area }
    ensures lock { IsPassOf lock.now result }
    ensures idle { Idles pass result }
{
    let mut turn = lock.enter(rt, pass);
    refresh_here(turn.value(), v, area);
    let pass = lock.leave(turn);
    lock.ring();
    pass
}

/// Asks for the tiles of an area at a session, for a viewer who is present.
fn refresh_here(session: &mut Session, v: u32, area: Rect)
    requires { IsPlaced area }
    ensures head { session.new.head ≡ session.old.head }
    ensures journal { session.new.journal ≡ session.old.journal }
    ensures asked { asked_by session.new ≡ asked_with (is_here session.old v) session.old v area }
    ensures suppressed { session.new.suppressed ≡ session.old.suppressed }
{
    if session.present(v) {
        session.refresh(v, area);
    }
}

/// Stops or allows output in a turn of its own; for a viewer who isn't present it does nothing.
pub fn suppress<R: Wait>(
    rt: &R,
    lock: &GrowLock<Session>,
    pass: Pass<Session>,
    v: u32,
    stop: bool,
) -> Pass<Session>
    requires { IsPassOf lock.now pass }
    ensures lock { IsPassOf lock.now result }
    ensures idle { Idles pass result }
{
    let mut turn = lock.enter(rt, pass);
    suppress_here(turn.value(), v, stop);
    let pass = lock.leave(turn);
    lock.ring();
    pass
}

/// Stops or allows output at a session, to a viewer who is present.
fn suppress_here(session: &mut Session, v: u32, stop: bool)
    ensures head { session.new.head ≡ session.old.head }
    ensures journal { session.new.journal ≡ session.old.journal }
    ensures asked { session.new.asked ≡ session.old.asked }
    ensures suppressed { is_suppressed session.new ≡ suppressed_with (is_here session.old v) session.old v stop }
{
    if session.present(v) {
        session.suppress(v, stop);
    }
}
