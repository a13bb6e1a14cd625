//! The turns with which a viewer comes and goes: its Join with its first take, and its Leave.
ghost use Rattle.std.specs.Prelude.{◌≡◌, ◌<◌, false, length, MatchResult, IsTrue};
ghost use Rattle.session_rules.specs.Journal.{IsLegalJournal};
ghost use Rattle.session_core.specs.SessionModel.{is_here, is_suppressed};
ghost use Rattle.grow_lock.specs.Journal.{StartsWith};
ghost use Rattle.grow_lock.specs.Passes.{IsPassOf};
ghost use Rattle.viewer_run.specs.Visiting.{Arrives, ArrivesIn, IsTurnedAway, IsTurnedAwayIn, IsFirst, LeavesHere, LeavesIn};

use crate::{Host, OutOfMemory};
use caps_sets::Confirmed;
use grow_lock::{GrowLock, Pass};
use info_lic::Name;
use session_core::{JoinFault, Session};
use std::alloc::Global;
use std::sync::Wait;
use viewer_sender::{Seat, Take, Taken};

/// A viewer who has joined.
#[derive(Drop)]
pub struct Arrival {
    /// Its number.
    pub v: u32,
    /// Its first frame, unless memory was wanted.
    pub first: Result<FirstFrame, OutOfMemory>,
}

/// A viewer's first frame, and the seat that sends it.
#[derive(Drop)]
pub struct FirstFrame {
    pub seat: Seat,
    pub take: Take,
}

/// A viewer joins by a name, and its first frame is taken, in one turn.
pub fn arrive<R: Wait>(
    host: &Host<'_, R>,
    pass: Pass<Session>,
    name: &Name,
    confirmed: Confirmed,
) -> (Pass<Session>, Result<Arrival, JoinFault>)
    requires { IsPassOf host.now.lock.now pass }
    ensures lock { IsPassOf host.now.lock.now result.0 }
    ensures came { MatchResult result.1 (λ arrival. ArrivesIn host.now.lock.now.head name.now confirmed pass result.0 arrival)
        (λ fault. IsTurnedAwayIn host.now.lock.now.head name.now pass result.0 fault) }
    ensures legal { IsLegalJournal host.now.lock.now.head result.0.seen }
{
    let mut turn = host.lock.enter(host.rt, pass);
    let came = arrive_here(host.alloc, turn.value(), name, confirmed);
    let pass = host.lock.leave(turn);
    (pass, came)
}

/// A viewer joins a session by a name, and its first frame is taken; its journal is legal then.
fn arrive_here(
    alloc: Global,
    session: &mut Session,
    name: &Name,
    confirmed: Confirmed,
) -> Result<Arrival, JoinFault>
    ensures head { session.new.head ≡ session.old.head }
    ensures came { MatchResult result (λ arrival. Arrives session.old.head name.now confirmed session.old.journal session.new.journal arrival)
        (λ fault. IsTurnedAway session.old.head name.now session.old.journal session.new.journal fault) }
    ensures goes_on { StartsWith session.new.journal session.old.journal }
    ensures legal { IsLegalJournal session.new.head session.new.journal }
{
    let came = join_here(alloc, session, name, confirmed);
    session.recall_legal();
    came
}

/// A viewer joins a session by a name, and its first frame is taken.
fn join_here(
    alloc: Global,
    session: &mut Session,
    name: &Name,
    confirmed: Confirmed,
) -> Result<Arrival, JoinFault>
    ensures head { session.new.head ≡ session.old.head }
    ensures came { MatchResult result (λ arrival. Arrives session.old.head name.now confirmed session.old.journal session.new.journal arrival)
        (λ fault. IsTurnedAway session.old.head name.now session.old.journal session.new.journal fault) }
    ensures goes_on { StartsWith session.new.journal session.old.journal }
{
    match session.join(name) {
        Ok(v) => {
            let first = first_frame(alloc, session, v, confirmed);
            Ok(Arrival { v, first })
        }
        Err(fault) => Err(fault),
    }
}

/// A viewer's first frame, right after its Join; the session's pointer is noted for it.
fn first_frame(
    alloc: Global,
    session: &mut Session,
    v: u32,
    confirmed: Confirmed,
) -> Result<FirstFrame, OutOfMemory>
    requires present { IsTrue (is_here session.old v) }
    requires fresh { is_suppressed session.old v ≡ false }
    requires some { 0 < length session.old.journal }
    ensures head { session.new.head ≡ session.old.head }
    ensures journal { session.new.journal ≡ session.old.journal }
    ensures first { IsFirst session.old.head session.old.journal v confirmed result }
{
    let mut seat = Seat::new(alloc, v, confirmed)?;
    match seat.take(alloc, session)? {
        Taken::Frame(take) => Ok(FirstFrame { seat, take }),
        Taken::Nothing => unreachable!(),
    }
}

/// A viewer leaves in a turn of its own; gives the place of its Leave. One that isn't present has left already.
pub fn depart<R: Wait>(
    rt: &R,
    lock: &GrowLock<Session>,
    pass: Pass<Session>,
    v: u32,
) -> (Pass<Session>, Option<u64>)
    requires { IsPassOf lock.now pass }
    ensures lock { IsPassOf lock.now result.0 }
    ensures left { LeavesIn lock.now.head v pass result.0 result.1 }
    ensures legal { IsLegalJournal lock.now.head result.0.seen }
{
    let mut turn = lock.enter(rt, pass);
    let place = depart_here(turn.value(), v);
    let pass = lock.leave(turn);
    (pass, place)
}

/// A viewer leaves a session, whose journal is legal then.
fn depart_here(session: &mut Session, v: u32) -> Option<u64>
    ensures head { session.new.head ≡ session.old.head }
    ensures left { LeavesHere v (is_here session.old v) result session.old.journal session.new.journal }
    ensures goes_on { StartsWith session.new.journal session.old.journal }
    ensures legal { IsLegalJournal session.new.head session.new.journal }
{
    let place = leave_here(session, v);
    session.recall_legal();
    place
}

/// A viewer leaves a session, if it is present; gives the place of its Leave.
fn leave_here(session: &mut Session, v: u32) -> Option<u64>
    ensures head { session.new.head ≡ session.old.head }
    ensures left { LeavesHere v (is_here session.old v) result session.old.journal session.new.journal }
    ensures goes_on { StartsWith session.new.journal session.old.journal }
{
    if !session.present(v) {
        return None;
    }
    let place = session.length();
    session.leave(v);
    Some(place)
}
