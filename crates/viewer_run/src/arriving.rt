//! A client that is ready joins, is attended to, and leaves.
ghost use Rattle.std.specs.Prelude.{◌≡◌, ◌≤◌, ◌<◌, ◌-◌, ◌++◌, ◌∷◌, ◌+◌, [], length, MatchResult, IfOk};
ghost use Rattle.edge_io.specs.Outside.{outside_of};
ghost use Rattle.caps_sets.specs.declared.confirmed.Confirmed.{Confirmed};
ghost use Rattle.conn_rules.specs.Placed.{AreBytes, ArePlaced};
ghost use Rattle.session_rules.specs.Journal.{IsLegalJournal};
ghost use Rattle.grow_lock.specs.Passes.{IsPassOf};
ghost use Rattle.serve_rules.specs.Notices.{notice_in};
ghost use Rattle.viewer_run.specs.Visiting.{IsFirst, IsTurnedAwayIn};
ghost use Rattle.viewer_run.specs.Arriving.{Stays, LeavesNoted, ServesArrival, IsFirstOfSome, GuestServed, no_notice, end_of_join};

use crate::viewing::attend_whole;
use crate::visits::{Arrival, FirstFrame, arrive, depart};
use crate::{ConnEnd, Ends, Guest, Halves, Host, Noted, OutOfMemory, Places, Stay};
use conn_core::Conn;
use edge_io::{FrameSink, Source};
use grow_lock::{GrowLock, Pass};
use session_core::{JoinFault, Session};
use std::alloc::Global;
use std::sync::Wait;
use std::thread::Threads;

/// A viewer who came and went.
#[derive(Drop)]
pub struct Visit {
    /// Its number.
    pub v: u32,
    /// How its connection ended.
    pub end: ConnEnd,
}

/// A client that is ready joins by its name, is attended to until its connection ends, and leaves. The places of its Join and its Leave are noted. What the
/// pass has seen then is a legal journal.
pub fn serve_arrival<R: Threads + Wait + Sync, S: Source + Send, K: FrameSink + Send>(
    host: &Host<'_, R>,
    pass: Pass<Session>,
    guest: &Guest,
    ends: &mut Ends<'_>,
    halves: &mut Halves<'_, S, K>,
) -> (Pass<Session>, Result<Visit, JoinFault>)
    requires lock { IsPassOf host.now.lock.now pass }
    requires part { AreBytes ends.old.conn.hearing.part }
    requires placed { ArePlaced ends.old.rest.now }
    requires room { 2 ≤ ends.old.noted.places.room }
    ensures lock { IsPassOf host.now.lock.now result.0 }
    ensures served { MatchResult result.1
        (λ visit. ServesArrival host.now.lock.now.head guest.now.name guest.now.confirmed ends.old.rest.now ends.old.conn.hearing pass result.0
        ends.old.noted ends.new.noted (outside_of S.Source K.Sink halves.old.input.now halves.old.output.now)
        (outside_of S.Source K.Sink halves.new.input.now halves.new.output.now) visit)
        (λ fault. IsTurnedAwayIn host.now.lock.now.head guest.now.name pass result.0 fault × (ends.new.noted ≡ ends.old.noted)
        × (outside_of S.Source K.Sink halves.new.input.now halves.new.output.now ≡ outside_of S.Source K.Sink halves.old.input.now halves.old.output.now)) }
    ensures legal { IsLegalJournal host.now.lock.now.head result.0.seen }
    ensures same { (halves.new.input.ghost_name ≡ halves.old.input.ghost_name) × (halves.new.output.ghost_name ≡ halves.old.output.ghost_name) }
{
    let (pass, came) = arrive(host, pass, &guest.name, guest.confirmed);
    match came {
        Ok(arrival) => {
            note_join(&pass, &mut ends.noted);
            let v = arrival.v;
            let stay = Stay {
                rt: host.rt,
                alloc: host.alloc,
                lock: host.lock,
                v,
            };
            let (pass, end) = attend_first(&stay, pass, ends, arrival.first, halves);
            let pass = leave_noted(host.rt, host.lock, pass, v, &mut ends.noted);
            (pass, Ok(Visit { v, end }))
        }
        Err(fault) => (pass, Err(fault)),
    }
}

/// A client that is ready joins by its name, is attended to and leaves, as `serve_arrival` says; gives what was noted too. An `Err` says how the connection
/// of a client that didn't join ended.
pub fn serve_guest<R: Threads + Wait + Sync, S: Source + Send, K: FrameSink + Send>(
    host: &Host<'_, R>,
    pass: Pass<Session>,
    guest: &Guest,
    conn: Conn,
    halves: &mut Halves<'_, S, K>,
) -> (Pass<Session>, Result<(Visit, Noted), ConnEnd>)
    requires lock { IsPassOf host.now.lock.now pass }
    requires part { AreBytes conn.hearing.part }
    requires placed { ArePlaced guest.now.rest.items }
    ensures lock { IsPassOf host.now.lock.now result.0 }
    ensures served { GuestServed host.now.lock.now.head guest.now conn.hearing pass result.0
        (outside_of S.Source K.Sink halves.old.input.now halves.old.output.now) (outside_of S.Source K.Sink halves.new.input.now halves.new.output.now)
        result.1 }
    ensures legal { IsLegalJournal host.now.lock.now.head pass.seen → IsLegalJournal host.now.lock.now.head result.0.seen }
    ensures same { (halves.new.input.ghost_name ≡ halves.old.input.ghost_name) × (halves.new.output.ghost_name ≡ halves.old.output.ghost_name) }
{
    let Ok(noted) = nothing_noted(host.alloc) else {
        return (pass, Err(ConnEnd::OutOfMemory));
    };
    let mut ends = Ends {
        conn,
        rest: &guest.rest,
        noted,
    };
    let (pass, came) = serve_arrival(host, pass, guest, &mut ends, halves);
    let Ends {
        conn: _,
        rest: _,
        noted,
    } = ends;
    match came {
        Ok(visit) => (pass, Ok((visit, noted))),
        Err(fault) => (pass, Err(end_of_join(fault))),
    }
}

/// Nothing noted yet, and room for two places.
fn nothing_noted(alloc: Global) -> Result<Noted, OutOfMemory>
    ensures list { IfOk result (λ noted. noted.places.list ≡ []) }
    ensures room { IfOk result (λ noted. 2 ≤ noted.places.room) }
    ensures notice { IfOk result (λ noted. notice_in noted ≡ no_notice) }
{
    let places = Places::new(alloc)?;
    Ok(Noted {
        places,
        bye: false,
        shutdown: false,
        quiet: false,
    })
}

/// How the connection of a client ends that didn't join.
fn end_of_join(fault: JoinFault) -> ConnEnd
    ensures { result ≡ end_of_join fault }
{
    match fault {
        JoinFault::NotInvited => ConnEnd::NotInvited,
        JoinFault::RoomFull => ConnEnd::RoomFull,
        JoinFault::JoinsSpent => ConnEnd::JoinsSpent,
        JoinFault::OutOfMemory => ConnEnd::OutOfMemory,
    }
}

/// Notes the place of a Join, with which what the pass has seen ends.
fn note_join(pass: &Pass<Session>, noted: &mut Noted)
    requires some { 0 < length pass.now.seen }
    requires room { 0 < noted.old.places.room }
    ensures list { noted.new.places.list ≡ noted.old.places.list ++ (length pass.now.seen - 1) ∷ [] }
    ensures room { noted.new.places.room + 1 ≡ noted.old.places.room }
    ensures notice { notice_in noted.new ≡ notice_in noted.old }
{
    noted.places.add(pass.seen() - 1);
}

/// Attends to a viewer who has joined, unless memory was wanted for its first frame.
fn attend_first<R: Threads + Wait + Sync, S: Source + Send, K: FrameSink + Send>(
    stay: &Stay<'_, R>,
    pass: Pass<Session>,
    ends: &mut Ends<'_>,
    first: Result<FirstFrame, OutOfMemory>,
    halves: &mut Halves<'_, S, K>,
) -> (Pass<Session>, ConnEnd)
    requires lock { IsPassOf stay.now.lock.now pass }
    requires part { AreBytes ends.old.conn.hearing.part }
    requires placed { ArePlaced ends.old.rest.now }
    requires room { 0 < ends.old.noted.places.room }
    requires first { IsFirstOfSome stay.now.lock.now.head pass.seen stay.now.v first }
    ensures lock { IsPassOf stay.now.lock.now result.0 }
    ensures room { 0 < ends.new.noted.places.room }
    ensures stays { (confirmed : Confirmed) → IsFirst stay.now.lock.now.head pass.seen stay.now.v confirmed first
        → Stays stay.now.lock.now.head stay.now.v confirmed first ends.old.rest.now ends.old.conn.hearing pass result.0 ends.old.noted ends.new.noted
        (outside_of S.Source K.Sink halves.old.input.now halves.old.output.now) (outside_of S.Source K.Sink halves.new.input.now halves.new.output.now)
        result.1 }
    ensures same { (halves.new.input.ghost_name ≡ halves.old.input.ghost_name) × (halves.new.output.ghost_name ≡ halves.old.output.ghost_name) }
{
    match first {
        Ok(first) => {
            let (pass, _, end) = attend_whole(stay, pass, ends, first, halves);
            (pass, end)
        }
        Err(OutOfMemory) => (pass, ConnEnd::OutOfMemory),
    }
}

/// A viewer leaves, and the place of its Leave is noted, if it was still present.
fn leave_noted<R: Wait>(
    rt: &R,
    lock: &GrowLock<Session>,
    pass: Pass<Session>,
    v: u32,
    noted: &mut Noted,
) -> Pass<Session>
    requires lock { IsPassOf lock.now pass }
    requires room { 0 < noted.old.places.room }
    ensures lock { IsPassOf lock.now result }
    ensures leaves { LeavesNoted lock.now.head v pass result noted.old.places.list noted.new.places.list }
    ensures legal { IsLegalJournal lock.now.head result.seen }
    ensures notice { notice_in noted.new ≡ notice_in noted.old }
{
    let (pass, place) = depart(rt, lock, pass, v);
    match place {
        Some(at) => noted.places.add(at),
        None => {}
    }
    pass
}
