//! A gate, from its opening to its end.
ghost use Rattle.std.specs.Prelude.{◌≡◌, ℕ, [], ◌+◌, ◌<◌, ◌≤◌, false, length, Contains, IfOk, IfErr, OnErr, vec_len, vec_capacity};
ghost use Rattle.session_rules.specs.Journal.{IsLegalJournal};
ghost use Rattle.grow_lock.specs.Journal.{StartsWith};
ghost use Rattle.grow_lock.specs.Passes.{IsPassOf};
ghost use Rattle.grow_lock.specs.Shares.{IsWhole, HoldsShare};
ghost use Rattle.gate_run.specs.OpenGate.{ServesOpen, ServesBehind};
ghost use Rattle.gate_run.specs.Taking.{CanTake};
ghost use Rattle.gate_run.specs.Gates.{gate_state, ServesGate};
ghost use Rattle.gate_run.specs.Refusals.{TurnsAway};

use crate::accepting::accept_links;
use crate::ended::Ended;
use crate::finishing::finish_all;
use crate::jobs::Job;
use crate::{GateEnd, Met, OutOfMemory, Served};
use edge_io::{Gate, Link};
use grow_lock::{GrowLock, Pass};
use serve_rules::ConnReport;
use session_core::Session;
use std::alloc::Global;
use std::collections::VecDeque;
use std::sync::Wait;
use std::thread::Threads;

/// Room for the work on so many links, and for the numbers of those that have ended.
#[derive(Drop)]
struct Room<L: Link> {
    jobs: Vec<Job<L>>,
    reports: Vec<ConnReport>,
    ended: Ended,
}

impl<L: Link> Room<L> {
    fn new(alloc: Global, links: u16) -> Result<Room<L>, OutOfMemory>
        ensures jobs { IfOk result (λ room. (room.jobs.items ≡ []) × (links ≤ vec_capacity room.jobs)) }
        ensures reports { IfOk result (λ room. (room.reports.items ≡ []) × (vec_len room.reports + links ≤ vec_capacity room.reports)) }
        ensures ended { IfOk result (λ room. vec_len room.ended.behind ≡ links) }
    {
        Ok(Room {
            jobs: Vec::with_capacity(alloc, usize::from(links))?,
            reports: Vec::with_capacity(alloc, usize::from(links))?,
            ended: Ended::new(alloc, links)?,
        })
    }
}

/// Opens a gate and serves its links, each in a thread of its own, over this session: at most `links` of them, until the gate
/// says that no further link will come, or fails. Then it waits for all that were started, gives each link back in the order
/// in which they were given, and hands out the closing session and a report for each link.
///
/// An `Err` comes before the gate is opened, leaves it as it was, and drops the session. Where no two threads can be started a link waits
/// until others have ended; where none is served any more it is served before the next one is taken.
pub fn serve_gate<R: Threads + Wait + Sync, G: Gate>(
    rt: &R,
    alloc: Global,
    session: Session,
    port: u16,
    links: u16,
    gate: &mut G,
) -> Result<Served, OutOfMemory>
    requires given { G.given gate.old ≡ [] }
    requires ended { G.ended gate.old ≡ false }
    ensures head { IfOk result (λ served. served.session.head ≡ session.head) }
    ensures gate { IfOk result (λ served. ServesGate session.head session.journal port links (gate_state G.Gate G.Link.Link gate.old) (gate_state G.Gate G.Link.Link gate.new)
        served.session.journal served.reports.items served.end) }
    ensures refusals { IfOk result (λ served. TurnsAway session.head session.journal (gate_state G.Gate G.Link.Link gate.old) (gate_state G.Gate G.Link.Link gate.new)
        served.session.journal served.reports.items) }
    ensures memory { OnErr result (gate.new ≡ gate.old) }
{
    let (lock, pass) = GrowLock::new(alloc, session)?;
    let Ok(met) = serve_lock(rt, alloc, &lock, pass, port, links, gate) else {
        return Err(OutOfMemory);
    };
    let Met { pass, reports, end } = met;
    Ok(Served {
        session: close(rt, lock, pass),
        reports,
        end,
    })
}

/// Opens a gate and serves its links as `serve_gate` does, over the session behind this lock, which it leaves there: hands out the pass
/// that met those of all links, and a report for each. An `Err` comes before the gate is opened, leaves it as it was, and gives the pass back.
pub fn serve_lock<R: Threads + Wait + Sync, G: Gate>(
    rt: &R,
    alloc: Global,
    lock: &GrowLock<Session>,
    pass: Pass<Session>,
    port: u16,
    links: u16,
    gate: &mut G,
) -> Result<Met, Pass<Session>>
    requires lock { IsPassOf lock.now pass }
    requires mine { pass.mine ≡ [] }
    requires since { StartsWith pass.seen lock.now.first }
    requires given { G.given gate.old ≡ [] }
    requires ended { G.ended gate.old ≡ false }
    ensures lock { IfOk result (λ met. IsPassOf lock.now met.pass) }
    ensures share { IfOk result (λ met. HoldsShare met.pass.share pass.share) }
    ensures links { IfOk result (λ met. ServesBehind lock.now.head lock.now.first port links (gate_state G.Gate G.Link.Link gate.old)
        (gate_state G.Gate G.Link.Link gate.new) met.pass met.reports.items met.end) }
    ensures back { IfErr result (λ back. back ≡ pass) }
    ensures memory { OnErr result (gate.new ≡ gate.old) }
{
    let Ok(room) = Room::new(alloc, links) else {
        return Err(pass);
    };
    if gate.listen(port, links) {
        return Ok(serve_links(rt, alloc, lock, pass, room, links, gate));
    }
    Ok(Met {
        pass,
        reports: room.reports,
        end: GateEnd::NoListen,
    })
}

/// Serves the links of an open gate.
fn serve_links<R: Threads + Wait + Sync, G: Gate>(
    rt: &R,
    alloc: Global,
    lock: &GrowLock<Session>,
    pass: Pass<Session>,
    room: Room<G::Link>,
    links: u16,
    gate: &mut G,
) -> Met
    requires lock { IsPassOf lock.now pass }
    requires mine { pass.mine ≡ [] }
    requires since { StartsWith pass.seen lock.now.first }
    requires gate { CanTake G.Gate links gate.old room.jobs.items (vec_capacity room.jobs) (vec_len room.ended.behind) }
    requires finished { G.finished gate.old ≡ [] }
    requires reports { (room.reports.items ≡ []) × (vec_len room.reports + links ≤ vec_capacity room.reports) }
    ensures lock { IsPassOf lock.now result.pass }
    ensures share { HoldsShare result.pass.share pass.share }
    ensures links { ServesOpen lock.now.head lock.now.first (gate_state G.Gate G.Link.Link gate.old)
        (gate_state G.Gate G.Link.Link gate.new) result.pass result.reports.items result.end }
{
    let Room {
        jobs,
        mut reports,
        ended,
    } = room;
    let (pass, jobs, end) = accept_links(rt, alloc, lock, &ended, pass, links, gate, jobs);
    let jobs = VecDeque::from_vec(jobs);
    let pass = finish_all(rt, lock, pass, jobs, gate, &mut reports);
    Met { pass, reports, end }
}

/// The value of the lock, when all passes have met: this one has the whole lock, so it has all places that were added.
pub fn close<R: Wait>(rt: &R, lock: GrowLock<Session>, pass: Pass<Session>) -> Session
    requires lock { IsPassOf lock pass }
    requires whole { IsWhole pass.share }
    ensures head { result.head ≡ lock.head }
    ensures legal { IsLegalJournal lock.head result.journal }
    ensures seen { StartsWith result.journal pass.seen }
    ensures begins { StartsWith result.journal lock.first }
    ensures all { (n : ℕ) → length lock.first ≤ n → n < length result.journal → Contains pass.mine n }
{
    let session = lock.close(rt, pass);
    session.recall_legal();
    session
}
