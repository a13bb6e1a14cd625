//! The work for one link: in a thread, or done.
ghost use Rattle.std.specs.Prelude.{◌≡◌, ◌<◌, [], ◌||◌, true, is_some, IfSome, vec_len};
ghost use Rattle.std.specs.Thread.{IsSync};
ghost use Rattle.session_rules.specs.declared.entry.Entry.{Entry};
ghost use Rattle.session_rules.specs.Journal.{Head};
ghost use Rattle.grow_lock.specs.Journal.{StartsWith};
ghost use Rattle.grow_lock.specs.Passes.{LockModel, IsPassOf};
ghost use Rattle.edge_io.specs.Outside.{outside_given, outside_spent};
ghost use Rattle.gate_run.specs.Working.{IsFresh, IsDone, IsWork};

use crate::ended::Ended;
use edge_io::{Gate, Link};
use grow_lock::{GrowLock, Pass};
use serve_rules::ConnReport;
use session_core::Session;
use std::alloc::Global;
use std::snapshot::Snapshot;
use std::sync::Wait;
use std::thread;
use std::thread::{Promise, PromisedHandle, Scope, Threads};
use viewer_run::serve_viewer;

/// What the work for a link hands back.
#[derive(Drop)]
pub struct Outcome<S: Drop> {
    pub pass: Pass<Session>,
    pub report: ConnReport,
    pub spent: S,
}

/// Which lock, pass and link a job was given. It has no bytes.
#[derive(Drop)]
pub struct Given<L: Link> {
    lock: Snapshot<GrowLock<Session>>,
    pass: Snapshot<Pass<Session>>,
    link: Snapshot<L>,
}

impl<L: Link> Promise<Outcome<L::Spent>> for Given<L> {
    ghost kept_by = { λ p o. IsDone p.lock.value p.pass.value (outside_given L.Link p.link.value) o.pass o.report (outside_spent L.Link o.spent) };
}

/// The work for a link: in a thread, or done where it has ended or no thread could be started.
#[derive(Drop)]
pub struct Job<L: Link> {
    given: Given<L>,
    handle: Option<PromisedHandle<Outcome<L::Spent>, Given<L>>>,
    outcome: Option<Outcome<L::Spent>>,
}

impl<L: Link> Job<L> {
    /// Waits for the work's thread, if it has one that wasn't waited for, and keeps what it came to.
    pub fn collect<R: Threads>(&mut self, rt: &R)
        ensures given { self.new.given ≡ self.old.given }
        ensures work { (lock : LockModel Head Entry) → IsWork L.Link lock self.old → IsWork L.Link lock self.new }
    {
        if let Some(handle) = self.handle.take() {
            self.outcome = Some(handle.join(rt));
        }
    }

    /// Waits for the work's thread, if it has one, and gives what it came to.
    pub fn finish<R: Threads>(self, rt: &R, lock: &GrowLock<Session>) -> Outcome<L::Spent>
        requires { IsWork L.Link lock.now self }
        ensures { IsDone lock.now self.given.pass.value (outside_given L.Link self.given.link.value) result.pass result.report (outside_spent L.Link result.spent) }
    {
        let Job {
            given: _,
            handle,
            outcome,
        } = self;
        if let Some(handle) = handle {
            return handle.join(rt);
        }
        outcome.unwrap()
    }
}

/// Serves a link, and puts its number on the chain as its last act.
fn serve_link<R: Threads + Wait + Sync, L: Link>(
    rt: &R,
    alloc: Global,
    lock: &GrowLock<Session>,
    ended: &Ended,
    number: usize,
    pass: Pass<Session>,
    link: L,
) -> Outcome<L::Spent>
    requires lock { IsPassOf lock.now pass }
    requires number { number < vec_len ended.now.behind }
    ensures { IsDone lock.now pass (outside_given L.Link link) result.pass result.report (outside_spent L.Link result.spent) }
{
    let (pass, report, spent) = serve_viewer(rt, alloc, lock, pass, link);
    ended.put(rt, number);
    Outcome {
        pass,
        report,
        spent,
    }
}

/// Starts the work for a link in a thread of the scope. Where no thread can be started it does the work here, once none of the links is served any
/// more that were started before, so many.
pub fn start_link<'s, E, R: Threads + Wait + Sync, L: Link>(
    rt: &'s R,
    alloc: Global,
    scope: &Scope<'s, E>,
    lock: &'s GrowLock<Session>,
    ended: &'s Ended,
    number: usize,
    pass: Pass<Session>,
    link: L,
) -> Job<L>
where
    L: 's,
    requires lock { IsPassOf lock.now pass }
    requires fresh { IsFresh pass }
    requires since { StartsWith pass.seen lock.now.first }
    requires number { number < vec_len ended.now.behind }
    ensures link { result.given.link.value ≡ link }
    ensures pass { result.given.pass.value ≡ pass }
    ensures work { IsWork L.Link lock.now result }
{
    let given = Given {
        lock: Snapshot::of(lock),
        pass: Snapshot::of(&pass),
        link: Snapshot::of(&link),
    };
    let promise = Given {
        lock: Snapshot::of(lock),
        pass: Snapshot::of(&pass),
        link: Snapshot::of(&link),
    };
    match scope.spawn_with(
        promise,
        move || -> Outcome<L::Spent>
            requires { IsPassOf lock.now pass × (number < vec_len ended.now.behind) × IsSync R.row }
            ensures { IsDone lock.entry.now pass (outside_given L.Link link) result.pass result.report (outside_spent L.Link result.spent) }
        { serve_link(rt, alloc, lock, ended, number, pass, link) },
    ) {
        Ok(handle) => Job {
            given,
            handle: Some(handle),
            outcome: None,
        },
        Err(refused) => {
            ended.wait_for(rt, number);
            let outcome = (refused.value)();
            Job {
                given,
                handle: None,
                outcome: Some(outcome),
            }
        }
    }
}

/// Waits until two threads can be started, each time until one more of so many links has ended and for all of them at most. Each time it
/// has the gate make room.
pub fn wait_for_threads<'s, E, R: Threads + Wait + Sync, G: Gate>(
    rt: &'s R,
    scope: &Scope<'s, E>,
    ended: &Ended,
    gate: &mut G,
    started: usize,
)
    ensures given { G.given gate.new ≡ G.given gate.old }
    ensures finished { G.finished gate.new ≡ G.finished gate.old }
    ensures asked { G.asked gate.new ≡ G.asked gate.old }
    ensures ended { G.ended gate.new ≡ G.ended gate.old }
    ensures faults { G.faults gate.new ≡ G.faults gate.old }
{
    for _ in rt.forever() {
        let count = ended.count();
        if count >= started || can_start_two(rt, scope) {
            return;
        }
        gate.make_room();
        ended.wait_for(rt, count.saturating_add(1));
    }
    unreachable!()
}

/// Whether a thread can be started that starts another one, as a link's does for its viewer.
fn can_start_two<'s, E, R: Threads + Sync>(rt: &'s R, scope: &Scope<'s, E>) -> bool {
    match scope.spawn(move || can_start_one(rt)) {
        Ok(handle) => handle.join(rt),
        Err(_) => false,
    }
}

/// Whether a thread can be started.
fn can_start_one<R: Threads>(rt: &R) -> bool {
    match thread::spawn(rt, || ()) {
        Ok(handle) => {
            handle.join(rt);
            true
        }
        Err(_) => false,
    }
}
