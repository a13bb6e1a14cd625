//! A gate's links, each of which is served in a thread of its own while the next one is waited for.
ghost use Rattle.std.specs.Prelude.{◌≡◌, [], ◌++◌, ◌≤◌, map, All, vec_len, vec_capacity};
ghost use Rattle.session_rules.specs.declared.entry.Entry.{Entry};
ghost use Rattle.session_rules.specs.Journal.{Head};
ghost use Rattle.grow_lock.specs.Journal.{StartsWith};
ghost use Rattle.grow_lock.specs.Passes.{LockModel, IsPassOf};
ghost use Rattle.gate_run.specs.Taking.{CanTake, HasTaken};
ghost use Rattle.gate_run.specs.Working.{IsFresh, IsWork, IsDealtOut};

use crate::GateEnd;
use crate::ended::Ended;
use crate::jobs::{Job, start_link, wait_for_threads};
use edge_io::{Gate, Link, Next};
use grow_lock::{GrowLock, Pass};
use session_core::Session;
use std::alloc::Global;
use std::sync::Wait;
use std::thread;
use std::thread::{Scope, Threads};

/// The most links that are served at a time (profile).
const MOST_SERVED: usize = 256;

/// Starts a job for each link that an open gate gives until it gives no more, and returns when each job's thread has ended.
pub fn accept_links<R: Threads + Wait + Sync, G: Gate>(
    rt: &R,
    alloc: Global,
    lock: &GrowLock<Session>,
    ended: &Ended,
    pass: Pass<Session>,
    links: u16,
    gate: &mut G,
    jobs: Vec<Job<G::Link>>,
) -> (Pass<Session>, Vec<Job<G::Link>>, GateEnd)
    requires lock { IsPassOf lock.now pass }
    requires since { StartsWith pass.seen lock.now.first }
    requires gate { CanTake G.Gate links gate.old jobs.items (vec_capacity jobs) (vec_len ended.now.behind) }
    ensures pass { result.0 ≡ record pass { share = result.0.share } }
    ensures dealt { IsDealtOut pass.share result.0.share (map (λ j. j.given.pass.value.share) result.1.items) }
    ensures taken { HasTaken G.Gate G.Link.Link lock.now links gate.old gate.new result.1.items result.2 }
{
    let (pass, jobs, gate, end) = accept_in_scope(rt, alloc, lock, ended, pass, links, gate, jobs);
    take_back(gate);
    (pass, jobs, end)
}

/// What was lent comes back as it is.
fn take_back<T>(lent: &mut T)
    ensures { lent.new ≡ lent.old }
{}

fn accept_in_scope<'g, R: Threads + Wait + Sync, G: Gate>(
    rt: &R,
    alloc: Global,
    lock: &GrowLock<Session>,
    ended: &Ended,
    pass: Pass<Session>,
    links: u16,
    gate: &'g mut G,
    jobs: Vec<Job<G::Link>>,
) -> (Pass<Session>, Vec<Job<G::Link>>, &'g mut G, GateEnd)
    requires lock { IsPassOf lock.now pass }
    requires since { StartsWith pass.seen lock.now.first }
    requires gate { CanTake G.Gate links gate.old jobs.items (vec_capacity jobs) (vec_len ended.now.behind) }
    ensures pass { result.0 ≡ record pass { share = result.0.share } }
    ensures dealt { IsDealtOut pass.share result.0.share (map (λ j. j.given.pass.value.share) result.1.items) }
    ensures same { result.2.ghost_name ≡ gate.entry.ghost_name }
    ensures taken { HasTaken G.Gate G.Link.Link lock.now links gate.entry.now result.2.now result.1.items result.3 }
{
    thread::scope(
        thread::scope_env(),
        rt,
        move |scope| -> (Pass<Session>, Vec<Job<G::Link>>, &mut G, GateEnd)
            requires { IsPassOf lock.now pass × StartsWith pass.seen lock.now.first
                × CanTake G.Gate links gate.now jobs.items (vec_capacity jobs) (vec_len ended.now.behind) }
            ensures { (result.0 ≡ record pass { share = result.0.share }) × IsDealtOut pass.share result.0.share (map (λ j. j.given.pass.value.share) result.1.items)
                × (result.2.ghost_name ≡ gate.entry.ghost_name)
                × HasTaken G.Gate G.Link.Link lock.entry.now links gate.entry.now result.2.now result.1.items result.3 }
        { accept_all(rt, alloc, scope, lock, ended, pass, links, gate, jobs) },
    )
}

/// Starts a job for each link that an open gate gives until it gives no more. Where the most are served it has the gate make room
/// first, and waits for one of them to end. Before it waits for the next one it collects the jobs whose threads have ended.
fn accept_all<'s, 'g, E, R: Threads + Wait + Sync, G: Gate>(
    rt: &'s R,
    alloc: Global,
    scope: &Scope<'s, E>,
    lock: &'s GrowLock<Session>,
    ended: &'s Ended,
    pass: Pass<Session>,
    links: u16,
    gate: &'g mut G,
    jobs: Vec<Job<G::Link>>,
) -> (Pass<Session>, Vec<Job<G::Link>>, &'g mut G, GateEnd)
where
    G::Link: 's,
    requires lock { IsPassOf lock.now pass }
    requires since { StartsWith pass.seen lock.now.first }
    requires gate { CanTake G.Gate links gate.old jobs.items (vec_capacity jobs) (vec_len ended.now.behind) }
    ensures pass { result.0 ≡ record pass { share = result.0.share } }
    ensures dealt { IsDealtOut pass.share result.0.share (map (λ j. j.given.pass.value.share) result.1.items) }
    ensures same { result.2.ghost_name ≡ gate.entry.ghost_name }
    ensures taken { HasTaken G.Gate G.Link.Link lock.now links gate.entry.now result.2.now result.1.items result.3 }
{
    let mut pass = pass;
    let mut jobs = jobs;
    for _ in 0..u32::from(links) + 1 {
        collect_ended(rt, &mut jobs, ended);
        match gate.next() {
            Next::Link(link) => {
                let number = jobs.len();
                wait_for_room(rt, ended, gate, number);
                wait_for_threads(rt, scope, ended, gate, number);
                let part = lock.split(&mut pass);
                let job = start_link(rt, alloc, scope, lock, ended, number, part, link);
                jobs.push_reserved(job);
            }
            Next::End => return (pass, jobs, gate, GateEnd::Ended),
            Next::Failed => return (pass, jobs, gate, GateEnd::Failed),
        }
    }
    unreachable!()
}

/// Where the most links are served, of so many that were started, has the gate make room and waits until one of them has ended.
fn wait_for_room<R: Wait, G: Gate>(rt: &R, ended: &Ended, gate: &mut G, started: usize)
    ensures given { G.given gate.new ≡ G.given gate.old }
    ensures finished { G.finished gate.new ≡ G.finished gate.old }
    ensures asked { G.asked gate.new ≡ G.asked gate.old }
    ensures ended { G.ended gate.new ≡ G.ended gate.old }
    ensures faults { G.faults gate.new ≡ G.faults gate.old }
{
    let enough = started.saturating_sub(MOST_SERVED - 1);
    if ended.count() < enough {
        gate.make_room();
        ended.wait_for(rt, enough);
    }
}

/// Collects the jobs whose work has ended since the last look. A thread that has ended keeps its stack until it is joined.
fn collect_ended<R: Threads, L: Link>(rt: &R, jobs: &mut Vec<Job<L>>, ended: &Ended)
    requires { vec_len jobs.old ≤ vec_len ended.now.behind }
    ensures links { map (λ j. j.given.link.value) jobs.new.items ≡ map (λ j. j.given.link.value) jobs.old.items }
    ensures shares { map (λ j. j.given.pass.value.share) jobs.new.items ≡ map (λ j. j.given.pass.value.share) jobs.old.items }
    ensures work { (lock : LockModel Head Entry) → All (IsWork L.Link lock) jobs.old.items → All (IsWork L.Link lock) jobs.new.items }
    ensures len { vec_len jobs.new ≡ vec_len jobs.old }
    ensures capacity { vec_capacity jobs.new ≡ vec_capacity jobs.old }
{
    let mut number = ended.take();
    for _ in 0..jobs.len() {
        if number >= jobs.len() {
            return;
        }
        jobs[number].collect(rt);
        number = ended.after(number);
    }
}
