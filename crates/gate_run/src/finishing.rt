//! The end of a gate's work: each pass meets the first one, and each link goes back.
ghost use Rattle.std.specs.Prelude.{◌≡◌, [], ◌++◌, ◌+◌, ◌<◌, ◌≤◌, List, length, map, flat_map, All, AllPairs, vec_len, vec_capacity};
ghost use Rattle.grow_lock.specs.Passes.{IsPassOf};
ghost use Rattle.grow_lock.specs.Shares.{Share, both, HoldsShare};
ghost use Rattle.gate_run.specs.Working.{IsWork, IsDealtOut, EndsWork};
ghost use Rattle.gate_run.specs.OpenGate.{EndsAll};

use crate::jobs::{Job, Outcome};
use edge_io::Gate;
use grow_lock::{GrowLock, Pass};
use serve_rules::ConnReport;
use session_core::Session;
use std::collections::VecDeque;
use std::thread::Threads;

/// Ends the jobs in their order: adds each one's report, gives its link back, and has its pass meet this one.
pub fn finish_all<R: Threads, G: Gate>(
    rt: &R,
    lock: &GrowLock<Session>,
    pass: Pass<Session>,
    jobs: VecDeque<Job<G::Link>>,
    gate: &mut G,
    reports: &mut Vec<ConnReport>,
) -> Pass<Session>
    requires lock { IsPassOf lock.now pass }
    requires mine { pass.mine ≡ [] }
    requires work { All (IsWork G.Link.Link lock.now) jobs.items }
    requires given { length (G.finished gate.old) + length jobs.items ≤ length (G.given gate.old) }
    requires none { reports.old.items ≡ [] }
    requires room { vec_len reports.old + length jobs.items ≤ vec_capacity reports.old }
    ensures lock { IsPassOf lock.now result }
    ensures mine { result.mine ≡ flat_map (λ r. r.places.list) reports.new.items }
    ensures share { (share : Share) → IsDealtOut share pass.share (map (λ j. j.given.pass.value.share) jobs.items) → HoldsShare result.share share }
    ensures all { EndsAll G.Link.Link lock.now.head lock.now.first result.seen (map (λ j. j.given.link.value) jobs.items) reports.new.items (G.finished gate.old)
        (G.finished gate.new) }
    ensures given { G.given gate.new ≡ G.given gate.old }
    ensures asked { G.asked gate.new ≡ G.asked gate.old }
    ensures ended { G.ended gate.new ≡ G.ended gate.old }
    ensures faults { G.faults gate.new ≡ G.faults gate.old }
{
    let mut pass = pass;
    let mut jobs = jobs;
    while let Some(job) = jobs.pop_front() {
        pass = finish_next(rt, lock, pass, job, gate, reports);
    }
    pass
}

/// Ends a job: adds its report, gives its link back, and has its pass meet this one.
fn finish_next<R: Threads, G: Gate>(
    rt: &R,
    lock: &GrowLock<Session>,
    pass: Pass<Session>,
    job: Job<G::Link>,
    gate: &mut G,
    reports: &mut Vec<ConnReport>,
) -> Pass<Session>
    requires lock { IsPassOf lock.now pass }
    requires work { IsWork G.Link.Link lock.now job }
    requires given { length (G.finished gate.old) < length (G.given gate.old) }
    requires room { vec_len reports.old < vec_capacity reports.old }
    ensures lock { IsPassOf lock.now result }
    ensures share { HoldsShare result.share (both pass.share job.given.pass.value.share) }
    ensures ends { EndsWork G.Link.Link lock.now.head lock.now.first job.given.link.value pass result reports.old.items reports.new.items (G.finished gate.old)
        (G.finished gate.new) }
    ensures len { vec_len reports.new ≡ vec_len reports.old + 1 }
    ensures capacity { vec_capacity reports.new ≡ vec_capacity reports.old }
    ensures given { G.given gate.new ≡ G.given gate.old }
    ensures asked { G.asked gate.new ≡ G.asked gate.old }
    ensures ended { G.ended gate.new ≡ G.ended gate.old }
    ensures faults { G.faults gate.new ≡ G.faults gate.old }
{
    let Outcome {
        pass: theirs,
        report,
        spent,
    } = job.finish(rt, lock);
    reports.push_reserved(report);
    gate.done(spent);
    lock.meet(theirs, pass)
}
