ghost use Rattle.std.specs.Prelude.{◌≡◌, ◌<◌, ◌≤◌, ◌++◌, ◌∷◌, [], length, vec_len, vec_capacity, take, drop, not, IfOk, IsSome};
ghost use Rattle.edge_io.specs.Plan.{next_fails};
ghost use Rattle.edge_io.specs.Gate.{asked_of, has_room, asked_after, ListenCause, Hands, MayCome, Ends, NextCause};
ghost use Rattle.edge_io.specs.PlannedGate.{PlannedGate, new_gate, next_answer, gate_after_listen, gate_after_next};

use crate::plan::Plan;
use crate::{Gate, MemLink, Next, OutOfMemory};
use std::alloc::Global;
use std::collections::VecDeque;
use std::marker::Model;

/// A gate in memory with a list of links, which fails exactly at listed calls of `listen` and `next`; a call that
/// fails opens and takes nothing.
#[derive(Drop)]
pub struct PlanGate {
    waiting: VecDeque<MemLink>,
    // Each link as it was at first, those that were given before those that wait.
    links: Vec<MemLink>,
    given: usize,
    // With room for each link.
    finished: Vec<MemLink>,
    asked: Option<(u16, u16)>,
    ended: bool,
    plan: Plan,
}

impl Model for PlanGate {
    ghost Value = { PlannedGate };

    ghost view = { λ g. record { waiting = g.waiting.items; given = take g.given g.links.items; finished = g.finished.items; asked = asked_of g.asked; ended = g.ended; plan = g.plan } };

    ghost invariant = { λ g. (g.given ≤ vec_len g.links) × (vec_len g.links ≤ vec_capacity g.finished) × (g.waiting.items ≡ drop g.given g.links.items) × (vec_len g.finished ≤ g.given) };
}

impl PlanGate {
    /// A gate that hands out these links, and the calls of `listen` and `next` that fail, counted together from 1. It
    /// keeps a copy of each link as it is now, and has room for what comes back.
    pub fn new(alloc: Global, links: Vec<MemLink>, fails: Vec<u32>) -> Result<PlanGate, OutOfMemory>
        ensures { IfOk result (λ gate. gate ≡ new_gate links.items fails.items) }
    {
        let finished = Vec::with_capacity(alloc, links.len())?;
        let copies = Vec::from_clones(alloc, &links)?;
        Ok(PlanGate {
            waiting: VecDeque::from_vec(links),
            links: copies,
            given: 0,
            finished,
            asked: None,
            ended: false,
            plan: Plan::new(fails),
        })
    }

    /// What came back, in order.
    pub fn finished(&self) -> &[MemLink]
        ensures { result.now ≡ self.now.finished }
    {
        &self.finished
    }
}

impl Gate for PlanGate {
    type Link = MemLink;

    ghost faults = { λ g. g.plan.faults };

    ghost given = { λ g. g.given };

    ghost finished = { λ g. g.finished };

    ghost asked = { λ g. g.asked };

    ghost ended = { λ g. g.ended };

    fn listen(&mut self, port: u16, links: u16) -> bool
        ensures asked { self.new.asked ≡ asked_after result port links self.old.asked }
        ensures cause { ListenCause result self.old.plan.faults self.new.plan.faults }
        ensures given { self.new.given ≡ self.old.given }
        ensures finished { self.new.finished ≡ self.old.finished }
        ensures order { length self.old.finished ≤ length self.old.given }
        ensures ended { self.new.ended ≡ self.old.ended }
        // It fails exactly at the listed calls.
        ensures answer { result ≡ not (next_fails self.old.plan) }
        ensures after { self.new ≡ gate_after_listen self.old port links }
    {
        if self.plan.fails_now() {
            return false;
        }
        self.asked = Some((port, links));
        true
    }

    fn next(&mut self) -> Next<MemLink>
        requires { IsSome self.old.asked }
        ensures given { Hands result self.old.given self.new.given }
        ensures limit { MayCome result (length self.old.given) self.old.asked self.old.ended }
        ensures ended { Ends result self.old.ended self.new.ended }
        ensures cause { NextCause result self.old.plan.faults self.new.plan.faults }
        ensures asked { self.new.asked ≡ self.old.asked }
        ensures finished { self.new.finished ≡ self.old.finished }
        // It fails exactly at the listed calls, and else hands out the links in order up to the number that was asked for.
        ensures answer { result ≡ next_answer self.old }
        ensures after { self.new ≡ gate_after_next self.old }
    {
        if self.plan.fails_now() {
            return Next::Failed;
        }
        if !self.ended && has_room(&self.asked, self.given) {
            if let Some(link) = self.waiting.pop_front() {
                self.given += 1;
                return Next::Link(link);
            }
        }
        self.ended = true;
        Next::End
    }

    fn done(&mut self, spent: MemLink)
        requires { length self.old.finished < length self.old.given }
        ensures finished { self.new.finished ≡ self.old.finished ++ spent ∷ [] }
        ensures given { self.new.given ≡ self.old.given }
        ensures asked { self.new.asked ≡ self.old.asked }
        ensures ended { self.new.ended ≡ self.old.ended }
        ensures faults { self.new.plan.faults ≡ self.old.plan.faults }
    {
        self.finished.push_reserved(spent);
    }
}

/// Whether fewer links were given than were asked for.
fn has_room(asked: &Option<(u16, u16)>, given: usize) -> bool
    ensures { result ≡ has_room (asked_of asked.now) given }
{
    match asked {
        Some((_, links)) => given < usize::from(*links),
        None => false,
    }
}
