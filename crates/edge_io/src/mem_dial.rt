ghost use Rattle.std.specs.Prelude.{◌≡◌, ◌<◌, ◌≤◌, ◌++◌, ◌∷◌, [], length, vec_len, vec_capacity, take, drop, IfOk, Some};
ghost use Rattle.std.specs.Option.{option_to_list};
ghost use Rattle.edge_io.specs.Dial.{Hands, DialCause};
ghost use Rattle.edge_io.specs.PlannedDial.{PlannedDial, new_dial, dial_answer, dial_after_call};

use crate::plan::Plan;
use crate::{Dial, MemLink, OutOfMemory};
use std::alloc::Global;
use std::marker::Model;

/// A link in memory that is asked for: the first call that isn't listed hands it out, and each call after it is a fault.
#[derive(Drop)]
pub struct MemDial {
    waiting: Option<MemLink>,
    // The link as it was at first.
    links: Vec<MemLink>,
    given: usize,
    // With room for it.
    finished: Vec<MemLink>,
    asked: Option<u16>,
    plan: Plan,
}

impl Model for MemDial {
    ghost Value = { PlannedDial };

    ghost view = { λ d. record { waiting = d.waiting; given = take d.given d.links.items; finished = d.finished.items; asked = d.asked; plan = d.plan } };

    ghost invariant = { λ d. (d.given ≤ vec_len d.links) × (vec_len d.links ≤ vec_capacity d.finished) × (option_to_list d.waiting ≡ drop d.given d.links.items) × (vec_len d.finished ≤ d.given) };
}

impl MemDial {
    /// This link, and the calls of `dial` that fail, counted from 1. It keeps a copy of the link as it is now, and has room for what
    /// comes back.
    pub fn new(alloc: Global, link: MemLink, fails: Vec<u32>) -> Result<MemDial, OutOfMemory>
        ensures { IfOk result (λ dial. dial ≡ new_dial link fails.items) }
    {
        let finished = Vec::with_capacity(alloc, 1)?;
        let links = Vec::from_array(alloc, [link.clone()?])?;
        Ok(MemDial {
            waiting: Some(link),
            links,
            given: 0,
            finished,
            asked: None,
            plan: Plan::new(fails),
        })
    }

    /// What came back.
    pub fn finished(&self) -> &[MemLink]
        ensures { result.now ≡ self.now.finished }
    {
        &self.finished
    }
}

impl Dial for MemDial {
    type Link = MemLink;

    ghost faults = { λ d. d.plan.faults };

    ghost given = { λ d. d.given };

    ghost finished = { λ d. d.finished };

    ghost asked = { λ d. d.asked };

    fn dial(&mut self, port: u16) -> Option<MemLink>
        ensures asked { self.new.asked ≡ Some port }
        ensures given { Hands result self.old.given self.new.given }
        ensures cause { DialCause result self.old.plan.faults self.new.plan.faults }
        ensures finished { self.new.finished ≡ self.old.finished }
        ensures order { length self.old.finished ≤ length self.old.given }
        // It fails exactly at the listed calls, and once its link was handed out.
        ensures answer { result ≡ dial_answer self.old }
        ensures after { self.new ≡ dial_after_call self.old port }
    {
        self.asked = Some(port);
        if self.plan.fails_now() {
            return None;
        }
        match self.waiting.take() {
            Some(link) => {
                self.given += 1;
                Some(link)
            }
            None => {
                self.plan.count_fault();
                None
            }
        }
    }

    fn done(&mut self, spent: MemLink)
        requires { length self.old.finished < length self.old.given }
        ensures finished { self.new.finished ≡ self.old.finished ++ spent ∷ [] }
        ensures given { self.new.given ≡ self.old.given }
        ensures asked { self.new.asked ≡ self.old.asked }
        ensures faults { self.new.plan.faults ≡ self.old.plan.faults }
    {
        self.finished.push_reserved(spent);
    }
}
