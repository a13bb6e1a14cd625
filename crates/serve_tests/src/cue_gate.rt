//! A gate in memory whose readers wait for cues.
ghost use Rattle.std.specs.Prelude.{◌≡◌, IfOk};
ghost use Rattle.std.specs.declared.option.Option.TheVariants.{None};
ghost use Rattle.edge_io.specs.Gate.{asked_of, has_room};
ghost use Rattle.serve_tests.specs.CueCounts.{new_gate};

use crate::cues::{CueReader, CueWriter, Marks, Nth, Part};
use edge_io::{Bytes, Gate, Link, Next, OutOfMemory};
use std::alloc::Global;
use std::collections::VecDeque;
use std::marker::Model;
use std::sync::Arc;

/// A link of a gate, whose halves share the counts of marks. Contracts see nothing of it.
#[derive(Drop)]
pub struct CueLink {
    marks: Arc<Marks>,
    counted: Arc<Marks>,
    nth: Nth,
    now: Bytes,
    parts: VecDeque<Part>,
}

impl Model for CueLink {
    ghost Value = { Unit {0} };

    ghost view = { λ _. tt };
}

impl CueLink {
    /// A link whose reader gives these parts, one after the other.
    pub fn new(
        alloc: Global,
        marks: &Arc<Marks>,
        nth: Nth,
        parts: Vec<Part>,
    ) -> Result<CueLink, OutOfMemory> {
        Ok(CueLink {
            marks: Arc::try_clone(marks)?,
            counted: Arc::try_clone(marks)?,
            nth,
            now: Bytes::new(Vec::new(alloc), Vec::new(alloc)),
            parts: VecDeque::from_vec(parts),
        })
    }
}

/// What is left of a link: how often its reader has failed.
#[derive(Drop)]
pub struct CueSpent {
    read_faults: u64,
}

impl Model for CueSpent {
    ghost use Rattle.std.specs.Prelude.{ℕ};

    ghost Value = { ℕ };

    ghost view = { λ s. s.read_faults };
}

impl Link for CueLink {
    type Reader = CueReader;

    type Writer = CueWriter;

    type Spent = CueSpent;

    ghost left = { λ _. None };

    ghost told = { λ _. None };

    ghost reader_faults = { λ _. 0 };

    ghost writer_faults = { λ _. 0 };

    ghost spent_left = { λ _. None };

    ghost spent_told = { λ _. None };

    ghost spent_reader_faults = { λ s. s };

    ghost spent_writer_faults = { λ _. 0 };

    fn split(self) -> (CueReader, CueWriter) {
        let CueLink {
            marks,
            counted,
            nth,
            now,
            parts,
        } = self;
        let reader = CueReader {
            marks,
            now,
            parts,
            faults: 0,
        };
        (
            reader,
            CueWriter {
                marks: counted,
                nth,
            },
        )
    }

    fn close(reader: CueReader, _writer: CueWriter) -> CueSpent {
        CueSpent {
            read_faults: reader.faults,
        }
    }
}

/// A gate that hands out its links in order, and never fails.
#[derive(Drop)]
pub struct CueGate {
    waiting: VecDeque<CueLink>,
    given: usize,
    // With room for each link.
    finished: Vec<CueSpent>,
    asked: Option<(u16, u16)>,
    ended: bool,
}

impl Model for CueGate {
    ghost use Rattle.std.specs.Prelude.{◌≤◌, ◌+◌, length, vec_len, vec_capacity};
    ghost use Rattle.edge_io.specs.Gate.{asked_of};
    ghost use Rattle.serve_tests.specs.CueCounts.{GateCounts, links_of};

    ghost Value = { GateCounts };

    ghost view = { λ g. record { given = links_of g.given; finished = g.finished.items; asked = asked_of g.asked; ended = g.ended } };

    ghost invariant = { λ g. (vec_len g.finished ≤ g.given) × (g.given + length g.waiting.items ≤ vec_capacity g.finished) };
}

impl CueGate {
    /// A gate with these links.
    pub fn new(alloc: Global, links: Vec<CueLink>) -> Result<CueGate, OutOfMemory>
        ensures { IfOk result (λ g. g ≡ new_gate) }
    {
        let finished = Vec::with_capacity(alloc, links.len())?;
        Ok(CueGate {
            waiting: VecDeque::from_vec(links),
            given: 0,
            finished,
            asked: None,
            ended: false,
        })
    }
}

impl Gate for CueGate {
    type Link = CueLink;

    ghost faults = { λ _. 0 };

    ghost given = { λ g. g.given };

    ghost finished = { λ g. g.finished };

    ghost asked = { λ g. g.asked };

    ghost ended = { λ g. g.ended };

    fn listen(&mut self, port: u16, links: u16) -> bool {
        self.asked = Some((port, links));
        true
    }

    fn next(&mut self) -> Next<CueLink> {
        if !self.ended && has_room(&self.asked, self.given) {
            if let Some(link) = self.waiting.pop_front() {
                self.given += 1;
                return Next::Link(link);
            }
        }
        self.ended = true;
        Next::End
    }

    fn done(&mut self, spent: CueSpent) {
        self.finished.push_reserved(spent);
    }
}

/// Whether fewer links were given than were asked for.
fn has_room(asked: &Option<(u16, u16)>, given: usize) -> bool
    ensures { result ≡ has_room (asked_of asked.now) given }
{
    match asked {
        Some((_, links)) => given < usize::from(*links),
        None => false,
    }
}
