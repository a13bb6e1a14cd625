//! The gate of a room.
ghost use Rattle.std.specs.Prelude.{◌≡◌, [], false, ◌||◌, IfOk, IfErr};
ghost use Rattle.room_gate.specs.Rooms.{HasBack};

use crate::{Keeper, RoomLink, RoomSpent};
use edge_io::{Gate, Link, Next, Store};
use std::alloc::Global;
use std::marker::Model;
use std::snapshot::Snapshot;
use std::sync::Wait;
use std::sync::atomic::{AtomicBool, Ordering};

/// The gate of a room: the links that another gate gives, each with a keeper, until the room is closed. Contracts see the gate within, whether no
/// further link will come since the room was closed, and what came back of the links.
pub struct RoomGate<'a, R: Wait, G: Gate, K: Store + Drop> {
    gate: G,
    keeper: Keeper<'a, R, K>,
    closed: &'a AtomicBool,
    shut: bool,
    given: usize,
    // With room for each link.
    finished: Vec<Snapshot<RoomSpent<G::Link>>>,
}

impl<'a, R: Wait, G: Gate, K: Store + Drop> Model for RoomGate<'a, R, G, K> {
    ghost use Rattle.std.specs.Prelude.{map, vec_capacity};
    ghost use Rattle.room_gate.specs.Rooms.{RoomModel, IsRoom};

    ghost Value = { RoomModel G G.Link.Spent };

    ghost view = { λ g. record { gate = g.gate; shut = g.shut; finished = map (λ s. s.value) g.finished.items } };

    ghost invariant = { λ g. IsRoom G.Gate G.Link.Link g.gate g.given (map (λ s. s.value) g.finished.items) (vec_capacity g.finished) };
}

impl<'a, R: Wait, G: Gate, K: Store + Drop> RoomGate<'a, R, G, K> {
    /// A gate over one that has given no link, for as many as it will be asked for. Once `closed` is set no further link comes. An `Err` gives the gate back.
    pub fn new(
        alloc: Global,
        gate: G,
        keeper: Keeper<'a, R, K>,
        closed: &'a AtomicBool,
        links: u16,
    ) -> Result<RoomGate<'a, R, G, K>, G>
        requires given { G.given gate ≡ [] }
        requires finished { G.finished gate ≡ [] }
        ensures gate { IfOk result (λ room. room.gate ≡ gate) }
        ensures shut { IfOk result (λ room. room.shut ≡ false) }
        ensures finished { IfOk result (λ room. room.finished ≡ []) }
        ensures back { IfErr result (λ back. back ≡ gate) }
    {
        // One more than will come, so that the gate within is asked for the end.
        let Ok(finished) = Vec::with_capacity(alloc, usize::from(links) + 1) else {
            return Err(gate);
        };
        Ok(RoomGate {
            gate,
            keeper,
            closed,
            shut: false,
            given: 0,
            finished,
        })
    }

    /// The gate within.
    pub fn into_gate(self) -> G
        ensures gate { result ≡ self.entry.gate }
        ensures back { HasBack G.Gate G.Link.Link result self.entry.finished }
    {
        let RoomGate {
            gate,
            keeper: _,
            closed: _,
            shut: _,
            given: _,
            finished: _,
        } = self;
        gate
    }
}

impl<'a, R: Wait + Sync, G: Gate, K: Store + Drop + Send> Gate for RoomGate<'a, R, G, K> {
    type Link = RoomLink<'a, R, G::Link, K>;

    ghost faults = { λ g. G.faults g.gate };

    ghost given = { λ g. G.given g.gate };

    ghost finished = { λ g. g.finished };

    ghost asked = { λ g. G.asked g.gate };

    ghost ended = { λ g. G.ended g.gate || g.shut };

    fn listen(&mut self, port: u16, links: u16) -> bool {
        self.gate.listen(port, links)
    }

    /// Where the room was closed, or as many links were given as there is room for, no further one comes.
    fn next(&mut self) -> Next<RoomLink<'a, R, G::Link, K>> {
        if self.shut
            || self.closed.load(Ordering::SeqCst)
            || self.given >= self.finished.capacity()
        {
            self.shut = true;
            return Next::End;
        }
        match self.gate.next() {
            Next::Link(link) => {
                self.given += 1;
                Next::Link(RoomLink {
                    link,
                    keeper: self.keeper.split(),
                    closed: self.closed,
                })
            }
            Next::End => Next::End,
            Next::Failed => Next::Failed,
        }
    }

    fn done(&mut self, spent: RoomSpent<G::Link>) {
        let meant = Snapshot::of(&spent);
        let RoomSpent {
            spent,
            before: _,
            unkept: _,
            unsaid: _,
        } = spent;
        self.gate.done(spent);
        self.finished.push_reserved(meant);
    }

    fn make_room(&mut self) {
        self.gate.make_room();
    }
}
