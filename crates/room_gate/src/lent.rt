//! A gate that is lent.
ghost use Rattle.std.specs.Prelude.{◌≡◌, ℕ};

use edge_io::{Gate, Link, Next};
use std::marker::{Brand, PhantomData};

/// Which borrow of a gate it is.
pub trait Lender {
    // The name that proofs have for the borrow.
    ghost name: { ℕ };
}

impl Lender for Brand {
    ghost name = { 0 };
}

/// A gate that is lent, by the borrow that `N` names.
pub struct LentGate<'g, G: Gate, N: Lender> {
    gate: &'g mut G,
    of: PhantomData<N>,
    ghost same: { gate.ghost_name ≡ N.name },
}

impl<'g, G: Gate, N: Lender> LentGate<'g, G, N> {
    /// The gate behind the borrow.
    pub fn new(gate: &'g mut G) -> LentGate<'g, G, N>
        requires { gate.ghost_name ≡ N.name }
        ensures { result.gate.now ≡ gate.old }
    {
        LentGate {
            gate,
            of: PhantomData,
        }
    }

    /// The borrow.
    pub fn into_gate(self) -> &'g mut G
        ensures same { result.ghost_name ≡ N.name }
        ensures gate { result.now ≡ self.entry.gate.now }
    {
        let LentGate { gate, of: _ } = self;
        gate
    }
}

impl<'g, G: Gate, N: Lender> Gate for LentGate<'g, G, N> {
    type Link = G::Link;

    ghost faults = { λ g. G.faults g.gate.now };

    ghost given = { λ g. G.given g.gate.now };

    ghost finished = { λ g. G.finished g.gate.now };

    ghost asked = { λ g. G.asked g.gate.now };

    ghost ended = { λ g. G.ended g.gate.now };

    fn listen(&mut self, port: u16, links: u16) -> bool {
        self.gate.listen(port, links)
    }

    fn next(&mut self) -> Next<G::Link> {
        self.gate.next()
    }

    fn done(&mut self, spent: <G::Link as Link>::Spent) {
        self.gate.done(spent);
    }

    fn make_room(&mut self) {
        self.gate.make_room();
    }
}
