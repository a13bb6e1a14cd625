ghost use Rattle.std.specs.Prelude.{◌≡◌, ◌<◌, ◌≤◌, ◌++◌, ◌∷◌, [], List, ℕ, length, Bool, IsSome};
ghost use Rattle.std.specs.declared.option.Option.{Option};

use crate::Link;

/// What a gate gave.
#[derive(Drop)]
pub enum Next<L> {
    /// The next link.
    Link(L),
    /// No further link will come.
    End,
    /// A fault, which is counted; no link was taken.
    Failed,
}

/// Where links come from.
pub trait Gate {
    ghost use Rattle.edge_io.specs.Gate.{Asked, asked_after, ListenCause, Hands, MayCome, Ends, NextCause};

    type Link: Link;

    // How often it has failed.
    ghost faults: { Self → ℕ };

    // The links handed out, each as it was then.
    ghost given: { Self → List Self.Link };

    // What came back.
    ghost finished: { Self → List Self.Link.Spent };

    // What the last call of `listen` that answered true asked for.
    ghost asked: { Self → Option Asked };

    // No further link will come.
    ghost ended: { Self → Bool };

    /// Opens a port for at most so many links, and says whether it is open. No more links came back so far than were given.
    fn listen(&mut self, port: u16, links: u16) -> bool
        ensures asked { asked self.new ≡ asked_after result port links (asked self.old) }
        ensures cause { ListenCause result (faults self.old) (faults self.new) }
        ensures given { given self.new ≡ given self.old }
        ensures finished { finished self.new ≡ finished self.old }
        ensures order { length (finished self.old) ≤ length (given self.old) }
        ensures ended { ended self.new ≡ ended self.old };

    /// Hands out the next link, after a call of `listen` that answered true.
    fn next(&mut self) -> Next<Self::Link>
        requires { IsSome (asked self.old) }
        ensures given { Hands result (given self.old) (given self.new) }
        ensures limit { MayCome result (length (given self.old)) (asked self.old) (ended self.old) }
        ensures ended { Ends result (ended self.old) (ended self.new) }
        ensures cause { NextCause result (faults self.old) (faults self.new) }
        ensures asked { asked self.new ≡ asked self.old }
        ensures finished { finished self.new ≡ finished self.old };

    /// Takes back what is left of a link. Fewer came back before than were given.
    fn done(&mut self, spent: <Self::Link as Link>::Spent)
        requires { length (finished self.old) < length (given self.old) }
        ensures finished { finished self.new ≡ finished self.old ++ spent ∷ [] }
        ensures given { given self.new ≡ given self.old }
        ensures asked { asked self.new ≡ asked self.old }
        ensures ended { ended self.new ≡ ended self.old }
        ensures faults { faults self.new ≡ faults self.old };

    /// Says that one client more waits than can be served. A gate may end a link whose client isn't ready; one that can't does nothing.
    fn make_room(&mut self)
        ensures faults { faults self.new ≡ faults self.old }
        ensures given { given self.new ≡ given self.old }
        ensures finished { finished self.new ≡ finished self.old }
        ensures asked { asked self.new ≡ asked self.old }
        ensures ended { ended self.new ≡ ended self.old }
    {}
}
