ghost use Rattle.std.specs.Prelude.{◌≡◌, ◌<◌, ◌≤◌, ◌++◌, ◌∷◌, [], List, ℕ, length, Some};
ghost use Rattle.std.specs.declared.option.Option.{Option};

use crate::Link;

/// Where links are asked for.
pub trait Dial {
    ghost use Rattle.edge_io.specs.Dial.{Hands, DialCause};

    type Link: Link;

    // How often it has failed.
    ghost faults: { Self → ℕ };

    // The links handed out, each as it was then.
    ghost given: { Self → List Self.Link };

    // What came back.
    ghost finished: { Self → List Self.Link.Spent };

    // The port that was asked for last.
    ghost asked: { Self → Option ℕ };

    /// Asks for a link to a port of this machine, and hands it out; `None` is a fault, which is counted. No more links came back so
    /// far than were given.
    fn dial(&mut self, port: u16) -> Option<Self::Link>
        ensures asked { asked self.new ≡ Some port }
        ensures given { Hands result (given self.old) (given self.new) }
        ensures cause { DialCause result (faults self.old) (faults self.new) }
        ensures finished { finished self.new ≡ finished self.old }
        ensures order { length (finished self.old) ≤ length (given self.old) };

    /// Takes back what is left of a link. Fewer came back before than were given.
    fn done(&mut self, spent: <Self::Link as Link>::Spent)
        requires { length (finished self.old) < length (given self.old) }
        ensures finished { finished self.new ≡ finished self.old ++ spent ∷ [] }
        ensures given { given self.new ≡ given self.old }
        ensures asked { asked self.new ≡ asked self.old }
        ensures faults { faults self.new ≡ faults self.old };
}
