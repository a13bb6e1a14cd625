ghost use Rattle.std.specs.Prelude.{◌≡◌, ℕ, Bool};

use crate::{Sink, Wrote};

/// A sink of a viewer's frames. What a frame shows may have to be kept before the frame's first byte is written.
pub trait FrameSink: Sink {
    ghost use Rattle.edge_io.specs.FrameSink.{Keeping};
    ghost use Rattle.edge_io.specs.Sink.{WriteCause};

    // Whether anything has to be kept.
    ghost keeps: { Bool };

    // How many first entries of the session's journal it knows to be kept.
    ghost kept: { Self → ℕ };

    /// Has so many first entries of the session's journal kept. It writes nothing; where they can't be kept that is a fault, which is counted.
    fn keep(&mut self, number: u64) -> Wrote
        ensures kept { Keeping keeps result number (kept self.old) (kept self.new) }
        ensures told { Self.told self.new ≡ Self.told self.old }
        ensures cause { WriteCause result (Self.faults self.old) (Self.faults self.new) };
}
