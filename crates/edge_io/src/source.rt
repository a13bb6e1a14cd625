ghost use Rattle.std.specs.Prelude.{◌≡◌, ◌<◌, Bool, false, List, ℕ, length};
ghost use Rattle.std.specs.declared.option.Option.{Option};

/// What a read gave.
#[derive(Clone, Copy, Debug, PartialEq, Eq)]
pub enum Got {
    /// So many bytes, one or more, at the front of the buffer.
    Bytes(usize),
    /// Nothing is left.
    End,
    /// A fault, which is counted; no byte was taken.
    Failed,
}

/// Where bytes come from.
pub trait Source {
    ghost use Rattle.edge_io.specs.Source.{FitsRoom, Takes, ReadCause};

    // The bytes not yet read, where it tells them.
    ghost left: { Self → Option (List ℕ) };

    // How often it has failed.
    ghost faults: { Self → ℕ };

    // Whether its reads have a limit of time.
    ghost limited: { Self → Bool };

    /// Reads some bytes into the front of a buffer of one byte or more.
    fn read(&mut self, buf: &mut [u8]) -> Got
        requires { 0 < length buf.old }
        ensures count { FitsRoom result (length buf.old) }
        ensures bytes { Takes (left self.old) (left self.new) result buf.new }
        ensures cause { ReadCause result (faults self.old) (faults self.new) }
        ensures free { limited self.old ≡ false → limited self.new ≡ false };

    /// From now on a read may wait for as long as it takes.
    fn lift_limit(&mut self)
        ensures left { left self.new ≡ left self.old }
        ensures faults { faults self.new ≡ faults self.old }
        ensures free { limited self.new ≡ false };
}
