ghost use Rattle.std.specs.Prelude.{List, ℕ};
ghost use Rattle.std.specs.declared.option.Option.{Option};

/// What a write did.
#[derive(Clone, Copy, Debug, PartialEq, Eq)]
pub enum Wrote {
    /// Exactly the bytes were written.
    All,
    /// A fault, which is counted; a front of the bytes was written.
    Failed,
    /// No memory was left for the bytes; a front of them was written.
    OutOfMemory,
}

/// Where bytes go.
pub trait Sink {
    ghost use Rattle.edge_io.specs.Sink.{Appends, WriteCause};

    // The bytes written so far, where it tells them.
    ghost told: { Self → Option (List ℕ) };

    // How often it has failed.
    ghost faults: { Self → ℕ };

    /// Writes all of the bytes, or a front of them where it doesn't answer `All`.
    fn write_all(&mut self, bytes: &[u8]) -> Wrote
        ensures bytes { Appends (told self.old) (told self.new) result bytes.now }
        ensures cause { WriteCause result (faults self.old) (faults self.new) };
}
