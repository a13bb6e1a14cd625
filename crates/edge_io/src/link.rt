ghost use Rattle.std.specs.Prelude.{◌≡◌, List, ℕ};
ghost use Rattle.std.specs.declared.option.Option.{Option};

use crate::{FrameSink, Source};

/// A connection: a source and a sink that are used apart from each other, and what is left of it afterwards.
pub trait Link: Send + Drop {
    type Reader: Source + Send + Drop;

    type Writer: FrameSink + Send + Drop;

    type Spent: Send + Drop;

    // What the two halves of a link mean.
    ghost left: { Self → Option (List ℕ) };

    ghost told: { Self → Option (List ℕ) };

    ghost reader_faults: { Self → ℕ };

    ghost writer_faults: { Self → ℕ };

    // What they mean of a link that was closed.
    ghost spent_left: { Self.Spent → Option (List ℕ) };

    ghost spent_told: { Self.Spent → Option (List ℕ) };

    ghost spent_reader_faults: { Self.Spent → ℕ };

    ghost spent_writer_faults: { Self.Spent → ℕ };

    /// Hands on the two halves as they are.
    fn split(self) -> (Self::Reader, Self::Writer)
        ensures left { Self.Reader.left result.0 ≡ left self }
        ensures told { Self.Writer.told result.1 ≡ told self }
        ensures reader_faults { Self.Reader.faults result.0 ≡ reader_faults self }
        ensures writer_faults { Self.Writer.faults result.1 ≡ writer_faults self };

    /// Gives up the connection, and keeps what its halves mean.
    fn close(reader: Self::Reader, writer: Self::Writer) -> Self::Spent
        ensures left { spent_left result ≡ Self.Reader.left reader }
        ensures told { spent_told result ≡ Self.Writer.told writer }
        ensures reader_faults { spent_reader_faults result ≡ Self.Reader.faults reader }
        ensures writer_faults { spent_writer_faults result ≡ Self.Writer.faults writer };
}
