ghost use Rattle.std.specs.Prelude.{◌≡◌};

use crate::{Link, PlanSink, PlanSource, Sink, Source};
use std::alloc::AllocError;

/// A link in memory, which is its own remainder.
#[derive(Drop)]
pub struct MemLink {
    /// What comes in.
    pub reader: PlanSource,
    /// What goes out.
    pub writer: PlanSink,
}

impl Clone for MemLink {
    ghost is_clone = { λ link copy. copy ≡ link };

    fn clone(&self) -> Result<MemLink, AllocError> {
        Ok(MemLink {
            reader: self.reader.clone()?,
            writer: self.writer.clone()?,
        })
    }
}

impl Link for MemLink {
    type Reader = PlanSource;

    type Writer = PlanSink;

    type Spent = MemLink;

    ghost left = { λ l. ⟦<PlanSource as Source>⟧.left l.reader };

    ghost told = { λ l. ⟦<PlanSink as Sink>⟧.told l.writer };

    ghost reader_faults = { λ l. ⟦<PlanSource as Source>⟧.faults l.reader };

    ghost writer_faults = { λ l. ⟦<PlanSink as Sink>⟧.faults l.writer };

    ghost spent_left = { λ l. ⟦<PlanSource as Source>⟧.left l.reader };

    ghost spent_told = { λ l. ⟦<PlanSink as Sink>⟧.told l.writer };

    ghost spent_reader_faults = { λ l. ⟦<PlanSource as Source>⟧.faults l.reader };

    ghost spent_writer_faults = { λ l. ⟦<PlanSink as Sink>⟧.faults l.writer };

    fn split(self) -> (PlanSource, PlanSink)
        ensures { result ≡ (self.reader, self.writer) }
    {
        let MemLink { reader, writer } = self;
        (reader, writer)
    }

    fn close(reader: PlanSource, writer: PlanSink) -> MemLink
        ensures { result ≡ record { reader = reader; writer = writer } }
    {
        MemLink { reader, writer }
    }
}
