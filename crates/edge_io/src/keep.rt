ghost use Rattle.std.specs.Prelude.{◌≡◌, [], List, ℕ};
ghost use Rattle.std.specs.declared.option.Option.TheVariants.{Some};
ghost use Rattle.edge_io.specs.Sink.{Appends, WriteCause};
ghost use Rattle.edge_io.specs.PlannedSink.{told_after_write};

use crate::{Sink, Wrote};
use std::alloc::{AllocError, Global};
use std::marker::Model;

/// A sink in memory, which never fails. It is seen as the bytes that it was told.
#[derive(Drop)]
pub struct Keep {
    bytes: Vec<u8>,
}

impl Model for Keep {
    ghost Value = { List ℕ };

    ghost view = { λ s. s.bytes.items };
}

impl Keep {
    pub fn new(alloc: Global) -> Keep
        ensures { result ≡ [] }
    {
        Keep {
            bytes: Vec::new(alloc),
        }
    }

    /// A sink that was told these bytes.
    pub(crate) fn of(bytes: Vec<u8>) -> Keep
        ensures { result ≡ bytes.items }
    {
        Keep { bytes }
    }

    /// The bytes that it was told.
    pub fn bytes(&self) -> &[u8]
        ensures { result.now ≡ self.now }
    {
        &self.bytes
    }
}

impl Clone for Keep {
    ghost is_clone = { λ sink copy. copy ≡ sink };

    fn clone(&self) -> Result<Keep, AllocError> {
        Ok(Keep {
            bytes: self.bytes.clone()?,
        })
    }
}

impl Sink for Keep {
    ghost told = { λ s. Some s };

    ghost faults = { λ s. 0 };

    fn write_all(&mut self, bytes: &[u8]) -> Wrote
        ensures bytes { Appends (Some self.old) (Some self.new) result bytes.now }
        ensures cause { WriteCause result 0 0 }
        // Want of memory leaves it as it was.
        ensures after { self.new ≡ told_after_write result self.old bytes.now }
    {
        match self.bytes.extend_from_slice(bytes) {
            Ok(()) => Wrote::All,
            Err(_) => Wrote::OutOfMemory,
        }
    }
}
