//! Why a record isn't read on. Places are offsets in bytes from the start of the slice that is read.

ghost use Rattle.std.specs.Prelude.{◌≡◌};
ghost use Rattle.record_file.specs.declared.read_fault.BodyFault.TheVariants.{Broken as BrokenBody, OutOfMemory as NoMemoryForBody};
ghost use Rattle.record_file.specs.declared.read_fault.ReadFault.TheVariants.{Missing, OutOfMemory as NoMemory};

use crate::OutOfMemory;
use std::alloc::AllocFailed;
use wire_num::Short;

/// Why a body isn't read as an entry.
#[derive(Clone, Copy, Debug, PartialEq, Eq)]
pub enum BodyFault {
    /// A field breaks its rule, doesn't fit in what is left, or is left over; `at` is the place of its first byte.
    Broken { at: usize },
    /// No memory was left for the entry.
    OutOfMemory,
}

/// Why what stands next in a record isn't read.
#[derive(Clone, Copy, Debug, PartialEq, Eq)]
pub enum ReadFault {
    /// Not all bytes of the field that begins at `at` are there, and no field before it breaks its rule.
    Missing { at: usize },
    /// The field that begins at `at` is the first that breaks its rule, and all its bytes are there.
    Broken { at: usize },
    /// No memory was left for what is read.
    OutOfMemory,
}

impl From<Short> for BodyFault {
    ghost from_gives = { λ short fault. fault ≡ BrokenBody short.at };

    fn from(short: Short) -> BodyFault {
        BodyFault::Broken { at: short.at }
    }
}

impl From<Short> for ReadFault {
    ghost from_gives = { λ short fault. fault ≡ Missing short.at };

    fn from(short: Short) -> ReadFault {
        ReadFault::Missing { at: short.at }
    }
}

impl From<OutOfMemory> for BodyFault {
    ghost from_gives = { λ _ fault. fault ≡ NoMemoryForBody };

    fn from(_: OutOfMemory) -> BodyFault {
        BodyFault::OutOfMemory
    }
}

impl From<OutOfMemory> for ReadFault {
    ghost from_gives = { λ _ fault. fault ≡ NoMemory };

    fn from(_: OutOfMemory) -> ReadFault {
        ReadFault::OutOfMemory
    }
}

impl<T: Drop> From<AllocFailed<T>> for ReadFault {
    ghost from_gives = { λ _ fault. fault ≡ NoMemory };

    fn from(_: AllocFailed<T>) -> ReadFault {
        ReadFault::OutOfMemory
    }
}
