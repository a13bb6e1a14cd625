//! Why a run-length bitmap isn't read.
ghost use Rattle.std.specs.Prelude.{◌≡◌};
ghost use Rattle.rle_dec.specs.declared.fault.RleFault.TheVariants.{OutOfMemory};

use std::alloc::AllocError;
use std::fmt;

/// Why a run-length bitmap isn't read.
#[derive(Debug, Drop, PartialEq, Eq)]
pub enum RleFault {
    /// A field breaks its rule or doesn't fit; `at` is the place of its first byte.
    BadRle { at: usize },
    /// There is no memory for the pixels.
    OutOfMemory,
}

impl From<AllocError> for RleFault {
    ghost from_gives = { λ _ fault. fault ≡ OutOfMemory };

    fn from(_: AllocError) -> RleFault {
        RleFault::OutOfMemory
    }
}

impl fmt::Display for RleFault {
    ghost use Rattle.std.specs.Prelude.{Some};
    ghost use Rattle.rle_dec.specs.Messages.{fault_text};

    ghost output = { λ fault. Some (fault_text fault) };

    fn fmt<W: fmt::Write>(&self, f: &mut fmt::Formatter<W>) -> fmt::Result {
        match self {
            RleFault::BadRle { at } => write!(f, "a run-length order is refused at {at}"),
            RleFault::OutOfMemory => write!(f, "out of memory"),
        }
    }
}

impl std::error::Error for RleFault {}
