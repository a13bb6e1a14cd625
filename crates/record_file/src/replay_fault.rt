//! Why a record isn't replayed further.

use crate::OutOfMemory;

/// Why a record isn't replayed further, the first that applies.
#[derive(Clone, Copy, Debug, PartialEq, Eq)]
pub enum ReplayFault {
    /// The form breaks at a place: the offset in bytes, from the record's first one, of the first field that breaks its rule.
    BadRecord { at: u64 },
    /// An entry isn't legal after those before it: its number, from 0.
    Illegal { k: u64 },
    /// No memory was left.
    OutOfMemory,
}

impl From<OutOfMemory> for ReplayFault {
    ghost use Rattle.std.specs.Prelude.{◌≡◌};
    ghost use Rattle.record_file.specs.declared.replay_fault.ReplayFault.TheVariants.{OutOfMemory};

    ghost from_gives = { λ _ why. why ≡ OutOfMemory };

    fn from(_: OutOfMemory) -> ReplayFault {
        ReplayFault::OutOfMemory
    }
}
