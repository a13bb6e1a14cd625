//! Why an order isn't obeyed.

ghost use Rattle.std.specs.Prelude.{◌≡◌};
ghost use Rattle.client_caches.specs.declared.obey_fault.ObeyFault.TheVariants.{OutOfMemory as NoMemory};

use wire_num::OutOfMemory;

/// Why an order isn't obeyed.
#[derive(Clone, Copy, Debug, PartialEq, Eq)]
pub enum ObeyFault {
    /// It breaks a rule.
    Broken,
    /// It names an index, or has a cell, past the confirmed size of a cache.
    Oversized { cache: u8, index: u16 },
    /// It uses an index of a cache that holds nothing.
    Empty { cache: u8, index: u16 },
    /// No memory was left.
    OutOfMemory,
}

impl From<OutOfMemory> for ObeyFault {
    ghost from_gives = { λ _ fault. fault ≡ NoMemory };

    fn from(_: OutOfMemory) -> ObeyFault {
        ObeyFault::OutOfMemory
    }
}
