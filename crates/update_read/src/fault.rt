//! The refusal of an update's body.

ghost use Rattle.std.specs.Prelude.{◌≡◌};
ghost use Rattle.update_read.specs.declared.fault.UpdateFault.TheVariants.{BadUpdate, OutOfMemory};

use std::alloc::AllocFailed;
use wire_num::Short;

/// Why an update's body is refused.
#[derive(Clone, Copy, Debug, PartialEq, Eq)]
pub enum UpdateFault {
    /// A field breaks its rule or doesn't fit in what is left; `at` is the offset in bytes of its first byte, from the body's start.
    BadUpdate { at: usize },
    /// No memory was left for the rectangles.
    OutOfMemory,
}

impl From<Short> for UpdateFault {
    ghost from_gives = { λ short fault. fault ≡ BadUpdate short.at };

    fn from(short: Short) -> UpdateFault {
        UpdateFault::BadUpdate { at: short.at }
    }
}

impl<T: Drop> From<AllocFailed<T>> for UpdateFault {
    ghost from_gives = { λ _ fault. fault ≡ OutOfMemory };

    fn from(_: AllocFailed<T>) -> UpdateFault {
        UpdateFault::OutOfMemory
    }
}
