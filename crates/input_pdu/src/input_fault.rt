//! The refusal of a body.

ghost use Rattle.std.specs.Prelude.{◌≡◌};
ghost use Rattle.input_pdu.specs.declared.input_fault.InputFault.TheVariants.{BadInput, OutOfMemory};

use std::alloc::AllocFailed;
use wire_num::Short;

/// Why events are refused.
#[derive(Clone, Copy, Debug, PartialEq, Eq)]
pub enum InputFault {
    /// A field doesn't fit in what is left; `at` is the offset in bytes of its first byte, from the body's start.
    BadInput { at: usize },
    /// No memory was left for the events.
    OutOfMemory,
}

impl From<Short> for InputFault {
    ghost from_gives = { λ short fault. fault ≡ BadInput short.at };

    fn from(short: Short) -> InputFault {
        InputFault::BadInput { at: short.at }
    }
}

impl<T: Drop> From<AllocFailed<T>> for InputFault {
    ghost from_gives = { λ _ fault. fault ≡ OutOfMemory };

    fn from(_: AllocFailed<T>) -> InputFault {
        InputFault::OutOfMemory
    }
}
