//! The refusal of a body of orders.

ghost use Rattle.std.specs.Prelude.{◌≡◌};
ghost use Rattle.order_read.specs.declared.order_fault.OrderFault.TheVariants.{BadOrder, OutOfMemory as NoMemory};

use std::alloc::AllocFailed;
use wire_num::{OutOfMemory, Short};

/// Why orders are refused.
#[derive(Clone, Copy, Debug, PartialEq, Eq)]
pub enum OrderFault {
    /// A field breaks its rule or doesn't fit in what is left; `at` is the offset in bytes of its first byte, from the body's start.
    BadOrder { at: usize },
    /// No memory was left for the orders.
    OutOfMemory,
}

impl From<Short> for OrderFault {
    ghost from_gives = { λ short fault. fault ≡ BadOrder short.at };

    fn from(short: Short) -> OrderFault {
        OrderFault::BadOrder { at: short.at }
    }
}

impl From<OutOfMemory> for OrderFault {
    ghost from_gives = { λ _ fault. fault ≡ NoMemory };

    fn from(_: OutOfMemory) -> OrderFault {
        OrderFault::OutOfMemory
    }
}

impl<T: Drop> From<AllocFailed<T>> for OrderFault {
    ghost from_gives = { λ _ fault. fault ≡ NoMemory };

    fn from(_: AllocFailed<T>) -> OrderFault {
        OrderFault::OutOfMemory
    }
}
