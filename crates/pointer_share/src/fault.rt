//! Why a desk isn't made, and why a viewer's packet is refused.

ghost use Rattle.std.specs.Prelude.{◌≡◌};
ghost use Rattle.pointer_share.specs.declared.fault.Cause.TheVariants.{Broken};

use wire_num::Short;

/// Why a desk isn't made.
#[derive(Clone, Copy, Debug, PartialEq, Eq)]
pub enum DeskFault {
    /// The viewer has no pointer cache.
    NoCache,
    /// No memory was left.
    OutOfMemory,
}

/// Why a packet of a viewer's bytes is refused.
#[derive(Clone, Copy, Debug, PartialEq, Eq)]
pub enum ViewFault {
    /// A field of a pointer packet breaks its rule or doesn't fit; `at` is the offset in bytes of its first byte, from the packet's start.
    BadPointer { at: usize },
    /// A pointer packet names an entry past the cells, or one that it would show and that is empty.
    NoEntry { index: u16 },
    /// No memory was left. A shape takes none, so no call answers it.
    OutOfMemory,
}

/// What is wrong with the field of a message at which a cursor stands.
#[derive(Clone, Copy, Debug, PartialEq, Eq)]
pub enum Cause {
    /// It breaks its rule or doesn't fit.
    Broken,
    /// It names an entry past the cells, or one that it would show and that is empty.
    Missing { index: u16 },
}

impl From<Short> for Cause {
    ghost from_gives = { λ _ cause. cause ≡ Broken };

    fn from(_: Short) -> Cause {
        Cause::Broken
    }
}
