ghost use Rattle.std.specs.Prelude.{◌≡◌};

use std::alloc::AllocError;

/// Why a drawing that keeps all rules isn't drawn. The surface is then as it was.
#[derive(Clone, Copy, Debug, PartialEq, Eq)]
pub enum DrawFault {
    /// A slot that the drawing names to read is empty; of glyphs the first such code.
    EmptySlot { slot: u8 },
    /// What the slot holds is too small for a blit, or too large for the place where a block is restored.
    SlotSize { slot: u8 },
    /// No memory was left.
    OutOfMemory,
}

impl From<AllocError> for DrawFault {
    ghost use Rattle.std.specs.Prelude.{◌≡◌};
    ghost use Rattle.surface_parts.specs.declared.fault.DrawFault.TheVariants.{OutOfMemory};

    ghost from_gives = { λ _ fault. fault ≡ OutOfMemory };

    fn from(_: AllocError) -> DrawFault {
        DrawFault::OutOfMemory
    }
}

impl From<crate::OutOfMemory> for DrawFault {
    ghost use Rattle.std.specs.Prelude.{◌≡◌};
    ghost use Rattle.surface_parts.specs.declared.fault.DrawFault.TheVariants.{OutOfMemory};

    ghost from_gives = { λ _ fault. fault ≡ OutOfMemory };

    fn from(_: crate::OutOfMemory) -> DrawFault {
        DrawFault::OutOfMemory
    }
}
