//! Why a call of a session isn't done.

use crate::OutOfMemory;

/// Why a name doesn't join, the first that applies.
#[derive(Clone, Copy, Debug, PartialEq, Eq)]
pub enum JoinFault {
    /// No row has the name.
    NotInvited,
    /// As many viewers are present as may be.
    RoomFull,
    /// As many viewers have joined as may.
    JoinsSpent,
    /// No memory was left.
    OutOfMemory,
}

/// Why an input event isn't accepted, the first that applies.
#[derive(Clone, Copy, Debug, PartialEq, Eq)]
pub enum InputRefusal {
    /// Another viewer holds control, or nobody does, 0.
    NotHolder { holder: u32 },
    /// The journal has as many entries of its kind as it may have.
    JournalFull,
    /// No memory was left.
    OutOfMemory,
}

/// Why a drawing isn't accepted, the first that applies.
#[derive(Clone, Copy, Debug, PartialEq, Eq)]
pub enum DrawRefusal {
    /// Another viewer holds control, or nobody does, 0.
    NotHolder { holder: u32 },
    /// The least rule that the drawing breaks; 5 also where it names a slot of the board.
    BadDrawing { rule: u8 },
    /// A slot that it reads is empty.
    EmptySlot { slot: u8 },
    /// What a slot that it reads holds is too small.
    SlotSize { slot: u8 },
    /// The journal has as many entries of its kind, or would have more pixels of images, than it may have.
    JournalFull,
    /// No memory was left.
    OutOfMemory,
}

impl From<OutOfMemory> for DrawRefusal {
    ghost use Rattle.std.specs.Prelude.{◌≡◌};
    ghost use Rattle.session_core.specs.declared.faults.DrawRefusal.TheVariants.{OutOfMemory};

    ghost from_gives = { λ _ why. why ≡ OutOfMemory };

    fn from(_: OutOfMemory) -> DrawRefusal {
        DrawRefusal::OutOfMemory
    }
}

impl From<OutOfMemory> for InputRefusal {
    ghost use Rattle.std.specs.Prelude.{◌≡◌};
    ghost use Rattle.session_core.specs.declared.faults.InputRefusal.TheVariants.{OutOfMemory};

    ghost from_gives = { λ _ why. why ≡ OutOfMemory };

    fn from(_: OutOfMemory) -> InputRefusal {
        InputRefusal::OutOfMemory
    }
}
