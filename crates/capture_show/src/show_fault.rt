ghost use Rattle.std.specs.Prelude.{◌≡◌};
ghost use Rattle.capture_show.specs.declared.show_fault.ShowFault.TheVariants.{OutOfMemory};

/// Why a capture wasn't shown.
#[derive(Clone, Copy, Debug, PartialEq, Eq)]
pub enum ShowFault {
    /// The capture couldn't be read further.
    ReadFault,
    /// The text couldn't be written further.
    WriteFault,
    /// No memory was left.
    OutOfMemory,
}

impl From<wire_num::OutOfMemory> for ShowFault {
    ghost from_gives = { λ _ fault. fault ≡ OutOfMemory };

    fn from(_: wire_num::OutOfMemory) -> ShowFault {
        ShowFault::OutOfMemory
    }
}
