ghost use Rattle.std.specs.Prelude.{◌≡◌};
ghost use Rattle.script_run.specs.declared.fault.ScriptFault.TheVariants.{OutOfMemory};

use thiserror::Error;

/// Why a script ended early.
#[derive(Clone, Copy, Debug, PartialEq, Eq, Error)]
pub enum ScriptFault {
    /// The first line that breaks a rule, counted from 1, and the least rule that it breaks.
    #[error("line {k} rule {rule}")]
    Line {
        /// The line.
        k: u32,
        /// Its rule.
        rule: u8,
    },
    /// The script couldn't be read further.
    #[error("read fault")]
    ReadFault,
    /// The capture couldn't be written further.
    #[error("write fault")]
    WriteFault,
    /// No memory was left.
    #[error("out of memory")]
    OutOfMemory,
}

impl From<wire_num::OutOfMemory> for ScriptFault {
    ghost from_gives = { λ _ fault. fault ≡ OutOfMemory };

    fn from(_: wire_num::OutOfMemory) -> ScriptFault {
        ScriptFault::OutOfMemory
    }
}
