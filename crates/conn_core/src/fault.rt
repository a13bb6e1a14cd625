//! Why a packet has no answer.

ghost use Rattle.std.specs.Prelude.{◌≡◌};
ghost use Rattle.conn_core.specs.declared.fault.Fault.TheVariants.{Refused};

use conn_rules::Refusal;

/// Why a packet has no answer.
#[derive(Clone, Copy, Debug, PartialEq, Eq)]
pub enum Fault {
    /// It is refused.
    Refused(Refusal),
    /// Memory was wanting while it was read.
    OutOfMemory,
}

impl From<Refusal> for Fault {
    ghost from_gives = { λ refusal fault. fault ≡ Refused refusal };

    fn from(refusal: Refusal) -> Fault {
        Fault::Refused(refusal)
    }
}
