ghost use Rattle.std.specs.Prelude.{◌≡◌};
ghost use Rattle.answer_run.specs.declared.fault.AnswerFault.TheVariants.{OutOfMemory};

use thiserror::Error;

/// Why a client's service ended otherwise than well.
#[derive(Clone, Copy, Debug, PartialEq, Eq, Error)]
pub enum AnswerFault {
    /// The client's stream is refused, by the refusal's number and the place in the stream of the first byte of the field that breaks
    /// its rule.
    #[error("refused {k} at {at}")]
    Refused {
        /// The number, 1 to 14.
        k: u8,
        /// The place.
        at: u64,
    },
    /// The stream ended within a packet, or before the client was ready.
    #[error("truncated")]
    Truncated,
    /// No row has the user's name.
    #[error("not invited")]
    NotInvited,
    /// The stream couldn't be read further.
    #[error("read fault")]
    ReadFault,
    /// The answer couldn't be written further.
    #[error("write fault")]
    WriteFault,
    /// No memory was left.
    #[error("out of memory")]
    OutOfMemory,
}

impl From<wire_num::OutOfMemory> for AnswerFault {
    ghost from_gives = { λ _ fault. fault ≡ OutOfMemory };

    fn from(_: wire_num::OutOfMemory) -> AnswerFault {
        AnswerFault::OutOfMemory
    }
}
