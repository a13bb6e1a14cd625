//! How a run ends, whatever was run.

use answer_run::AnswerFault;
use capture_show::ShowFault;
use script_run::ScriptFault;

/// How a run ended.
#[derive(Clone, Copy, Debug, PartialEq, Eq)]
pub enum Ending {
    /// Well.
    Done,
    /// A line of the script breaks a rule.
    Line { k: u32, rule: u8 },
    /// The client's stream is refused.
    Refused { k: u8, at: u64 },
    /// The client's stream ended too early.
    Truncated,
    /// The client isn't let in.
    NotInvited,
    /// The capture, or what the viewer was sent in it, isn't accepted, or the record has no such picture.
    NotShown,
    /// A read failed.
    ReadFault,
    /// A write failed.
    WriteFault,
    /// No memory was left.
    OutOfMemory,
    /// There is no such session to run in.
    NoSession,
}

/// How a script's run ended.
pub fn script_ending(answer: Result<(), ScriptFault>) -> Ending {
    match answer {
        Ok(()) => Ending::Done,
        Err(ScriptFault::Line { k, rule }) => Ending::Line { k, rule },
        Err(ScriptFault::ReadFault) => Ending::ReadFault,
        Err(ScriptFault::WriteFault) => Ending::WriteFault,
        Err(ScriptFault::OutOfMemory) => Ending::OutOfMemory,
    }
}

/// How a client's service ended.
pub fn answer_ending(answer: Result<(), AnswerFault>) -> Ending {
    match answer {
        Ok(()) => Ending::Done,
        Err(AnswerFault::Refused { k, at }) => Ending::Refused { k, at },
        Err(AnswerFault::Truncated) => Ending::Truncated,
        Err(AnswerFault::NotInvited) => Ending::NotInvited,
        Err(AnswerFault::ReadFault) => Ending::ReadFault,
        Err(AnswerFault::WriteFault) => Ending::WriteFault,
        Err(AnswerFault::OutOfMemory) => Ending::OutOfMemory,
    }
}

/// How the showing of a capture ended.
pub fn show_ending(answer: Result<bool, ShowFault>) -> Ending {
    match answer {
        Ok(true) => Ending::Done,
        Ok(false) => Ending::NotShown,
        Err(ShowFault::ReadFault) => Ending::ReadFault,
        Err(ShowFault::WriteFault) => Ending::WriteFault,
        Err(ShowFault::OutOfMemory) => Ending::OutOfMemory,
    }
}

/// How the replay of a record ended.
pub fn replay_ending(answer: Result<bool, ScriptFault>) -> Ending {
    match answer {
        Ok(true) => Ending::Done,
        Ok(false) => Ending::NotShown,
        Err(fault) => script_ending(Err(fault)),
    }
}
