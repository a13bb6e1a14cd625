//! What a step is answered, and its line.
ghost use Rattle.std.specs.Prelude.{◌≡◌, ◌++◌, Ok, Err, IfOk, OnErr};
ghost use Rattle.line_text.specs.Words.{words_of};
ghost use Rattle.line_text.specs.Hexadecimal.{HoldsFront};
ghost use Rattle.session_core.specs.Faults.{join_answer, input_answer, draw_answer};
ghost use Rattle.viewer_sender.specs.Seats.{bytes_given};
ghost use Rattle.script_run.specs.declared.answer.StepAnswer.TheVariants.{Refused};
ghost use Rattle.script_run.specs.Answers.{answer_text, answer_of, frame_end, IsVerdict, IsGiven};

use crate::OutOfMemory;
use px_core::Size;
use script_lines::{AnswerLine, Cause, begin_frame, write_answer};
use session_core::{DrawRefusal, InputRefusal, JoinFault};
use std::alloc::Global;

/// What a step is answered.
#[derive(Debug, Drop)]
pub enum StepAnswer {
    /// A viewer joined, and this is its number.
    Joined { viewer: u32 },
    /// The viewer left.
    Left,
    /// It is done, and nothing is said of it.
    Accepted,
    /// It isn't done.
    Refused { cause: Cause },
    /// A take found no work.
    Nothing,
    /// A take gave a frame: its bytes, behind those that tell its pointer where that is told.
    Frame { bytes: Vec<u8> },
}

impl StepAnswer {
    /// Appends the line of the answer to a step of a viewer, 0 for a join, in a session of this size; preset words are those of a join.
    /// An accepted step has none. Of a frame's line only the beginning is appended, and its bytes are given, whose digits and a line feed
    /// belong behind it. After an `Err` a front of the line was appended.
    pub fn write(
        self,
        alloc: Global,
        out: &mut Vec<u8>,
        size: Size,
        viewer: u32,
        preset: &[u8],
    ) -> Result<Option<Vec<u8>>, OutOfMemory>
        ensures ok { IfOk result (λ frame. out.new.items ++ frame_end frame ≡ out.old.items ++ answer_text size viewer (words_of preset.now) self) }
        ensures front { OnErr result (HoldsFront out.old.items out.new.items (answer_text size viewer (words_of preset.now) self)) }
    {
        let line = match self {
            StepAnswer::Joined { viewer } => AnswerLine::Joined {
                viewer,
                size,
                preset,
            },
            StepAnswer::Left => AnswerLine::Left { viewer },
            StepAnswer::Accepted => return Ok(None),
            StepAnswer::Refused { cause } => AnswerLine::Refused { viewer, cause },
            StepAnswer::Nothing => AnswerLine::Nothing { viewer },
            StepAnswer::Frame { bytes } => {
                begin_frame(out, viewer)?;
                return Ok(Some(bytes));
            }
        };
        write_answer(alloc, out, line)?;
        Ok(None)
    }
}

/// What a take is answered that gave a frame's bytes, or none.
pub(crate) fn take_answer(sent: Option<Vec<u8>>) -> StepAnswer
    ensures { IsGiven (bytes_given sent) result }
{
    match sent {
        Some(bytes) => StepAnswer::Frame { bytes },
        None => StepAnswer::Nothing,
    }
}

/// What an input event is answered.
pub(crate) fn input_answer(given: Result<(), InputRefusal>) -> Result<StepAnswer, OutOfMemory>
    ensures answer { IfOk result (λ answer. answer_of answer ≡ input_answer given) }
    ensures verdict { IfOk result IsVerdict }
{
    match given {
        Ok(()) => Ok(StepAnswer::Accepted),
        Err(InputRefusal::NotHolder { holder }) => refused(Cause::NotHolder { holder }),
        Err(InputRefusal::JournalFull) => refused(Cause::JournalFull),
        Err(InputRefusal::OutOfMemory) => Err(OutOfMemory),
    }
}

/// What a drawing is answered.
pub(crate) fn draw_answer(given: Result<(), DrawRefusal>) -> Result<StepAnswer, OutOfMemory>
    ensures answer { IfOk result (λ answer. answer_of answer ≡ draw_answer given) }
    ensures verdict { IfOk result IsVerdict }
{
    match given {
        Ok(()) => Ok(StepAnswer::Accepted),
        Err(DrawRefusal::NotHolder { holder }) => refused(Cause::NotHolder { holder }),
        Err(DrawRefusal::BadDrawing { rule }) => refused(Cause::BadDrawing { rule }),
        Err(DrawRefusal::EmptySlot { slot }) => refused(Cause::EmptySlot { slot }),
        Err(DrawRefusal::SlotSize { slot }) => refused(Cause::SlotSize { slot }),
        Err(DrawRefusal::JournalFull) => refused(Cause::JournalFull),
        Err(DrawRefusal::OutOfMemory) => Err(OutOfMemory),
    }
}

/// What a join is answered that isn't let in.
pub(crate) fn join_refusal(fault: JoinFault) -> Result<StepAnswer, OutOfMemory>
    ensures answer { IfOk result (λ answer. answer_of answer ≡ join_answer (Err fault)) }
    ensures verdict { IfOk result IsVerdict }
{
    match fault {
        JoinFault::NotInvited => refused(Cause::NotInvited),
        JoinFault::RoomFull => refused(Cause::RoomFull),
        JoinFault::JoinsSpent => refused(Cause::JoinsSpent),
        JoinFault::OutOfMemory => Err(OutOfMemory),
    }
}

/// A refusal for this cause.
fn refused(cause: Cause) -> Result<StepAnswer, OutOfMemory>
    ensures { result ≡ Ok (Refused cause) }
{
    Ok(StepAnswer::Refused { cause })
}
