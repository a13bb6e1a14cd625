//! The lines of a capture, as answers write them.
//!
//! | line | written when |
//! |---|---|
//! | `V joined W H PRESET ..` | viewer V joined a picture of that size, with its preset words |
//! | `V left` | it left |
//! | `V HEXADECIMAL` | its take found work: the frame's bytes |
//! | `V nothing` | its take found none |
//! | `V refused CAUSE` | its step is refused; V is 0 where that is a join |
//! | `line K rule R` | line K of the script breaks rule R |
ghost use Rattle.std.specs.Prelude.{◌≡◌, [], ◌∷◌, ◌++◌, codes, decimal, string_bytes, IfOk, OnOk, OnErr};
ghost use Rattle.line_text.specs.Hexadecimal.{HoldsFront};
ghost use Rattle.script_rules.specs.Capture.{ended, of_viewer, broken_line};
ghost use Rattle.script_lines.specs.Answers.{joined_text, cause_text, line_of};
ghost use Rattle.script_lines.specs.Lines.{number_of_rule};

use crate::OutOfMemory;
use crate::rule::LineRule;
use itoa::Buffer;
use px_core::Size;
use std::alloc::Global;

/// What stands between a viewer's number and what is said of it.
const SPACE: u8 = b' ';

/// What ends a line.
const LINE_FEED: u8 = b'\n';

/// Why a step is refused.
#[derive(Clone, Copy, Debug, PartialEq, Eq)]
pub enum Cause {
    /// No row has the name.
    NotInvited,
    /// As many viewers are present as may be.
    RoomFull,
    /// As many viewers joined as may.
    JoinsSpent,
    /// Another viewer holds control, or none where it is 0.
    NotHolder { holder: u32 },
    /// The least rule that a drawing breaks.
    BadDrawing { rule: u8 },
    /// A slot that a drawing names to read is empty.
    EmptySlot { slot: u8 },
    /// What a slot holds is too small for a drawing.
    SlotSize { slot: u8 },
    /// The journal has no room.
    JournalFull,
}

/// An answer that has a line in a capture.
#[derive(Clone, Copy, Debug)]
pub enum AnswerLine<'a> {
    /// A viewer joined, with these preset words and single spaces between them.
    Joined {
        viewer: u32,
        size: Size,
        preset: &'a [u8],
    },
    /// A viewer left.
    Left {
        viewer: u32,
    },
    /// A take found no work.
    Nothing {
        viewer: u32,
    },
    /// A step is refused; the viewer of a join is 0.
    Refused {
        viewer: u32,
        cause: Cause,
    },
}

/// Appends the line of an answer. After an `Err` a front of it was appended.
pub fn write_answer(
    alloc: Global,
    out: &mut Vec<u8>,
    answer: AnswerLine<'_>,
) -> Result<(), OutOfMemory>
    ensures ok { OnOk result (out.new.items ≡ out.old.items ++ line_of answer.entry) }
    ensures front { OnErr result (HoldsFront out.old.items out.new.items (line_of answer.entry)) }
{
    match answer {
        AnswerLine::Joined {
            viewer,
            size,
            preset,
        } => {
            let text = joined_text(alloc, size, preset)?;
            write_of_viewer(out, viewer, &text)
        }
        AnswerLine::Left { viewer } => write_of_viewer(out, viewer, b"left"),
        AnswerLine::Nothing { viewer } => write_of_viewer(out, viewer, b"nothing"),
        AnswerLine::Refused { viewer, cause } => {
            let text = cause_text(alloc, cause)?;
            write_of_viewer(out, viewer, text.as_bytes())
        }
    }
}

/// Appends the line that says which line of a script breaks which rule. An `Err` leaves the vector as it was.
pub fn write_broken(
    alloc: Global,
    out: &mut Vec<u8>,
    line: u32,
    rule: LineRule,
) -> Result<(), OutOfMemory>
    ensures ok { OnOk result (out.new.items ≡ out.old.items ++ broken_line line (number_of_rule rule)) }
    ensures unchanged { OnErr result (out.new.items ≡ out.old.items) }
{
    let rule = rule.number();
    let text = format!(in alloc; "line {line} rule {rule}\n")?;
    out.extend_from_slice(text.as_bytes())?;
    Ok(())
}

/// What a joined line says of a viewer.
fn joined_text(alloc: Global, size: Size, preset: &[u8]) -> Result<Vec<u8>, OutOfMemory>
    ensures { IfOk result (λ text. text.items ≡ joined_text size preset.now) }
{
    let head = format!(in alloc; "joined {} {} ", size.w, size.h)?;
    let mut text = Vec::from_slice(alloc, head.as_bytes())?;
    text.extend_from_slice(preset)?;
    Ok(text)
}

/// What a refused line says of a viewer.
fn cause_text(alloc: Global, cause: Cause) -> Result<String, OutOfMemory>
    ensures { IfOk result (λ text. string_bytes text ≡ codes "refused " ++ cause_text cause) }
{
    Ok(match cause {
        Cause::NotInvited => format!(in alloc; "refused not-invited")?,
        Cause::RoomFull => format!(in alloc; "refused room-full")?,
        Cause::JoinsSpent => format!(in alloc; "refused joins-spent")?,
        Cause::NotHolder { holder } => format!(in alloc; "refused not-holder {holder}")?,
        Cause::BadDrawing { rule } => format!(in alloc; "refused bad-drawing {rule}")?,
        Cause::EmptySlot { slot } => format!(in alloc; "refused empty-slot {slot}")?,
        Cause::SlotSize { slot } => format!(in alloc; "refused slot-size {slot}")?,
        Cause::JournalFull => format!(in alloc; "refused journal-full")?,
    })
}

/// Appends a viewer's number, a text and a line feed. After an `Err` a front of them was appended.
fn write_of_viewer(out: &mut Vec<u8>, viewer: u32, text: &[u8]) -> Result<(), OutOfMemory>
    ensures ok { OnOk result (out.new.items ≡ out.old.items ++ of_viewer viewer text.now) }
    ensures front { OnErr result (HoldsFront out.old.items out.new.items (of_viewer viewer text.now)) }
{
    let mut buffer = Buffer::new();
    write_line(out, buffer.format(viewer).as_bytes(), text)
}

/// Appends two texts with a space between, and a line feed. After an `Err` a front of them was appended.
fn write_line(out: &mut Vec<u8>, head: &[u8], text: &[u8]) -> Result<(), OutOfMemory>
    ensures ok { OnOk result (out.new.items ≡ out.old.items ++ ended (head.now ++ 32 ∷ text.now)) }
    ensures front { OnErr result (HoldsFront out.old.items out.new.items (ended (head.now ++ 32 ∷ text.now))) }
{
    out.extend_from_slice(head)?;
    out.push(SPACE)?;
    out.extend_from_slice(text)?;
    out.push(LINE_FEED)?;
    Ok(())
}

/// Appends the beginning of a frame's line, a viewer's number and a space, behind which the digits of its bytes and a line feed belong. After
/// an `Err` a front of it was appended.
pub fn begin_frame(out: &mut Vec<u8>, viewer: u32) -> Result<(), OutOfMemory>
    ensures ok { OnOk result (out.new.items ≡ out.old.items ++ decimal viewer ++ 32 ∷ []) }
    ensures front { OnErr result (HoldsFront out.old.items out.new.items (decimal viewer ++ 32 ∷ [])) }
{
    let mut buffer = Buffer::new();
    out.extend_from_slice(buffer.format(viewer).as_bytes())?;
    out.push(SPACE)?;
    Ok(())
}
