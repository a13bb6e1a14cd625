ghost use Rattle.std.specs.Prelude.{◌≡◌, [], ℕ, List, Some, IfOk};
ghost use Rattle.std.specs.Option.{option_map};
ghost use Rattle.script_rules.specs.Capture.{line_read};
ghost use Rattle.script_rules.specs.Capture.CaptureLine.{JoinedLine, OtherLine, BytesLine};
ghost use Rattle.capture_show.specs.Lines.{AreTheirs, Says, meant_by};
ghost use Rattle.capture_show.specs.Reading.{AreJoined, StandsBefore, IsAnswer, Judges, JudgesLine, Finds, FindCause, ahead};

use crate::OutOfMemory;
use crate::joined::Joined;
use crate::long_lines::{Cut, LongLines};
use crate::said::{Said, read_said};
use caps_sets::Confirmed;
use edge_io::Source;
use px_core::Size;
use std::alloc::Global;
use std::marker::Model;

/// What a line of a capture tells of the viewer whose bytes are read.
#[derive(Clone, Copy)]
pub enum Told {
    /// It joined, with a picture of this size.
    Joined { size: Size, confirmed: Confirmed },
    /// A take gave it bytes, which `bytes` shows.
    Bytes,
    /// Nothing, or that it left or got no bytes.
    Other,
    /// The line with this number, from 1, breaks the rules of captures; the number is at most 2^64 - 1.
    Broken { line: u64 },
    /// No line is left.
    End,
    /// The source failed. What was read of the line in which it did is lost, and the rest of it is told as the next line, with its number.
    Failed,
}

/// Reads a capture line by line, and hands out the bytes of one of its viewers.
#[derive(Drop)]
pub struct CaptureReader {
    viewer: u16,
    lines: LongLines,
    joined: Joined,
    bytes: Vec<u8>,
    line: u64,
}

impl Model for CaptureReader {
    ghost use Rattle.capture_show.specs.Reading.{CaptureReading};

    ghost Value = { CaptureReading };

    ghost view = { λ r. record { viewer = r.viewer; text = r.lines.text; unread = r.lines.unread; joined = r.joined; bytes = r.bytes.items; line = r.line } };
}

impl CaptureReader {
    /// A reader before the first line.
    pub fn new(alloc: Global, viewer: u16) -> Result<CaptureReader, OutOfMemory>
        ensures stands { IfOk result (λ reader. StandsBefore 1 [] reader) }
        ensures viewer { IfOk result (λ reader. reader.viewer ≡ viewer) }
        ensures unread { IfOk result (λ reader. reader.unread ≡ []) }
    {
        Ok(CaptureReader {
            viewer,
            lines: LongLines::new(alloc)?,
            joined: Joined::new(alloc)?,
            bytes: Vec::new(alloc),
            line: 1,
        })
    }

    /// The bytes of a line that was told as `Bytes`, until the next one is read.
    pub fn bytes(&self) -> &[u8]
        ensures { result.now ≡ self.now.bytes }
    {
        &self.bytes
    }

    /// Reads the next line. A line is of a form of captures, joins no viewer twice, and gives bytes and answers only to one that has joined;
    /// else it is broken. After a failed read lines are counted on from the one in which it came. After want of memory nothing is said of the reader.
    pub fn next_line<S: Source>(&mut self, input: &mut S) -> Result<Told, OutOfMemory>
        ensures found { IfOk result (λ told. (k : ℕ) (joined : List ℕ) → StandsBefore k joined self.old
            → Finds told k joined self.old self.new (ahead self.old (S.left input.old)) (ahead self.new (S.left input.new)) (S.left input.new)) }
        ensures cause { FindCause result (S.faults input.old) (S.faults input.new) }
    {
        match self.lines.next_line(input)? {
            Cut::Ended => self.judge(true),
            Cut::Unended => self.judge(false),
            Cut::End => Ok(Told::End),
            Cut::Failed => Ok(Told::Failed),
        }
    }

    /// What the line tells whose text is held.
    fn judge(&mut self, ended: bool) -> Result<Told, OutOfMemory>
        ensures judged { IfOk result (λ told. (k : ℕ) (joined : List ℕ) → StandsBefore k joined self.old
            → JudgesLine told k joined self.old self.new (record { text = self.old.text; ended = ended })) }
        ensures answer { IfOk result IsAnswer }
        ensures unread { self.new.unread ≡ self.old.unread }
    {
        let said = read_line(self.viewer, self.lines.text(), ended, &mut self.bytes)?;
        let told = tell(self.viewer, &mut self.joined, self.line, said);
        self.line = self.line.saturating_add(1);
        Ok(told)
    }
}

/// What a line says, where it is ended and of a form. The bytes that it gives this viewer come in place of those that the vector held.
fn read_line(
    viewer: u16,
    text: &[u8],
    ended: bool,
    bytes: &mut Vec<u8>,
) -> Result<Option<Said>, OutOfMemory>
    ensures { IfOk result (λ said. Says viewer bytes.new.items said (line_read (record { text = text.now; ended = ended }))) }
{
    if ended {
        read_said(viewer, text, bytes)
    } else {
        Ok(None)
    }
}

/// What a line that says this tells of a viewer, and whether it may stand where these have joined.
fn tell(viewer: u16, joined: &mut Joined, line: u64, said: Option<Said>) -> Told
    ensures judged { (before given bytes : List ℕ) → AreJoined before joined.old → AreTheirs viewer said given bytes
        → Judges result viewer line before (option_map (meant_by given) said) bytes joined.new }
    ensures answer { IsAnswer result }
{
    match said {
        None => Told::Broken { line },
        Some(Said::Nobody) => Told::Other,
        Some(
            Said::Joined {
                viewer: who,
                size,
                confirmed,
            },
        ) => tell_joined(viewer, joined, line, who, size, confirmed),
        Some(Said::Other { viewer: who }) => tell_other(joined, line, who),
        Some(Said::Bytes { viewer: who }) => tell_bytes(viewer, joined, line, who),
    }
}

/// What it tells of a viewer that one joined.
fn tell_joined(
    viewer: u16,
    joined: &mut Joined,
    line: u64,
    who: u16,
    size: Size,
    confirmed: Confirmed,
) -> Told
    ensures judged { (before bytes : List ℕ) → AreJoined before joined.old
        → Judges result viewer line before (Some (JoinedLine who size confirmed)) bytes joined.new }
    ensures answer { IsAnswer result }
{
    if joined.has(who) {
        return Told::Broken { line };
    }
    joined.add(who);
    if who == viewer {
        Told::Joined { size, confirmed }
    } else {
        Told::Other
    }
}

/// What it tells of a viewer that one left, got nothing, or was refused.
fn tell_other(joined: &Joined, line: u64, who: u16) -> Told
    ensures judged { (viewer : ℕ) (before bytes : List ℕ) → AreJoined before joined.now
        → Judges result viewer line before (Some (OtherLine who)) bytes joined.now }
    ensures answer { IsAnswer result }
{
    if joined.has(who) {
        Told::Other
    } else {
        Told::Broken { line }
    }
}

/// What it tells of a viewer that one got bytes.
fn tell_bytes(viewer: u16, joined: &Joined, line: u64, who: u16) -> Told
    ensures judged { (before given bytes : List ℕ) → AreJoined before joined.now → (who ≡ viewer → given ≡ bytes)
        → Judges result viewer line before (Some (BytesLine who given)) bytes joined.now }
    ensures answer { IsAnswer result }
{
    if !joined.has(who) {
        Told::Broken { line }
    } else if who == viewer {
        Told::Bytes
    } else {
        Told::Other
    }
}
