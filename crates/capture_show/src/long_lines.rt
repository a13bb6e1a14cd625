//! Lines of any length from a source that gives its bytes in pieces: one line is held whole.

ghost use Rattle.std.specs.Prelude.{◌≡◌, ◌==◌, ◌<◌, ◌^◌, [], length, position, IfOk};
ghost use Rattle.std.specs.Bool.{MatchBool};
ghost use Rattle.edge_io.specs.Source.{ReadCause};
ghost use Rattle.capture_show.specs.Long.{behind, Moves, Refills, MoreCame, Cuts, CutCause};

use crate::OutOfMemory;
use edge_io::{Got, Source, find_byte};
use std::alloc::Global;
use std::marker::Model;

/// The size of the buffer in bytes (profile).
const ROOM: usize = 65_536;

/// What ends a line.
const LINE_FEED: u8 = b'\n';

/// What a call found.
#[derive(Clone, Copy)]
pub(crate) enum Cut {
    /// A line that a line feed ended.
    Ended,
    /// A last line that none ended.
    Unended,
    /// No byte is left.
    End,
    /// The source failed; what was read of the line in which it did is lost.
    Failed,
}

/// Cuts what a source gives into lines, and shows each whole.
#[derive(Drop)]
pub(crate) struct LongLines {
    text: Vec<u8>,
    buffer: Vec<u8>,
    from: usize,
    to: usize,
}

impl Model for LongLines {
    ghost use Rattle.std.specs.Prelude.{◌≡◌, ◌≤◌, vec_len, slice_range};
    ghost use Rattle.capture_show.specs.Long.{LongReading};
    ghost use Rattle.capture_show.specs.declared.long_lines.TheConstants.{ROOM};

    ghost Value = { LongReading };

    ghost view = { λ l. record { text = l.text.items; unread = slice_range l.buffer.items l.from l.to } };

    ghost invariant = { λ l. (l.from ≤ l.to) × (l.to ≤ ROOM) × (vec_len l.buffer ≡ ROOM) };
}

impl LongLines {
    /// Before the first line.
    pub(crate) fn new(alloc: Global) -> Result<LongLines, OutOfMemory>
        ensures { IfOk result (λ lines. (lines.text ≡ []) × (lines.unread ≡ [])) }
    {
        Ok(LongLines {
            text: Vec::new(alloc),
            buffer: vec![in alloc; 0; ROOM]?,
            from: 0,
            to: 0,
        })
    }

    /// The text of the line that the last call took, without its line feed.
    pub(crate) fn text(&self) -> &[u8]
        ensures { result.now ≡ self.now.text }
    {
        &self.text
    }

    /// Takes the next line. The text of an earlier line is given up.
    pub(crate) fn next_line<S: Source>(&mut self, input: &mut S) -> Result<Cut, OutOfMemory>
        ensures cut { IfOk result (λ cut. Cuts cut self.new (behind self.old (S.left input.old)) (behind self.new (S.left input.new)) (S.left input.new)) }
        ensures cause { CutCause result (S.faults input.old) (S.faults input.new) }
    {
        self.text.clear();
        loop {
            if self.move_line()? {
                return Ok(Cut::Ended);
            }
            match self.refill(input) {
                Got::Bytes(_) => {}
                Got::End => break,
                Got::Failed => return Ok(Cut::Failed),
            }
        }
        if self.is_blank() {
            return Ok(Cut::End);
        }
        Ok(Cut::Unended)
    }

    /// Whether the text is empty.
    fn is_blank(&self) -> bool
        ensures { MatchBool result (length self.now.text ≡ 0) (0 < length self.now.text) }
    {
        self.text.is_empty()
    }

    /// Moves what was read to the text, up to the first line feed, which is dropped; says whether there was one.
    fn move_line(&mut self) -> Result<bool, OutOfMemory>
        ensures moved { IfOk result (λ ended. Moves ended self.old self.new) }
        ensures small { length self.new.text < 2 ^ 63 }
    {
        let unread = &self.buffer[self.from..self.to];
        match find_line_feed(unread) {
            Some(count) => {
                self.text.extend_from_slice(&unread[..count])?;
                self.from += count + 1;
                Ok(true)
            }
            None => {
                self.text.extend_from_slice(unread)?;
                self.from = self.to;
                Ok(false)
            }
        }
    }

    /// Reads once more, where nothing is left of what was read.
    fn refill<S: Source>(&mut self, input: &mut S) -> Got
        requires { self.old.unread ≡ [] }
        ensures read { Refills self.old self.new (S.left input.old) (S.left input.new) }
        ensures more { MoreCame result self.new (S.left input.old) (S.left input.new) }
        ensures cause { ReadCause result (S.faults input.old) (S.faults input.new) }
    {
        self.from = 0;
        self.to = 0;
        match input.read(&mut self.buffer) {
            Got::Bytes(count) => {
                self.to = count;
                Got::Bytes(count)
            }
            Got::End => Got::End,
            Got::Failed => Got::Failed,
        }
    }
}

/// Where a line feed first stands in bytes.
fn find_line_feed(bytes: &[u8]) -> Option<usize>
    ensures { result ≡ position (λ b. b == 10) bytes.now }
{
    find_byte(bytes, LINE_FEED)
}
