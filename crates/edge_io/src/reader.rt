ghost use Rattle.std.specs.Prelude.{◌≡◌, ◌==◌, ◌≤◌, ◌+◌, [], Option, List, ℕ, length, take, position, None, IfOk, IfSome, if◌then◌else◌};
ghost use Rattle.std.specs.Io.KnownBytes.{Keeps};
ghost use Rattle.edge_io.specs.Source.{ReadCause};
ghost use Rattle.edge_io.specs.Reading.{new_reading, ahead};

use crate::buffer::{find_byte, move_to_front, read_behind};
use crate::{Got, OutOfMemory, Source};
use std::alloc::Global;
use std::marker::Model;

/// The most bytes of a line, its line feed not counted (profile).
const LINE_LIMIT: usize = 32_768;

/// The most bytes of a script (profile).
const SCRIPT_LIMIT: usize = 268_435_456;

/// The size of the buffer in bytes, which has room for more than a line (profile).
const ROOM: usize = 65_536;

/// What ends a line.
const LINE_FEED: u8 = b'\n';

/// What a call of a line reader found.
#[derive(Clone, Copy, Debug, PartialEq, Eq)]
pub enum Found {
    /// The next line, which `text` shows, and whether a line feed ended it.
    Line { ended: bool },
    /// The next line is longer than 32,768 bytes, or has a byte past the script's 268,435,456 bytes.
    PastLimits,
    /// No byte is left.
    End,
    /// The source failed; the next call goes on.
    Failed,
}

/// Cuts what a source gives into lines, and hands out each once, in order.
#[derive(Drop)]
pub struct LineReader {
    buffer: Vec<u8>,
    from: usize,
    to: usize,
    text_from: usize,
    text_to: usize,
    at: usize,
}

impl Model for LineReader {
    ghost use Rattle.std.specs.Prelude.{◌≡◌, ◌≤◌, vec_len, slice_range};
    ghost use Rattle.edge_io.specs.Reading.{LineReading};
    ghost use Rattle.edge_io.specs.declared.reader.TheConstants.{ROOM, SCRIPT_LIMIT};

    ghost Value = { LineReading };

    ghost view = { λ r. record { held = slice_range r.buffer.items r.from r.to; text = slice_range r.buffer.items r.text_from r.text_to; at = r.at } };

    ghost invariant = { λ r. (r.from ≤ r.to) × (r.to ≤ ROOM) × (vec_len r.buffer ≡ ROOM) × (r.text_from ≤ r.text_to) × (r.text_to ≤ ROOM)
        × (r.at ≤ SCRIPT_LIMIT) };
}

impl LineReader {
    ghost use Rattle.edge_io.specs.Finding.{Finds, FindCause, HandsLine, HoldsPart, Fills, EndsAt};

    /// A reader before the first line.
    pub fn new(alloc: Global) -> Result<LineReader, OutOfMemory>
        ensures { IfOk result (λ reader. reader ≡ new_reading) }
    {
        Ok(LineReader {
            buffer: vec![in alloc; 0; ROOM]?,
            from: 0,
            to: 0,
            text_from: 0,
            text_to: 0,
            at: 0,
        })
    }

    /// The text of the line that the last call handed out, without its line feed.
    pub fn text(&self) -> &[u8]
        ensures { result.now ≡ self.now.text }
    {
        &self.buffer[self.text_from..self.text_to]
    }

    /// Hands out the next line, or says why there is none. The text of an earlier line is given up.
    pub fn next_line<S: Source>(&mut self, input: &mut S) -> Found
        ensures found { Finds result self.old self.new (ahead self.old (S.left input.old)) (ahead self.new (S.left input.new)) }
        ensures cause { FindCause result (S.faults input.old) (S.faults input.new) }
        // Of the bytes that a source gave before it failed no whole line is left.
        ensures part { result ≡ Found.Failed → position (λ b. b == 10) self.new.held ≡ None }
    {
        match self.held_line() {
            Some(found) => found,
            None => self.read_line(input),
        }
    }

    /// Hands out the next line where no more need be read for it. The text of an earlier line is given up.
    pub fn held_line(&mut self) -> Option<Found>
        ensures found { IfSome result (λ found. (left : Option (List ℕ)) → Finds found self.old self.new (ahead self.old left) (ahead self.new left)) }
        ensures read { IfSome result (λ found. found ≡ Found.Failed → ⊥) }
        ensures none { result ≡ None → HoldsPart self.old self.new }
    {
        self.forget_text();
        if let Some(count) = self.find_line_feed() {
            return Some(self.hand_out(count, true));
        }
        if self.held() > LINE_LIMIT {
            return Some(Found::PastLimits);
        }
        None
    }

    /// Reads until the next line is held, and hands it out, or says why there is none.
    pub fn read_line<S: Source>(&mut self, input: &mut S) -> Found
        requires part { position (λ b. b == 10) self.old.held ≡ None }
        requires room { length self.old.held ≤ LINE_LIMIT }
        ensures found { Finds result self.old self.new (ahead self.old (S.left input.old)) (ahead self.new (S.left input.new)) }
        ensures cause { FindCause result (S.faults input.old) (S.faults input.new) }
        ensures part { result ≡ Found.Failed → position (λ b. b == 10) self.new.held ≡ None }
    {
        loop {
            match self.fill(input) {
                Got::Bytes(_) => {}
                Got::End => break,
                Got::Failed => return Found::Failed,
            }
            if let Some(found) = self.held_line() {
                return found;
            }
        }
        match self.held() {
            0 => Found::End,
            count => self.hand_out(count, false),
        }
    }

    fn forget_text(&mut self)
        ensures { self.new ≡ record self.old { text = [] } }
    {
        self.text_from = 0;
        self.text_to = 0;
    }

    /// How many bytes are held.
    fn held(&self) -> usize
        ensures { result ≡ length self.now.held }
    {
        self.to - self.from
    }

    /// Where a line feed first stands in the bytes held.
    fn find_line_feed(&self) -> Option<usize>
        ensures { result ≡ position (λ b. b == 10) self.now.held }
    {
        find_byte(&self.buffer[self.from..self.to], LINE_FEED)
    }

    /// Hands out so many bytes as the text of a line, and with them the line feed that ended it, unless it is past the limits.
    fn hand_out(&mut self, count: usize, ended: bool) -> Found
        requires { count + (if ended then 1 else 0) ≤ length self.old.held }
        ensures { HandsLine result self.old self.new (record { text = take count self.old.held; ended = ended }) }
    {
        if count > LINE_LIMIT {
            return Found::PastLimits;
        }
        let whole = line_size(count, ended);
        if self.at + whole > SCRIPT_LIMIT {
            return Found::PastLimits;
        }
        self.text_from = self.from;
        self.text_to = self.from + count;
        self.from += whole;
        self.at += whole;
        Found::Line { ended }
    }

    /// Reads once more behind the bytes held, which are no more than those of a line.
    fn fill<S: Source>(&mut self, input: &mut S) -> Got
        requires { length self.old.held ≤ LINE_LIMIT }
        ensures ahead { Keeps (ahead self.old (S.left input.old)) (ahead self.new (S.left input.new)) }
        ensures held { Fills result self.old self.new }
        ensures text { self.new.text ≡ [] }
        ensures at { self.new.at ≡ self.old.at }
        ensures end { EndsAt result (S.left input.old) (S.left input.new) }
        ensures cause { ReadCause result (S.faults input.old) (S.faults input.new) }
    {
        move_to_front(&mut self.buffer, self.from, self.to);
        self.to -= self.from;
        self.from = 0;
        self.text_from = 0;
        self.text_to = 0;
        match read_behind(input, &mut self.buffer, self.to) {
            Got::Bytes(count) => {
                self.to += count;
                Got::Bytes(count)
            }
            Got::End => Got::End,
            Got::Failed => Got::Failed,
        }
    }
}

/// How many bytes a line takes with its line feed.
fn line_size(count: usize, ended: bool) -> usize
    requires { count ≤ LINE_LIMIT }
    ensures { result ≡ count + (if ended then 1 else 0) }
{
    if ended { count + 1 } else { count }
}
