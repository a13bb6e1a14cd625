ghost use Rattle.std.specs.Prelude.{◌≡◌, ◌≤◌, ◌<◌, ◌++◌, false, ℕ, length, vec_len, take, drop};
ghost use Rattle.std.specs.declared.option.Option.TheVariants.{Some};
ghost use Rattle.edge_io.specs.Supply.{Supply, next_piece, read_count, answer_of_count, buffer_after_read, supply_after_read};
ghost use Rattle.edge_io.specs.Source.{FitsRoom, Takes, ReadCause};

use crate::{Got, Source};
use std::alloc::AllocError;
use std::collections::VecDeque;
use std::marker::Model;

/// A source in memory that hands out at most the next listed piece, and never fails.
#[derive(Drop)]
pub struct Bytes {
    bytes: Vec<u8>,
    at: usize,
    pieces: VecDeque<usize>,
}

impl Model for Bytes {
    ghost Value = { Supply };

    ghost view = { λ s. record { left = drop s.at s.bytes.items; pieces = s.pieces.items } };

    ghost invariant = { λ s. s.at ≤ vec_len s.bytes };
}

impl Bytes {
    /// These bytes, handed out in pieces of at most these sizes; a 0 counts as 1, and after the list all that fits comes.
    pub fn new(bytes: Vec<u8>, pieces: Vec<usize>) -> Bytes
        ensures { result ≡ record { left = bytes.items; pieces = pieces.items } }
    {
        Bytes {
            bytes,
            at: 0,
            pieces: VecDeque::from_vec(pieces),
        }
    }

    /// Hands out the next piece.
    fn hand_out(&mut self, buf: &mut [u8]) -> Got
        ensures answer { result ≡ answer_of_count (read_count self.old (length buf.old)) }
        ensures buffer { buf.new ≡ buffer_after_read (read_count self.old (length buf.old)) self.old buf.old }
        ensures after { self.new ≡ supply_after_read (read_count self.old (length buf.old)) self.old }
    {
        let piece = take_piece(&mut self.pieces, buf.len());
        let count = buf.len().min(self.bytes.len() - self.at).min(piece);
        copy_to_front(buf, &self.bytes[self.at..self.at + count]);
        self.at += count;
        if count == 0 {
            Got::End
        } else {
            Got::Bytes(count)
        }
    }
}

impl Clone for Bytes {
    ghost is_clone = { λ bytes copy. copy ≡ bytes };

    fn clone(&self) -> Result<Bytes, AllocError> {
        Ok(Bytes {
            bytes: self.bytes.clone()?,
            at: self.at,
            pieces: self.pieces.clone()?,
        })
    }
}

impl Source for Bytes {
    ghost left = { λ s. Some s.left };

    ghost faults = { λ s. 0 };

    ghost limited = { λ _. false };

    fn read(&mut self, buf: &mut [u8]) -> Got
        requires { 0 < length buf.old }
        ensures count { FitsRoom result (length buf.old) }
        ensures bytes { Takes (Some self.old.left) (Some self.new.left) result buf.new }
        ensures cause { ReadCause result 0 0 }
        // The answer, the buffer and what is left are exactly those of the next piece.
        ensures answer { result ≡ answer_of_count (read_count self.old (length buf.old)) }
        ensures buffer { buf.new ≡ buffer_after_read (read_count self.old (length buf.old)) self.old buf.old }
        ensures after { self.new ≡ supply_after_read (read_count self.old (length buf.old)) self.old }
    {
        self.hand_out(buf)
    }

    fn lift_limit(&mut self)
        ensures { self.new ≡ self.old }
    {}
}

/// Takes the next piece from the list, and gives its largest size.
fn take_piece(pieces: &mut VecDeque<usize>, room: usize) -> usize
    ensures size { result ≡ next_piece pieces.old.items room }
    ensures rest { pieces.new.items ≡ drop 1 pieces.old.items }
{
    match pieces.pop_front() {
        Some(piece) => piece.max(1),
        None => room,
    }
}

/// Copies bytes to the front of a buffer.
fn copy_to_front(buf: &mut [u8], bytes: &[u8])
    requires { length bytes.now ≤ length buf.old }
    ensures { buf.new ≡ bytes.now ++ drop (length bytes.now) buf.old }
{
    buf[..bytes.len()].copy_from_slice(bytes);
}
