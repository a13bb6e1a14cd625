//! Standard input and output as a source and a sink, over runtimes whose reads and writes come torn.

use edge_io::{FileIn, FileOut, Found, Got, LineReader, Sink, Source, Wrote};
use std::alloc::Allocator;
use std::cell::Cell;
use std::fmt::{Debug, Display};
use std::io;
use std::io::{BufRead, ErrorKind, Input, Lines, Print, Read};
use std::process::Abort;
use std::test::Fail;

/// How many bytes a runtime's output takes at all.
const ROOM: usize = 3;

/// What was found is what was expected.
fn must_be<T: PartialEq + Debug>(rt: &impl Abort, found: &T, expected: &T) {
    assert_eq!(rt; *found, *expected);
}

/// What one read gives.
#[derive(Clone, Copy, Drop)]
enum Piece {
    Bytes(&'static [u8]),
    /// A signal comes, and no byte is taken.
    Signal,
}

/// Standard input that gives its bytes in these pieces.
#[derive(Drop)]
struct Torn {
    pieces: &'static [Piece],
    reads: usize,
}

impl Read for Torn {
    fn read(&mut self, buf: &mut [u8]) -> io::Result<usize> {
        let at = self.reads;
        self.reads = at.saturating_add(1);
        match self.pieces.get(at) {
            Some(Piece::Bytes(bytes)) => {
                let mut piece: &[u8] = bytes;
                piece.read(buf)
            }
            Some(Piece::Signal) => Err(io::Error::from(ErrorKind::Interrupted)),
            None => Ok(0),
        }
    }
}

/// It keeps nothing back.
impl BufRead for Torn {
    fn fill_buf(&mut self) -> io::Result<&[u8]> {
        Err(io::Error::from(ErrorKind::Unsupported))
    }

    fn consume(&mut self, _amount: usize) {}
}

/// A runtime whose standard input comes so.
#[derive(Drop)]
struct TornInput {
    pieces: &'static [Piece],
}

impl Input for TornInput {
    type Reader = Torn;

    fn read_line<A: Allocator + Clone>(&self, buf: &mut String<A>) -> io::Result<usize> {
        self.reader().read_line(buf)
    }

    fn lines<A: Allocator>(&self, alloc: A) -> Lines<Torn, A> {
        self.reader().lines(alloc)
    }

    fn reader(&self) -> Torn {
        Torn {
            pieces: self.pieces,
            reads: 0,
        }
    }
}

/// A runtime whose standard output takes `ROOM` bytes at all.
#[derive(Drop)]
struct Narrow {
    told: Cell<[u8; ROOM]>,
    count: Cell<usize>,
}

impl Narrow {
    /// Takes a byte, if there is room; whether there was.
    fn takes(&self, byte: u8) -> bool {
        let count = self.count.get();
        if count >= ROOM {
            return false;
        }
        let mut told = self.told.get();
        told[count] = byte;
        self.told.set(told);
        self.count.set(count + 1);
        true
    }
}

impl Print for Narrow {
    fn print<D: Display + Drop>(&self, _value: D) -> io::Result<()> {
        Err(io::Error::from(ErrorKind::Unsupported))
    }

    fn println<D: Display + Drop>(&self, _value: D) -> io::Result<()> {
        Err(io::Error::from(ErrorKind::Unsupported))
    }

    fn write_all(&self, bytes: &[u8]) -> io::Result<()> {
        for byte in bytes {
            if !self.takes(*byte) {
                return Err(io::Error::from(ErrorKind::WriteZero));
            }
        }
        Ok(())
    }
}

/// The pieces of an input whose second read fails.
const TWO_PIECES: &[Piece] = &[Piece::Bytes(b"a"), Piece::Signal, Piece::Bytes(b"bc")];

#[test]
fn a_failed_read_takes_nothing_and_the_next_goes_on(rt: HostRuntime) {
    let mut input = FileIn::new(&TornInput { pieces: TWO_PIECES });
    let mut buf = [0u8; 4];
    must_be(&rt, &input.read(&mut buf), &Got::Bytes(1));
    must_be(&rt, &buf[0], &b'a');
    must_be(&rt, &input.read(&mut buf), &Got::Failed);
    must_be(&rt, &input.read(&mut buf), &Got::Bytes(2));
    must_be(&rt, &(buf[0], buf[1]), &(b'b', b'c'));
    must_be(&rt, &input.read(&mut buf), &Got::End);
}

/// Two lines and what stands behind the last line feed, torn in the midst of words and behind a line feed.
const LINES: &[Piece] = &[
    Piece::Bytes(b"si"),
    Piece::Bytes(b"ze\nin"),
    Piece::Signal,
    Piece::Bytes(b"vi"),
    Piece::Bytes(b"te\n"),
    Piece::Bytes(b"end"),
];

#[test]
fn lines_are_whole_however_they_come(rt: HostRuntime) -> Result<(), Fail> {
    let mut input = FileIn::new(&TornInput { pieces: LINES });
    let mut lines = LineReader::new(rt.alloc())?;
    must_be(
        &rt,
        &lines.next_line(&mut input),
        &Found::Line { ended: true },
    );
    must_be(&rt, &lines.text(), &b"size".as_slice());
    must_be(&rt, &lines.next_line(&mut input), &Found::Failed);
    must_be(
        &rt,
        &lines.next_line(&mut input),
        &Found::Line { ended: true },
    );
    must_be(&rt, &lines.text(), &b"invite".as_slice());
    must_be(
        &rt,
        &lines.next_line(&mut input),
        &Found::Line { ended: false },
    );
    must_be(&rt, &lines.text(), &b"end".as_slice());
    must_be(&rt, &lines.next_line(&mut input), &Found::End);
    Ok(())
}

#[test]
fn a_write_that_takes_a_front_is_a_fault(rt: HostRuntime) {
    let narrow = Narrow {
        told: Cell::new([0u8; ROOM]),
        count: Cell::new(0),
    };
    let mut output = FileOut::new(&narrow);
    must_be(&rt, &output.write_all(b"ab"), &Wrote::All);
    must_be(&rt, &output.write_all(b"cd"), &Wrote::Failed);
    must_be(&rt, &output.write_all(b"e"), &Wrote::Failed);
    must_be(&rt, &narrow.told.get(), b"abc");
}

#[test]
fn standard_output_takes_nothing_at_all(rt: HostRuntime) {
    let mut output = FileOut::new(&rt);
    must_be(&rt, &output.write_all(b""), &Wrote::All);
}
