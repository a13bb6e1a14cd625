//! How the sample client is answered with each other value of each of its bytes.

use crate::files;
use crate::streams::SIZE;
use crate::turns::otherwise;
use crate::verdict::{Found, Trouble, Way};
use conn_core::{Conn, ConnFault};
use sha2::{Digest, Sha256};
use std::alloc::Global;
use std::rt::Files;

/// How a stream is answered: by which number it is refused and at which place; or, by the number 0, how many bytes are there of a packet
/// that isn't whole.
#[derive(Clone, Copy, Debug, PartialEq, Eq)]
struct Answer {
    k: u8,
    at: u64,
}

/// Hears the stream of a row with one byte changed to each other value after the other, and compares the digest of a line for each, the
/// place, the value and the answer, with the row's.
pub fn run_row<R: Files + AllocGlobal>(rt: &R, words: &[&str]) -> Result<(), Trouble> {
    let [name, wanted] = words else {
        return Err(Trouble::NoForm);
    };
    let mut stream = files::read_hex(rt, name, "stream")?;
    let mut lines = Sha256::new();
    for place in 0..stream.len() {
        hear_changes(rt.alloc(), &mut stream, place, &mut lines)?;
    }
    must_be_digest(rt.alloc(), &lines.finalize(), wanted)
}

/// Hears the stream with each other value of the byte at a place, and puts the byte back.
fn hear_changes(
    alloc: Global,
    stream: &mut Vec<u8>,
    place: usize,
    lines: &mut Sha256,
) -> Result<(), Trouble> {
    let Some(own) = stream.get(place).copied() else {
        return Ok(());
    };
    for value in 0..=u8::MAX {
        if value != own {
            set(stream, place, value);
            let Answer { k, at } = answer_to(alloc, stream)?;
            let line = format!(in alloc; "{place} {value} {k} {at}\n")?;
            lines.update(line.as_bytes());
        }
    }
    set(stream, place, own);
    Ok(())
}

/// Sets the byte at a place.
fn set(stream: &mut [u8], place: usize, value: u8) {
    if let Some(byte) = stream.get_mut(place) {
        *byte = value;
    }
}

/// How a stream is answered that comes in one piece, and the same once more where it is refused.
fn answer_to(alloc: Global, stream: &[u8]) -> Result<Answer, Trouble> {
    let mut out = Vec::new(alloc);
    let mut steps = Vec::new(alloc);
    let Ok(mut conn) = Conn::new(alloc, SIZE) else {
        return Err(Trouble::OutOfMemory);
    };
    match conn.feed(stream, &mut out, &mut steps) {
        Ok(()) => Ok(Answer {
            k: 0,
            at: conn.part() as u64,
        }),
        Err(ConnFault::Refused { k, at }) => must_be_refused_again(
            alloc,
            &mut conn,
            stream,
            Answer { k, at },
        ),
        Err(ConnFault::OutOfMemory) => Err(Trouble::OutOfMemory),
    }
}

/// A connection that has refused its stream must answer the same of whatever comes behind, and hear nothing of it.
fn must_be_refused_again(
    alloc: Global,
    conn: &mut Conn,
    bytes: &[u8],
    answer: Answer,
) -> Result<Answer, Trouble> {
    let mut out = Vec::new(alloc);
    let mut steps = Vec::new(alloc);
    let fault = conn.feed(bytes, &mut out, &mut steps);
    let is_same = fault
        == Err(ConnFault::Refused {
            k: answer.k,
            at: answer.at,
        });
    if is_same && out.is_empty() && steps.is_empty() {
        Ok(answer)
    } else {
        otherwise(Way::Whole, Found::Number(answer.at))
    }
}

/// A digest must be the one of these hexadecimal digits.
fn must_be_digest(alloc: Global, digest: &[u8], wanted: &str) -> Result<(), Trouble> {
    let mut digits = String::new(alloc);
    for byte in digest {
        digits.push_str(format!(in alloc; "{byte:02x}")?.as_str())?;
    }
    if digits.as_str() == wanted {
        Ok(())
    } else {
        otherwise(Way::Whole, Found::Digest)
    }
}
