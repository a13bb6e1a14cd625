//! Clients' streams with their answers.

use crate::ending::Ending;
use crate::expected::Expected;
use crate::files;
use crate::job::Job;
use crate::row::number;
use crate::turns::{MOST_CUTS, Task, must_be_front, try_pieces, try_task, try_whole};
use crate::verdict::{Trouble, Way};
use px_core::Size;
use std::rt::Files;
use std::sync::Wait;

/// The row of the sample client, its picture's size, and its name.
const SAMPLE: &str = "sample";

pub const SIZE: Size = Size { w: 64, h: 48 };

const OWNER: &str = "ann";

/// Disconnect Provider Ultimatum of a client that is refused.
const REFUSED: [u8; 9] = [3, 0, 0, 9, 2, 0xF0, 0x80, 0x20, 0x80];

/// What stands between the words of a case: some bytes, and the number and the place of the refusal.
const BETWEEN: char = '/';

/// The ending of files with streams, and of files with answers.
pub const STREAM: &str = "stream";

const ANSWER: &str = "answer";

/// Whether an answer is known whole, or how it ends.
#[derive(Clone, Copy, Debug, PartialEq, Eq)]
pub enum Known {
    Whole,
    Tail,
}

/// Serves a client, and compares what is written with its answer.
pub fn run_row<R: Files + AllocGlobal + Wait>(
    rt: &R,
    words: &[&str],
    known: Known,
) -> Result<(), Trouble> {
    let [name, w, h, owner, ending @ ..] = words else {
        return Err(Trouble::NoForm);
    };
    let size = size_of(w, h)?;
    let stream = files::read_hex(rt, name, STREAM)?;
    let answer = files::read_hex(rt, name, ANSWER)?;
    let task = Task {
        job: Job::Stream { size, owner },
        input: &stream,
        ending: ending_of(ending)?,
    };
    let expected = match known {
        Known::Whole => Expected::Whole(answer),
        Known::Tail => Expected::Tail(answer),
    };
    try_task(rt, rt.alloc(), &task, &expected)
}

/// The size of a picture, by the words of its columns and rows.
fn size_of(w: &str, h: &str) -> Result<Size, Trouble> {
    Ok(Size {
        w: number(w, u32::MAX.into())? as u32,
        h: number(h, u32::MAX.into())? as u32,
    })
}

/// Serves a client whose stream ends behind so many bytes, for each number below their number: it is truncated, and what is written is a front of the
/// answer to the whole stream.
pub fn run_lengths<R: Files + AllocGlobal + Wait>(rt: &R, words: &[&str]) -> Result<(), Trouble> {
    let [name, w, h, owner] = words else {
        return Err(Trouble::NoForm);
    };
    let size = size_of(w, h)?;
    let stream = files::read_hex(rt, name, STREAM)?;
    let answer = files::read_hex(rt, name, ANSWER)?;
    for length in 0..stream.len() {
        let task = Task {
            job: Job::Stream { size, owner },
            input: &stream[..length],
            ending: Ending::Truncated,
        };
        let told = try_whole(rt, rt.alloc(), &task, &Expected::Tail(Vec::new(rt.alloc())))?;
        must_be_front(Way::CutAt(length), &answer, &told)?;
    }
    Ok(())
}

/// How a client's service ends, by its words.
fn ending_of(words: &[&str]) -> Result<Ending, Trouble> {
    match words {
        ["done"] => Ok(Ending::Done),
        ["truncated"] => Ok(Ending::Truncated),
        ["not-invited"] => Ok(Ending::NotInvited),
        ["refused", k, at] => refused(k, at),
        _ => Err(Trouble::NoForm),
    }
}

/// The refusal of a stream by this number at this place.
fn refused(k: &str, at: &str) -> Result<Ending, Trouble> {
    Ok(Ending::Refused {
        k: number(k, u8::MAX.into())? as u8,
        at: number(at, u64::MAX)?,
    })
}

/// Serves the sample client with one byte changed, and compares what is written with a front of its answer and an ultimatum behind.
pub fn run_change<R: Files + AllocGlobal + Wait>(rt: &R, words: &[&str]) -> Result<(), Trouble> {
    let [_, place, value, k, at, front] = words else {
        return Err(Trouble::NoForm);
    };
    let mut stream = files::read_hex(rt, SAMPLE, STREAM)?;
    let mut answer = files::read_hex(rt, SAMPLE, ANSWER)?;
    let value = number(value, u8::MAX.into())? as u8;
    match stream.get_mut(number(place, u32::MAX.into())? as usize) {
        Some(byte) => *byte = value,
        None => return Err(Trouble::NoForm),
    }
    answer.truncate(number(front, u32::MAX.into())? as usize);
    answer.extend_from_slice(&REFUSED)?;
    let task = Task {
        job: Job::Stream {
            size: SIZE,
            owner: OWNER,
        },
        input: &stream,
        ending: refused(k, at)?,
    };
    try_task(rt, rt.alloc(), &task, &Expected::Whole(answer))
}

/// Serves a front of the sample client, of so many bytes, with those of one case after the other behind it. Each is refused, and what is
/// written is a front of the client's answer, of so many bytes, with an ultimatum behind.
pub fn run_behind<R: Files + AllocGlobal + Wait>(rt: &R, words: &[&str]) -> Result<(), Trouble> {
    let [place, front, cases @ ..] = words else {
        return Err(Trouble::NoForm);
    };
    let mut stream = files::read_hex(rt, SAMPLE, STREAM)?;
    let mut answer = files::read_hex(rt, SAMPLE, ANSWER)?;
    stream.truncate(number(place, u32::MAX.into())? as usize);
    answer.truncate(number(front, u32::MAX.into())? as usize);
    answer.extend_from_slice(&REFUSED)?;
    let expected = Expected::Whole(answer);
    for case in cases {
        run_case(rt, &stream, case, &expected)?;
    }
    Ok(())
}

/// Serves a client that sends the bytes of a case behind these, and is then refused.
fn run_case<R: AllocGlobal + Wait>(
    rt: &R,
    front: &[u8],
    case: &str,
    expected: &Expected,
) -> Result<(), Trouble> {
    let words = case.split(BETWEEN).collect::<Vec<&str>>(rt.alloc())?;
    let [bytes, k, at] = words.as_slice() else {
        return Err(Trouble::NoForm);
    };
    let mut stream = Vec::from_slice(rt.alloc(), front)?;
    files::append_word(rt.alloc(), &mut stream, bytes)?;
    let task = Task {
        job: Job::Stream {
            size: SIZE,
            owner: OWNER,
        },
        input: &stream,
        ending: refused(k, at)?,
    };
    let step = stream.len() / MOST_CUTS + 1;
    try_pieces(rt, rt.alloc(), &task, expected, step)?;
    Ok(())
}
