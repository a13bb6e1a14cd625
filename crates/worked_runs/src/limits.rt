//! The limits of a journal at their real size: scripts in which one line stands as often as it is accepted.

use crate::ending::Ending;
use crate::expected::Expected;
use crate::job::Job;
use crate::row::number;
use crate::turns::{Task, try_whole};
use crate::verdict::Trouble;
use std::alloc::{AllocError, Global};
use std::rt::Files;
use std::sync::Wait;

/// A script's lines before and behind the one that stands often, and the lines of its capture.
#[derive(Clone, Copy)]
struct Limit {
    opening: &'static [u8],
    line: &'static [u8],
    closing: &'static [u8],
    capture: &'static [u8],
}

/// One pixel is filled. The next fill finds the journal full, and so does a click, but a blit its slot empty; and a viewer may
/// still join, and another one leave.
const ENTRIES: Limit = Limit {
    opening: b"size 64 48\ninvite ann owner\ninvite ben control\ninvite eve view\njoin ann plain\njoin ben plain\n",
    line: b"fill 0 0 1 1 FF0000\n",
    closing: b"fill 0 0 1 1 FF0000\nblit 0 0 1 1 CC 7 0 0\nmouse 9000 20 20\njoin eve plain\n@2 leave\n",
    capture: b"1 joined 64 48 plain\n2 joined 64 48 plain\n1 refused journal-full\n1 refused empty-slot 7\n1 refused journal-full\n3 joined 64 48 plain\n2 left\n",
};

/// How many entries that script has besides: three joins and a leave.
const BESIDES: u64 = 4;

/// An image of 64 by 64 pixels is loaded. The next one finds the journal full, and so does one of a single pixel, but a blit is drawn.
const IMAGES: Limit = Limit {
    opening: b"size 64 48\n",
    line: b"image 0 64 64 FFFFFF\n",
    closing: b"image 0 64 64 FFFFFF\nimage 0 1 1 000007\nblit 0 0 64 64 CC 0 0 0\n",
    capture: b"1 joined 64 48 plain\n1 refused journal-full\n1 refused journal-full\n",
};

/// Runs a script of so many fills and of what comes behind the last one, and replays its record, which has all of its entries.
pub fn run_entries<R: Files + AllocGlobal + Wait>(rt: &R, words: &[&str]) -> Result<(), Trouble> {
    let alloc = rt.alloc();
    let count = count_of(words)?;
    let script = script_of(alloc, &ENTRIES, count)?;
    try_script(rt, alloc, &script, ENTRIES.capture)?;
    let recording = Task {
        job: Job::Record,
        input: &script,
        ending: Ending::Done,
    };
    let whatever = Expected::Tail(Vec::new(alloc));
    let record = try_whole(rt, alloc, &recording, &whatever)?;
    let entries = count.saturating_add(BESIDES);
    let replaying = Task {
        job: Job::Replay { stop: u64::MAX },
        input: &record,
        ending: Ending::NotShown,
    };
    let only = format!(in alloc; "only {entries}\n")?.into_bytes();
    try_whole(rt, alloc, &replaying, &Expected::Whole(only))?;
    Ok(())
}

/// Runs a script of so many loads of an image and of what comes behind the last one.
pub fn run_images<R: Files + AllocGlobal + Wait>(rt: &R, words: &[&str]) -> Result<(), Trouble> {
    let alloc = rt.alloc();
    let script = script_of(alloc, &IMAGES, count_of(words)?)?;
    try_script(rt, alloc, &script, IMAGES.capture)
}

/// How often the line stands, by a row's words.
fn count_of(words: &[&str]) -> Result<u64, Trouble> {
    match words {
        [count] => number(count, u32::MAX.into()),
        _ => Err(Trouble::NoForm),
    }
}

/// The script in which the line of a limit stands so often.
fn script_of(alloc: Global, limit: &Limit, count: u64) -> Result<Vec<u8>, AllocError> {
    let mut script = Vec::new(alloc);
    script.extend_from_slice(limit.opening)?;
    for _ in 0..count {
        script.extend_from_slice(limit.line)?;
    }
    script.extend_from_slice(limit.closing)?;
    Ok(script)
}

/// Runs a script whole, and compares what it writes with these lines.
fn try_script<R: Wait>(
    rt: &R,
    alloc: Global,
    script: &[u8],
    capture: &[u8],
) -> Result<(), Trouble> {
    let task = Task {
        job: Job::Script,
        input: script,
        ending: Ending::Done,
    };
    let expected = Expected::Whole(Vec::from_slice(alloc, capture)?);
    try_whole(rt, alloc, &task, &expected)?;
    Ok(())
}
