//! Records of scripts, and what they show.

use crate::ending::Ending;
use crate::expected::Expected;
use crate::files;
use crate::job::Job;
use crate::row::number;
use crate::scripts::ending_of;
use crate::turns::{Task, otherwise, try_task, try_whole};
use crate::verdict::{Trouble, Way};
use line_text::read_hexadecimal;
use std::alloc::Global;
use std::rt::Files;
use std::sync::Wait;

/// How many digits a checksum has.
const DIGITS: usize = 8;

/// Records a script, and compares what is written with its record; its capture says how the run ends.
pub fn run_record<R: Files + AllocGlobal + Wait>(rt: &R, words: &[&str]) -> Result<(), Trouble> {
    let [name] = words else {
        return Err(Trouble::NoForm);
    };
    let script = files::read_of(rt, name, "script")?;
    let capture = files::read_of(rt, name, "capture")?;
    let record = files::read_hex(rt, name, "record")?;
    let task = Task {
        job: Job::Record,
        input: &script,
        ending: ending_of(&capture),
    };
    try_task(rt, rt.alloc(), &task, &Expected::Whole(record))
}

/// Replays a record, and compares what is written with the row.
pub fn run_replay<R: Files + AllocGlobal + Wait>(rt: &R, words: &[&str]) -> Result<(), Trouble> {
    let [name, stop, what @ ..] = words else {
        return Err(Trouble::NoForm);
    };
    let record = files::read_hex(rt, name, "record")?;
    let (ending, expected) = expected_of(rt.alloc(), stop, what)?;
    let task = Task {
        job: Job::Replay {
            stop: number(stop, u64::MAX)?,
        },
        input: &record,
        ending,
    };
    try_task(rt, rt.alloc(), &task, &expected)
}

/// Records a script, replays its record, each whole, and compares the picture with the row; the script's capture says how the recording ends.
pub fn run_again<R: Files + AllocGlobal + Wait>(rt: &R, words: &[&str]) -> Result<(), Trouble> {
    let [name, stop, w, h, sum] = words else {
        return Err(Trouble::NoForm);
    };
    let script = files::read_of(rt, name, "script")?;
    let capture = files::read_of(rt, name, "capture")?;
    let recording = Task {
        job: Job::Record,
        input: &script,
        ending: ending_of(&capture),
    };
    let whatever = Expected::Tail(Vec::new(rt.alloc()));
    let record = try_whole(rt, rt.alloc(), &recording, &whatever)?;
    let (ending, expected) = expected_of(rt.alloc(), stop, &["picture", w, h, sum])?;
    let task = Task {
        job: Job::Replay {
            stop: number(stop, u64::MAX)?,
        },
        input: &record,
        ending,
    };
    try_whole(rt, rt.alloc(), &task, &expected)?;
    Ok(())
}

/// Replays each front of a record that has its head, for more entries than it has. The words behind its name are the places where its head
/// and each of its entries end: a front has the entries that end in it.
pub fn run_fronts<R: Files + AllocGlobal + Wait>(rt: &R, words: &[&str]) -> Result<(), Trouble> {
    let [name, head, ends @ ..] = words else {
        return Err(Trouble::NoForm);
    };
    let record = files::read_hex(rt, name, "record")?;
    let head = number(head, u32::MAX.into())? as usize;
    let mut places = Vec::new(rt.alloc());
    for end in ends {
        let end = number(end, u32::MAX.into())? as usize;
        places.extend_from_slice(&[end])?;
    }
    for count in head..=record.len() {
        let entries = places.iter().filter(|end| **end <= count).count();
        try_front(rt, &record[..count], entries)?;
    }
    Ok(())
}

/// Replays a front of a record, which has so many entries.
fn try_front<R: Files + AllocGlobal + Wait>(
    rt: &R,
    front: &[u8],
    entries: usize,
) -> Result<(), Trouble> {
    let task = Task {
        job: Job::Replay { stop: u64::MAX },
        input: front,
        ending: Ending::NotShown,
    };
    let only = format!(in rt.alloc(); "only {entries}\n")?.into_bytes();
    match try_whole(rt, rt.alloc(), &task, &Expected::Whole(only)) {
        Ok(_) => Ok(()),
        Err(Trouble::Differs { found, .. }) => otherwise(Way::CutAt(front.len()), found),
        Err(trouble) => Err(trouble),
    }
}

/// How a replay ends, and what it writes, by its words.
fn expected_of(alloc: Global, stop: &str, words: &[&str]) -> Result<(Ending, Expected), Trouble> {
    match words {
        [kind @ ("record" | "entry" | "only"), count] => {
            let text = format!(in alloc; "{kind} {count}\n")?;
            Ok((Ending::NotShown, Expected::Whole(text.into_bytes())))
        }
        ["picture", w, h, sum] => match read_hexadecimal(sum.as_bytes(), DIGITS) {
            Some(sum) => {
                let head = format!(in alloc; "P6\n# entries {stop}\n{w} {h}\n255\n")?;
                let head = head.into_bytes();
                Ok((Ending::Done, Expected::Picture { head, sum }))
            }
            None => Err(Trouble::NoForm),
        },
        _ => Err(Trouble::NoForm),
    }
}
