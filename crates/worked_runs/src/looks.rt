//! Captures with what they show.

use crate::ending::Ending;
use crate::expected::Expected;
use crate::files;
use crate::job::Job;
use crate::row::number;
use crate::turns::{Task, otherwise, try_pieces, try_task, try_whole};
use crate::verdict::{Trouble, Way};
use line_text::read_hexadecimal;
use std::rt::Files;
use std::sync::Wait;

/// How many digits a checksum has.
const DIGITS: usize = 8;

/// What ends a line.
const LINE_END: u8 = b'\n';

/// The text where no mark was read.
const NO_MARK: &[u8] = b"no mark\n";

/// Shows a capture to a viewer, and compares what is written with the row.
pub fn run_row<R: Files + AllocGlobal + Wait>(rt: &R, words: &[&str]) -> Result<(), Trouble> {
    let [name, viewer, what @ ..] = words else {
        return Err(Trouble::NoForm);
    };
    let viewer = number(viewer, u16::MAX.into())? as u16;
    let capture = files::read_of(rt, name, "capture")?;
    let (ending, expected) = expected_of(rt, what)?;
    let task = Task {
        job: Job::Look { viewer },
        input: &capture,
        ending,
    };
    try_task(rt, rt.alloc(), &task, &expected)
}

/// How the showing ends, and what it writes, by its words.
pub fn expected_of<R: Files + AllocGlobal>(
    rt: &R,
    words: &[&str],
) -> Result<(Ending, Expected), Trouble> {
    let alloc = rt.alloc();
    match words {
        ["no-mark"] => Ok((
            Ending::Done,
            Expected::Whole(Vec::from_slice(alloc, NO_MARK)?),
        )),
        ["line", line] => Ok((Ending::NotShown, text(format!(in alloc; "line {line}\n")?))),
        ["refused", at] => Ok((Ending::NotShown, text(format!(in alloc; "refused {at}\n")?))),
        ["file", file] => Ok((Ending::Done, Expected::Whole(files::read(rt, file)?))),
        ["picture", marks, orders, tiles, w, h, sum] => {
            let head = format!(in alloc;
                "P6\n# marks {marks} orders {orders} tiles {tiles}\n{w} {h}\n255\n"
            )?;
            match read_hexadecimal(sum.as_bytes(), DIGITS) {
                Some(sum) => {
                    let head = head.into_bytes();
                    Ok((Ending::Done, Expected::Picture { head, sum }))
                }
                None => Err(Trouble::NoForm),
            }
        }
        _ => Err(Trouble::NoForm),
    }
}

/// A text that is written whole.
fn text(text: String) -> Expected {
    Expected::Whole(text.into_bytes())
}

/// Shows a capture that is accepted to a viewer, byte by byte, cut in two at each place, and each front of it: within a line that line
/// breaks the rules, and between lines all is right but that nobody has joined at first.
pub fn run_fronts<R: Files + AllocGlobal + Wait>(rt: &R, words: &[&str]) -> Result<(), Trouble> {
    let [name, viewer] = words else {
        return Err(Trouble::NoForm);
    };
    let viewer = number(viewer, u16::MAX.into())? as u16;
    let capture = files::read_of(rt, name, "capture")?;
    let task = Task {
        job: Job::Look { viewer },
        input: &capture,
        ending: Ending::Done,
    };
    let whatever = Expected::Tail(Vec::new(rt.alloc()));
    try_pieces(rt, rt.alloc(), &task, &whatever, 1)?;
    for cut in 0..capture.len() {
        try_front(rt, viewer, &capture[..cut])?;
    }
    Ok(())
}

/// Shows a front of a capture to a viewer.
fn try_front<R: Files + AllocGlobal + Wait>(
    rt: &R,
    viewer: u16,
    front: &[u8],
) -> Result<(), Trouble> {
    let alloc = rt.alloc();
    let lines = front.iter().filter(|byte| **byte == LINE_END).count();
    let (ending, expected) = match front.last() {
        None => (Ending::NotShown, text(format!(in alloc; "line 0\n")?)),
        Some(&LINE_END) => (Ending::Done, Expected::Tail(Vec::new(alloc))),
        Some(_) => {
            let line = lines.saturating_add(1);
            (Ending::NotShown, text(format!(in alloc; "line {line}\n")?))
        }
    };
    let task = Task {
        job: Job::Look { viewer },
        input: front,
        ending,
    };
    match try_whole(rt, alloc, &task, &expected) {
        Ok(_) => Ok(()),
        Err(Trouble::Differs { found, .. }) => otherwise(Way::CutAt(front.len()), found),
        Err(trouble) => Err(trouble),
    }
}
