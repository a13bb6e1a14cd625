//! More joins than a session has, by two viewers at a time.

use crate::ending::Ending;
use crate::expected::Expected;
use crate::job::Job;
use crate::row::number;
use crate::turns::{Task, try_whole};
use crate::verdict::Trouble;
use std::alloc::{AllocError, Global};
use std::rt::Files;
use std::sync::Wait;

/// How the script begins.
const OPENING: &str = "size 64 48\ninvite ann owner\n";

/// A line by which a viewer joins.
const JOIN: &str = "join ann plain\n";

/// The line of a join that finds none left.
const SPENT: &str = "0 refused joins-spent\n";

/// Runs a script of so many joins and one more, in which each but the first two comes after the leave of the viewer before the last; the
/// last finds none left.
pub fn run_row<R: Files + AllocGlobal + Wait>(rt: &R, words: &[&str]) -> Result<(), Trouble> {
    let [joins] = words else {
        return Err(Trouble::NoForm);
    };
    let joins = number(joins, u32::MAX.into())?;
    let mut script = Vec::new(rt.alloc());
    let mut capture = Vec::new(rt.alloc());
    script.extend_from_slice(OPENING.as_bytes())?;
    for viewer in 1..=joins {
        append_join(rt.alloc(), &mut script, &mut capture, viewer)?;
    }
    script.extend_from_slice(JOIN.as_bytes())?;
    capture.extend_from_slice(SPENT.as_bytes())?;
    let task = Task {
        job: Job::Script,
        input: &script,
        ending: Ending::Done,
    };
    try_whole(rt, rt.alloc(), &task, &Expected::Whole(capture))?;
    Ok(())
}

/// Appends the join of a viewer, before which the one before the last leaves, with its lines of the capture.
fn append_join(
    alloc: Global,
    script: &mut Vec<u8>,
    capture: &mut Vec<u8>,
    viewer: u64,
) -> Result<(), AllocError> {
    if viewer > 2 {
        let gone = viewer - 2;
        script.extend_from_slice(format!(in alloc; "@{gone} leave\n")?.as_bytes())?;
        capture.extend_from_slice(format!(in alloc; "{gone} left\n")?.as_bytes())?;
    }
    script.extend_from_slice(JOIN.as_bytes())?;
    capture.extend_from_slice(format!(in alloc; "{viewer} joined 64 48 plain\n")?.as_bytes())
}
