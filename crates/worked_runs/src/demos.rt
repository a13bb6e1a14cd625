//! Demonstration loads with the lines of their counts.

use crate::ending::Ending;
use crate::expected::Expected;
use crate::job::Job;
use crate::row::number;
use crate::turns::{Task, try_task};
use crate::verdict::Trouble;
use std::rt::Files;
use std::sync::Wait;

/// Runs the demonstration load, and compares its line with the row's words.
pub fn run_row<R: Files + AllocGlobal + Wait>(rt: &R, words: &[&str]) -> Result<(), Trouble> {
    let [seed, steps, counts @ ..] = words else {
        return Err(Trouble::NoForm);
    };
    let job = Job::Demo {
        seed: number(seed, u64::MAX)?,
        steps: number(steps, u32::MAX.into())? as u32,
    };
    let task = Task {
        job,
        input: &[],
        ending: Ending::Done,
    };
    let mut line = Vec::new(rt.alloc());
    for word in counts {
        line.extend_from_slice(word.as_bytes())?;
        line.extend_from_slice(b" ")?;
    }
    if let Some(last) = line.last_mut() {
        *last = b'\n';
    }
    try_task(rt, rt.alloc(), &task, &Expected::Whole(line))
}
