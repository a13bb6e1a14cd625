//! Scripts with their captures.

use crate::ending::Ending;
use crate::expected::Expected;
use crate::files;
use crate::job::Job;
use crate::turns::{Task, try_task};
use crate::verdict::Trouble;
use line_text::read_number;
use std::rt::Files;
use std::sync::Wait;

/// Runs a script, and compares what it writes with its capture.
pub fn run_row<R: Files + AllocGlobal + Wait>(rt: &R, words: &[&str]) -> Result<(), Trouble> {
    let [name] = words else {
        return Err(Trouble::NoForm);
    };
    let script = files::read_of(rt, name, "script")?;
    let capture = files::read_of(rt, name, "capture")?;
    let task = Task {
        job: Job::Script,
        input: &script,
        ending: ending_of(&capture),
    };
    try_task(rt, rt.alloc(), &task, &Expected::Whole(capture))
}

/// How a script ends that has this capture: by the refusal of a line where the capture's last line tells it.
pub fn ending_of(capture: &[u8]) -> Ending {
    match broken_line(capture) {
        Some((k, rule)) => Ending::Line { k, rule },
        None => Ending::Done,
    }
}

/// The line and the rule that the last line of a capture tells.
fn broken_line(capture: &[u8]) -> Option<(u32, u8)> {
    let lines = capture.strip_suffix(b"\n")?;
    let last = match lines.iter().rposition(|byte| *byte == b'\n') {
        Some(end) => &lines[end + 1..],
        None => lines,
    };
    let words = last.strip_prefix(b"line ")?;
    let space = words.iter().position(|byte| *byte == b' ')?;
    let rule = words[space..].strip_prefix(b" rule ")?;
    let k = read_number(&words[..space], u32::MAX.into())?;
    let rule = read_number(rule, u8::MAX.into())?;
    Some((k as u32, rule as u8))
}
