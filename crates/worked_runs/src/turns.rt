//! A task in each way: whole, byte by byte, cut in two, and with one read or one write failing after the other.

ghost use Rattle.std.specs.Prelude.{◌<◌};

use crate::ending::Ending;
use crate::expected::{Expected, differs, first_difference};
use crate::job::{Job, run};
use crate::verdict::{Found, Trouble, Way};
use edge_io::{PlanSink, PlanSource};
use std::alloc::{AllocError, Global};
use std::sync::Wait;

/// At how many places an input is cut in two at most.
pub const MOST_CUTS: usize = 16;

/// At how many places a client's stream is.
const STREAM_CUTS: usize = 1_000;

/// In about how many pieces an input comes whose reads fail.
const PIECES: usize = 16;

/// The most bytes of such a piece, for which each reader here has room.
const MOST_PIECE: usize = 16_384;

/// More reads than any row's input takes.
const MOST_READS: u32 = 100;

/// How many writes are made to fail at most, one after the other: more than any row has, but for the largest pictures.
const MOST_WRITES: u32 = 70;

/// How many bytes of a capture are held back at most.
const MOST_HELD: usize = 65_536;

/// How a script's line begins that adds a row.
const INVITE: &[u8] = b"invite ";

/// A job, its input, and how its run is to end.
#[derive(Clone, Copy, Drop)]
pub struct Task<'a> {
    pub job: Job<'a>,
    pub input: &'a [u8],
    pub ending: Ending,
}

/// A run: how it ended, and what it wrote.
#[derive(Drop)]
struct Run {
    ending: Ending,
    told: Vec<u8>,
}

/// Does a task in each way.
pub fn try_task<R: Wait>(
    rt: &R,
    alloc: Global,
    task: &Task<'_>,
    expected: &Expected,
) -> Result<(), Trouble> {
    let told = try_pieces(rt, alloc, task, expected, step_of(task))?;
    try_reads(rt, alloc, task, &told)?;
    try_writes(rt, alloc, task, &told)
}

/// Does a task whole, byte by byte, and cut in two at one place after the other, so many bytes apart; what it wrote.
pub fn try_pieces<R: Wait>(
    rt: &R,
    alloc: Global,
    task: &Task<'_>,
    expected: &Expected,
    step: usize,
) -> Result<Vec<u8>, Trouble>
    requires { 0 < step }
{
    let told = try_whole(rt, alloc, task, expected)?;
    try_bytes(rt, alloc, task, &told)?;
    try_cuts(rt, alloc, task, &told, step)?;
    Ok(told)
}

/// Does a task whole; what it wrote.
pub fn try_whole<R: Wait>(
    rt: &R,
    alloc: Global,
    task: &Task<'_>,
    expected: &Expected,
) -> Result<Vec<u8>, Trouble> {
    let pieces = Vec::new(alloc);
    let whole = run_of(rt, alloc, &task.job, task.input, pieces, Way::Whole)?;
    if whole.ending != task.ending {
        return otherwise(Way::Whole, Found::Ending(whole.ending));
    }
    match differs(expected, &whole.told) {
        Some(at) => otherwise(Way::Whole, Found::Byte(at)),
        None => Ok(whole.told),
    }
}

/// Does a task whose input comes byte by byte.
fn try_bytes<R: Wait>(rt: &R, alloc: Global, task: &Task<'_>, told: &[u8]) -> Result<(), Trouble> {
    let pieces = vec![in alloc; 1_usize; task.input.len()]?;
    let found = run_of(rt, alloc, &task.job, task.input, pieces, Way::ByByte)?;
    must_be_same(Way::ByByte, task, told, &found)
}

/// By how many bytes the places lie apart at which a task's input is cut in two.
fn step_of(task: &Task<'_>) -> usize
    ensures { 0 < result }
{
    match task.job {
        Job::Stream { .. } => task.input.len() / STREAM_CUTS + 1,
        Job::Script | Job::Look { .. } | Job::Demo { .. } | Job::Record | Job::Replay { .. } => task
            .input
            .len()
            / MOST_CUTS
            + 1,
    }
}

/// Does a task whose input is cut in two, at one place after the other, so many bytes apart.
fn try_cuts<R: Wait>(
    rt: &R,
    alloc: Global,
    task: &Task<'_>,
    told: &[u8],
    step: usize,
) -> Result<(), Trouble>
    requires { 0 < step }
{
    for cut in (1..task.input.len()).step_by(step) {
        let way = Way::CutAt(cut);
        let pieces = vec![in alloc; cut; 1]?;
        let found = run_of(rt, alloc, &task.job, task.input, pieces, way)?;
        must_be_same(way, task, told, &found)?;
    }
    Ok(())
}

/// Does a task with one read failing after the other, of which there must be one where there is something to read.
///
/// What stands there then is just what the bytes that were handed out before give.
fn try_reads<R: Wait>(rt: &R, alloc: Global, task: &Task<'_>, told: &[u8]) -> Result<(), Trouble> {
    let piece = (task.input.len() / PIECES).clamp(1, MOST_PIECE);
    let mut handed = 0_usize;
    for call in 1..=MOST_READS {
        let way = Way::Read(call);
        let pieces = vec![in alloc; piece; task.input.len()]?;
        let found = run_of(rt, alloc, &task.job, task.input, pieces, way)?;
        if found.ending != Ending::ReadFault {
            must_be_same(way, task, told, &found)?;
            return must_have_failed(way, call, task.input);
        }
        let wanted = given_by(rt, alloc, &task.job, front(task.input, handed))?;
        must_stand(way, told, &wanted, &found.told)?;
        handed = handed.saturating_add(piece);
    }
    otherwise(Way::Read(MOST_READS), Found::Ending(Ending::ReadFault))
}

/// Does a task with one write failing after the other, of which there must be one where something is written.
///
/// Each write adds something, so with each later one that fails there stands more, and the most where none does.
fn try_writes<R: Wait>(rt: &R, alloc: Global, task: &Task<'_>, told: &[u8]) -> Result<(), Trouble> {
    let mut least = 0_usize;
    for call in 1..=MOST_WRITES {
        let way = Way::Write(call);
        let pieces = Vec::new(alloc);
        let found = run_of(rt, alloc, &task.job, task.input, pieces, way)?;
        must_have_least(way, least, &found.told)?;
        if found.ending != Ending::WriteFault {
            must_be_same(way, task, told, &found)?;
            return must_have_failed(way, call, told);
        }
        must_be_cut_at_write(way, &task.job, told, &found.told)?;
        least = found.told.len().saturating_add(1);
    }
    Ok(())
}

/// The call of this number, which didn't fail, must not be the first one where there are bytes.
fn must_have_failed(way: Way, call: u32, bytes: &[u8]) -> Result<(), Trouble> {
    if call == 1 && !bytes.is_empty() {
        otherwise(way, Found::NoFault)
    } else {
        Ok(())
    }
}

/// The run of a job over an input that comes in pieces of these sizes, in this way.
fn run_of<R: Wait>(
    rt: &R,
    alloc: Global,
    job: &Job<'_>,
    input: &[u8],
    pieces: Vec<usize>,
    way: Way,
) -> Result<Run, AllocError> {
    let mut reads = Vec::new(alloc);
    let mut writes = Vec::new(alloc);
    match way {
        Way::Read(call) => reads.push(call)?,
        Way::Write(call) => writes.push(call)?,
        Way::Whole | Way::ByByte | Way::CutAt(_) | Way::Print(_) | Way::Dial => {}
    }
    let mut source = PlanSource::new(Vec::from_slice(alloc, input)?, pieces, reads);
    let mut sink = PlanSink::new(alloc, writes);
    let ending = run(rt, alloc, job, &mut source, &mut sink);
    let told = Vec::from_slice(alloc, sink.bytes())?;
    Ok(Run { ending, told })
}

/// What the front of an input that was handed out gives, where the next read fails: the lines of a script that are whole, the bytes of a
/// client's stream, and nothing of a capture or a record.
fn given_by<R: Wait>(
    rt: &R,
    alloc: Global,
    job: &Job<'_>,
    handed: &[u8],
) -> Result<Vec<u8>, AllocError> {
    let whole = match job {
        Job::Script => lines_done(handed),
        Job::Record => steps_done(handed),
        Job::Stream { .. } => handed,
        Job::Look { .. } | Job::Demo { .. } | Job::Replay { .. } => &[],
    };
    if whole.is_empty() {
        return Ok(Vec::new(alloc));
    }
    let pieces = Vec::new(alloc);
    Ok(run_of(rt, alloc, job, whole, pieces, Way::Whole)?.told)
}

/// So many bytes at the front of a text, or all where it has fewer.
fn front(text: &[u8], count: usize) -> &[u8] {
    &text[..count.min(text.len())]
}

/// The lines of a text that are ended.
fn whole_lines(text: &[u8]) -> &[u8] {
    match text.iter().rposition(|byte| *byte == b'\n') {
        Some(last) => &text[..=last],
        None => &[],
    }
}

/// The lines of a script that are done where so much of it was read: all that are ended, but its first line only once a second one says
/// whether it stands for an invitation and a join, too.
fn lines_done(script: &[u8]) -> &[u8] {
    let lines = whole_lines(script);
    if line_count(lines) < 2 { &[] } else { lines }
}

/// The lines of a script that are done where it is recorded, and so much of it was read: none where rows may follow, since the head isn't
/// written then.
fn steps_done(script: &[u8]) -> &[u8] {
    let lines = lines_done(script);
    match lines.iter().rposition(|byte| *byte == b'\n') {
        Some(end) => {
            let start = match lines[..end].iter().rposition(|byte| *byte == b'\n') {
                Some(before) => before + 1,
                None => 0,
            };
            if lines[start..].starts_with(INVITE) {
                &[]
            } else {
                lines
            }
        }
        None => &[],
    }
}

/// How many line ends a text has.
fn line_count(text: &[u8]) -> usize {
    text.iter().filter(|byte| **byte == b'\n').count()
}

/// A run must end as the task's is to, and must have written what was written before.
fn must_be_same(way: Way, task: &Task<'_>, told: &[u8], found: &Run) -> Result<(), Trouble> {
    if found.ending != task.ending {
        return otherwise(way, Found::Ending(found.ending));
    }
    match first_difference(&found.told, told) {
        Some(at) => otherwise(way, Found::Byte(at)),
        None => Ok(()),
    }
}

/// What was written must be just this, which must be a front of the whole.
fn must_stand(way: Way, told: &[u8], wanted: &[u8], found: &[u8]) -> Result<(), Trouble> {
    match first_difference(found, wanted) {
        Some(at) => otherwise(way, Found::Byte(at)),
        None => must_be_front(way, told, found),
    }
}

/// What was written must be a front of the whole.
pub fn must_be_front(way: Way, told: &[u8], found: &[u8]) -> Result<(), Trouble> {
    if told.starts_with(found) {
        Ok(())
    } else {
        otherwise(way, Found::Byte(found.len()))
    }
}

/// What was written must have so many bytes at least.
fn must_have_least(way: Way, least: usize, found: &[u8]) -> Result<(), Trouble> {
    if least <= found.len() {
        Ok(())
    } else {
        otherwise(way, Found::Byte(found.len()))
    }
}

/// What was written where a write failed must be a front of the whole, and of a script's capture that is held back at once whole lines.
fn must_be_cut_at_write(way: Way, job: &Job<'_>, told: &[u8], found: &[u8]) -> Result<(), Trouble> {
    must_be_front(way, told, found)?;
    match job {
        Job::Script if told.len() <= MOST_HELD && whole_lines(found).len() != found.len() => {
            otherwise(way, Found::Byte(found.len()))
        }
        _ => Ok(()),
    }
}

/// The trouble that something is otherwise.
pub fn otherwise<T>(way: Way, found: Found) -> Result<T, Trouble> {
    Err(Trouble::Differs { way, found })
}
