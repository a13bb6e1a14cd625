//! Hosts' streams with what a viewer of them prints, its status, and what it tells the host.

use crate::expected::{Expected, differs, first_difference};
use crate::files;
use crate::looks::expected_of;
use crate::row::number;
use crate::streams::STREAM;
use crate::turns::{must_be_front, otherwise};
use crate::verdict::{Found, Trouble, Way};
use crate::words::command_line;
use edge_io::{MemDial, MemLink, PlanSink, PlanSource};
use look_net::view_top;
use std::alloc::Global;
use std::rt::Files;
use std::sync::Wait;

/// The port that is dialled, and the name that the viewer joins by.
const PORT: &str = "3389";

const NAME: &str = "ann";

/// What stands between preset words in a row.
const BETWEEN: char = '+';

/// The ending of files with what the host is told.
const TOLD: &str = "told";

/// The statuses of faults: of a read, of a write, and of the dial.
const READ_FAULT: u8 = 4;

const WRITE_FAULT: u8 = 5;

const PORT_FAULT: u8 = 7;

/// At how many places a host's stream is cut in two at most, and in about how many pieces it comes whose reads fail.
const MOST_CUTS: usize = 1_000;

const PIECES: usize = 32;

/// More calls than a run makes.
const MOST_CALLS: u32 = 200;

/// A visit of a host that sends this, and what it is to come to: the status, what is printed, and what the host is told.
#[derive(Drop)]
struct Visit {
    words: Vec<String>,
    stream: Vec<u8>,
    status: u8,
    printed: Expected,
    told: Vec<u8>,
}

/// What a run came to: the status, what was printed, and what the host was told by the one link that came back; none came back where none
/// was given.
#[derive(Drop)]
struct Run {
    status: u8,
    printed: Vec<u8>,
    told: Option<Vec<u8>>,
}

/// Views a host's stream in each way, and compares what is printed and told, and the status, with the row.
pub fn run_row<R: Files + AllocGlobal + Wait>(rt: &R, words: &[&str]) -> Result<(), Trouble> {
    let visit = visit_of(rt, words)?;
    let printed = try_whole(rt, rt.alloc(), &visit)?;
    try_pieces(rt, rt.alloc(), &visit, &printed)?;
    try_reads(rt, rt.alloc(), &visit, &printed)?;
    try_writes(rt, rt.alloc(), &visit, &printed)?;
    try_prints(rt, rt.alloc(), &visit, &printed)?;
    try_dial(rt, rt.alloc(), &visit)
}

/// Views a host's stream that comes in two pieces, the first of so many bytes, or in one for 0.
pub fn run_cut<R: Files + AllocGlobal + Wait>(rt: &R, words: &[&str]) -> Result<(), Trouble> {
    let alloc = rt.alloc();
    let [name, cut, behind @ ..] = words else {
        return Err(Trouble::NoForm);
    };
    let cut = number(cut, u32::MAX.into())? as usize;
    let mut row = Vec::from_slice(alloc, &[*name])?;
    row.extend_from_slice(behind)?;
    let visit = visit_of(rt, &row)?;
    let pieces = vec![in alloc; cut; usize::from(cut > 0)]?;
    let run = run_of(rt, alloc, &visit, pieces, &visit.stream, Way::CutAt(cut))?;
    must_print(Way::CutAt(cut), &visit, &run)?;
    must_tell(Way::CutAt(cut), &visit.told, &run)
}

/// Views each front of a host's stream that has no mark: it ends too early, and what the host is told grows with it.
pub fn run_lengths<R: Files + AllocGlobal + Wait>(rt: &R, words: &[&str]) -> Result<(), Trouble> {
    let alloc = rt.alloc();
    let [name, marks, preset] = words else {
        return Err(Trouble::NoForm);
    };
    let visit = visit_of(rt, &[name, marks, preset, "35", "no-mark"])?;
    let mut told = 0_usize;
    for count in 0..visit.stream.len() {
        let way = Way::CutAt(count);
        let pieces = Vec::new(alloc);
        let run = run_of(rt, alloc, &visit, pieces, &visit.stream[..count], way)?;
        must_print(way, &visit, &run)?;
        told = must_tell_more(way, &visit.told, told, &run)?;
    }
    Ok(())
}

/// The visit of a row, by its words: NAME MARKS PRESET STATUS, and what is printed.
fn visit_of<R: Files + AllocGlobal>(rt: &R, words: &[&str]) -> Result<Visit, Trouble> {
    let [name, marks, preset, status, what @ ..] = words else {
        return Err(Trouble::NoForm);
    };
    let (_, printed) = expected_of(rt, what)?;
    let presets = preset.split(BETWEEN).collect::<Vec<&str>>(rt.alloc())?;
    let mut line = Vec::from_slice(rt.alloc(), &[PORT, NAME, *marks])?;
    line.extend_from_slice(&presets)?;
    Ok(Visit {
        words: command_line(rt.alloc(), &line)?,
        stream: files::read_hex(rt, name, STREAM)?,
        status: number(status, u8::MAX.into())? as u8,
        printed,
        told: files::read_hex(rt, name, TOLD)?,
    })
}

/// Views the stream as it is; what was printed.
fn try_whole<R: Wait>(rt: &R, alloc: Global, visit: &Visit) -> Result<Vec<u8>, Trouble> {
    let pieces = Vec::new(alloc);
    let run = run_of(rt, alloc, visit, pieces, &visit.stream, Way::Whole)?;
    must_print(Way::Whole, visit, &run)?;
    must_tell(Way::Whole, &visit.told, &run)?;
    Ok(run.printed)
}

/// Views the stream byte by byte, and cut in two at one place after the other.
fn try_pieces<R: Wait>(
    rt: &R,
    alloc: Global,
    visit: &Visit,
    printed: &[u8],
) -> Result<(), Trouble> {
    let pieces = vec![in alloc; 1_usize; visit.stream.len()]?;
    let run = run_of(rt, alloc, visit, pieces, &visit.stream, Way::ByByte)?;
    must_be_same(Way::ByByte, visit, printed, &run)?;
    let step = visit.stream.len() / MOST_CUTS + 1;
    for cut in (1..visit.stream.len()).step_by(step) {
        let pieces = vec![in alloc; cut; 1]?;
        let run = run_of(rt, alloc, visit, pieces, &visit.stream, Way::CutAt(cut))?;
        must_be_same(Way::CutAt(cut), visit, printed, &run)?;
    }
    Ok(())
}

/// Views the stream with one read failing after the other: nothing is printed, and the host was told just what is due for the bytes before.
fn try_reads<R: Wait>(rt: &R, alloc: Global, visit: &Visit, printed: &[u8]) -> Result<(), Trouble> {
    let piece = visit.stream.len() / PIECES + 1;
    let mut told = 0_usize;
    for call in 1..=MOST_CALLS {
        let way = Way::Read(call);
        let pieces = vec![in alloc; piece; visit.stream.len()]?;
        let run = run_of(rt, alloc, visit, pieces, &visit.stream, way)?;
        if run.status != READ_FAULT {
            return must_be_last(way, call, visit, printed, &run);
        }
        must_print_nothing(way, &run)?;
        told = must_tell_more(way, &visit.told, told, &run)?;
    }
    otherwise(Way::Read(MOST_CALLS), Found::NoFault)
}

/// Views the stream with one write to the host failing after the other: nothing is printed, and the host was told what was due before.
fn try_writes<R: Wait>(
    rt: &R,
    alloc: Global,
    visit: &Visit,
    printed: &[u8],
) -> Result<(), Trouble> {
    let piece = visit.stream.len() / PIECES + 1;
    let mut told = 0_usize;
    for call in 1..=MOST_CALLS {
        let way = Way::Write(call);
        let pieces = vec![in alloc; piece; visit.stream.len()]?;
        let run = run_of(rt, alloc, visit, pieces, &visit.stream, way)?;
        if run.status != WRITE_FAULT {
            return must_be_last(way, call, visit, printed, &run);
        }
        must_print_nothing(way, &run)?;
        told = must_tell_more(way, &visit.told, told, &run)?;
    }
    otherwise(Way::Write(MOST_CALLS), Found::NoFault)
}

/// Views the stream with one write of the output failing after the other: a front of the text was printed, and the host told everything.
fn try_prints<R: Wait>(
    rt: &R,
    alloc: Global,
    visit: &Visit,
    printed: &[u8],
) -> Result<(), Trouble> {
    for call in 1..=MOST_CALLS {
        let way = Way::Print(call);
        let pieces = Vec::new(alloc);
        let run = run_of(rt, alloc, visit, pieces, &visit.stream, way)?;
        must_tell(way, &visit.told, &run)?;
        if run.status != WRITE_FAULT {
            return must_be_last(way, call, visit, printed, &run);
        }
        must_be_front(way, printed, &run.printed)?;
    }
    otherwise(Way::Print(MOST_CALLS), Found::NoFault)
}

/// Views a host that can't be dialled: nothing is printed, and no link came back.
fn try_dial<R: Wait>(rt: &R, alloc: Global, visit: &Visit) -> Result<(), Trouble> {
    let pieces = Vec::new(alloc);
    let run = run_of(rt, alloc, visit, pieces, &visit.stream, Way::Dial)?;
    must_print_nothing(Way::Dial, &run)?;
    if run.status == PORT_FAULT && run.told.is_none() {
        Ok(())
    } else {
        otherwise(Way::Dial, Found::Number(run.status.into()))
    }
}

/// A run of the viewer over a link with these bytes, in this way.
fn run_of<R: Wait>(
    rt: &R,
    alloc: Global,
    visit: &Visit,
    pieces: Vec<usize>,
    stream: &[u8],
    way: Way,
) -> Result<Run, Trouble> {
    let link = MemLink {
        reader: PlanSource::new(
            Vec::from_slice(alloc, stream)?,
            pieces,
            reads_of(alloc, way)?,
        ),
        writer: PlanSink::new(alloc, writes_of(alloc, way)?),
    };
    let Ok(mut dial) = MemDial::new(alloc, link, dials_of(alloc, way)?) else {
        return Err(Trouble::OutOfMemory);
    };
    let mut output = PlanSink::new(alloc, prints_of(alloc, way)?);
    let status = view_top(rt, alloc, &visit.words, &mut dial, &mut output);
    Ok(Run {
        status,
        printed: Vec::from_slice(alloc, output.bytes())?,
        told: told_of(alloc, &dial)?,
    })
}

/// The read of the link that fails.
fn reads_of(alloc: Global, way: Way) -> Result<Vec<u32>, Trouble> {
    match way {
        Way::Read(call) => Ok(vec![in alloc; call; 1]?),
        _ => Ok(Vec::new(alloc)),
    }
}

/// The write of the link that fails.
fn writes_of(alloc: Global, way: Way) -> Result<Vec<u32>, Trouble> {
    match way {
        Way::Write(call) => Ok(vec![in alloc; call; 1]?),
        _ => Ok(Vec::new(alloc)),
    }
}

/// The write of the output that fails.
fn prints_of(alloc: Global, way: Way) -> Result<Vec<u32>, Trouble> {
    match way {
        Way::Print(call) => Ok(vec![in alloc; call; 1]?),
        _ => Ok(Vec::new(alloc)),
    }
}

/// The call that nobody takes.
fn dials_of(alloc: Global, way: Way) -> Result<Vec<u32>, Trouble> {
    match way {
        Way::Dial => Ok(vec![in alloc; 1; 1]?),
        _ => Ok(Vec::new(alloc)),
    }
}

/// What the host was told by the one link that came back.
fn told_of(alloc: Global, dial: &MemDial) -> Result<Option<Vec<u8>>, Trouble> {
    match dial.finished() {
        [link] => Ok(Some(Vec::from_slice(alloc, link.writer.bytes())?)),
        _ => Ok(None),
    }
}

/// The first run in which a call doesn't fail must come to what the row says, and not be the first of all.
fn must_be_last(
    way: Way,
    call: u32,
    visit: &Visit,
    printed: &[u8],
    run: &Run,
) -> Result<(), Trouble> {
    if call == 1 {
        return otherwise(way, Found::NoFault);
    }
    must_be_same(way, visit, printed, run)
}

/// A run must come to what the row says, and print what was printed before.
fn must_be_same(way: Way, visit: &Visit, printed: &[u8], run: &Run) -> Result<(), Trouble> {
    must_have_status(way, visit.status, run)?;
    match first_difference(&run.printed, printed) {
        Some(at) => otherwise(way, Found::Byte(at)),
        None => must_tell(way, &visit.told, run),
    }
}

/// A run must have its status, and print what the row says.
fn must_print(way: Way, visit: &Visit, run: &Run) -> Result<(), Trouble> {
    must_have_status(way, visit.status, run)?;
    match differs(&visit.printed, &run.printed) {
        Some(at) => otherwise(way, Found::Byte(at)),
        None => Ok(()),
    }
}

/// A run must have this status.
fn must_have_status(way: Way, status: u8, run: &Run) -> Result<(), Trouble> {
    if run.status == status {
        Ok(())
    } else {
        otherwise(way, Found::Number(run.status.into()))
    }
}

/// A run must print nothing.
fn must_print_nothing(way: Way, run: &Run) -> Result<(), Trouble> {
    if run.printed.is_empty() {
        Ok(())
    } else {
        otherwise(way, Found::Byte(0))
    }
}

/// The host must have been told just this.
fn must_tell(way: Way, told: &[u8], run: &Run) -> Result<(), Trouble> {
    let Some(found) = &run.told else {
        return otherwise(way, Found::Number(0));
    };
    match first_difference(found, told) {
        Some(at) => otherwise(way, Found::Byte(at)),
        None => Ok(()),
    }
}

/// The host must have been told a front of this, of so many bytes at least; how many it was told.
fn must_tell_more(way: Way, told: &[u8], least: usize, run: &Run) -> Result<usize, Trouble> {
    let Some(found) = &run.told else {
        return otherwise(way, Found::Number(0));
    };
    must_be_front(way, told, found)?;
    if least <= found.len() {
        Ok(found.len())
    } else {
        otherwise(way, Found::Byte(found.len()))
    }
}
