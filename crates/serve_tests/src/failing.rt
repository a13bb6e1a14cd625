//! A link of which one read after the other fails, and one write after the other, until a run has no fault.
//!
//! Its client goes through the connection sequence and presses the mouse once, so what it is sent doesn't depend on when its two sides run:
//! the answer, a frame of a board with nothing on it, and one with the dot.

use crate::checks::{
    SIZE, WHITE, X, Y, must_be_front, must_be_reported, must_be_written, must_count, owner,
};
use crate::client::{ANSWER, PRESS, packets, whole};
use crate::planned::{served, written};
use crate::sockets::{BLACK, pixel};
use caps_sets::preset;
use client_view::Client;
use edge_io::{MemLink, OutOfMemory, PlanGate, PlanSink, PlanSource};
use gate_run::Served;
use serve_rules::ConnEnd;
use std::alloc::Global;
use std::process::Abort;
use std::sync::Wait;
use std::test::Fail;
use std::thread::Threads;

/// In pieces of so many bytes the client's stream comes.
const PIECE: usize = 64;

/// More calls than a run makes.
const MOST_CALLS: u32 = 100;

/// How many frames the client is sent.
const FRAMES: u64 = 2;

/// A gate with the link of which these reads and these writes fail, which was served.
fn served_with<R: Threads + Wait + Sync>(
    rt: &R,
    alloc: Global,
    reads: &[u32],
    writes: &[u32],
) -> Result<(Served, PlanGate), OutOfMemory> {
    let mut bytes = whole(alloc, &owner())?;
    bytes.extend_from_slice(&packets(alloc, &[PRESS])?)?;
    let pieces = vec![in alloc; PIECE; bytes.len()]?;
    let link = MemLink {
        reader: PlanSource::new(bytes, pieces, Vec::from_slice(alloc, reads)?),
        writer: PlanSink::new(alloc, Vec::from_slice(alloc, writes)?),
    };
    served(rt, alloc, Vec::from_array(alloc, [link])?)
}

/// How the only link's connection ended.
fn end(served: &Served) -> Option<ConnEnd> {
    Some(served.reports.first()?.end)
}

/// What its client is shown by what was written to it: how many marks, and the colour at the last one where the mouse was pressed. None where it
/// refuses the bytes.
fn shown(alloc: Global, bytes: &[u8]) -> Option<(u64, Option<u32>)> {
    let mut client = Client::new(alloc, preset(b"plain")?, SIZE).ok()?;
    client.feed(bytes.get(ANSWER..).unwrap_or(&[])).ok()?;
    Some((client.marks(), pixel(&client, X, Y)))
}

/// What a client is shown at the first marks of a run.
fn first_shown(marks: u64) -> Option<(u64, Option<u32>)> {
    match marks {
        0 => Some((0, None)),
        1 => Some((1, Some(BLACK))),
        FRAMES => Some((FRAMES, Some(WHITE))),
        _ => None,
    }
}

/// A client reads this without a refusal, and its marks show the pictures of a run without a fault, as far as they go; how many there are.
fn must_show_first(rt: &impl Abort, alloc: Global, bytes: &[u8]) -> u64 {
    let found = shown(alloc, bytes);
    assert!(rt; found.is_some());
    let marks = found.map_or(0, |(marks, _)| marks);
    assert_eq!(rt; found, first_shown(marks));
    marks
}

/// A run without a fault: what was written, all frames of it.
fn unfailing<R: Abort + Threads + Wait + Sync>(
    rt: &R,
    alloc: Global,
) -> Result<Vec<u8>, OutOfMemory> {
    let (served, gate) = served_with(rt, alloc, &[], &[])?;
    must_be_reported(rt, &served, 0, 1, ConnEnd::Left);
    let told = Vec::from_slice(alloc, written(&gate, 0))?;
    must_count(rt, must_show_first(rt, alloc, &told), FRAMES);
    Ok(told)
}

/// Whose link it was: the first viewer's where its connection sequence was answered, else nobody's.
fn viewer_by(answered: bool) -> u32 {
    u32::from(answered)
}

/// The bytes that were read before the failing read are answered, and no others.
#[test]
fn each_read_that_fails_ends_the_link_and_leaves_whole_frames(rt: HostRuntime) -> Result<(), Fail> {
    let alloc = rt.alloc();
    let told = unfailing(&rt, alloc)?;
    let ready = whole(alloc, &owner())?.len();
    let mut handed = 0_usize;
    for call in 1..=MOST_CALLS {
        let (served, gate) = served_with(&rt, alloc, &[call], &[])?;
        if end(&served) == Some(ConnEnd::Left) {
            must_be_written(&rt, written(&gate, 0), &told);
            assert!(rt; handed > ready);
            return Ok(());
        }
        must_be_reported(
            &rt,
            &served,
            0,
            viewer_by(handed >= ready),
            ConnEnd::ReadFault,
        );
        must_be_front(&rt, written(&gate, 0), &told);
        must_show_first(&rt, alloc, written(&gate, 0));
        handed = handed.saturating_add(PIECE);
    }
    Err("there is always a read that fails".into())
}

/// What was written before the failing write stands there, and nothing else.
#[test]
fn each_write_that_fails_ends_the_link_and_leaves_whole_frames(
    rt: HostRuntime,
) -> Result<(), Fail> {
    let alloc = rt.alloc();
    let told = unfailing(&rt, alloc)?;
    let mut marks = 0_u64;
    for call in 1..=MOST_CALLS {
        let (served, gate) = served_with(&rt, alloc, &[], &[call])?;
        if end(&served) == Some(ConnEnd::Left) {
            must_be_written(&rt, written(&gate, 0), &told);
            must_count(&rt, marks, FRAMES - 1);
            return Ok(());
        }
        let answered = written(&gate, 0).len() >= ANSWER;
        must_be_reported(&rt, &served, 0, viewer_by(answered), ConnEnd::WriteFault);
        must_be_front(&rt, written(&gate, 0), &told);
        marks = must_show_first(&rt, alloc, written(&gate, 0));
    }
    Err("there is always a write that fails".into())
}
