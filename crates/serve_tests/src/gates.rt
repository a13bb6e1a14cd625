//! Links that are served beside each other, each by two sides.

use crate::checks::{
    PORT, must_be_pressed, must_count, must_have_left, new_session, owner, viewer,
};
use crate::client::{Data, PRESS, REFRESH_ALL, STOP_OUTPUT, hello, packets, ready, whole};
use crate::cue_gate::{CueGate, CueLink};
use crate::cues::{Cue, Marks, Nth, Part};
use edge_io::{Bytes, OutOfMemory};
use gate_run::{Served, serve_gate};
use std::alloc::Global;
use std::sync::{Arc, Wait};
use std::test::Fail;
use std::thread::Threads;

/// How many looks a client takes before it leaves that is to be shown nothing any more.
const A_WHILE: u32 = 100_000;

/// Bytes that come with a cue.
fn part(alloc: Global, cue: Cue, bytes: Vec<u8>) -> Part {
    Part {
        cue,
        bytes: Bytes::new(bytes, Vec::new(alloc)),
    }
}

/// Packets that come with a cue.
fn data(alloc: Global, cue: Cue, list: &[Data]) -> Result<Part, OutOfMemory> {
    Ok(part(alloc, cue, packets(alloc, list)?))
}

/// The end of a stream, which comes with a cue.
fn end(alloc: Global, cue: Cue) -> Part {
    part(alloc, cue, Vec::new(alloc))
}

/// A gate with these links, which was served.
fn served<R: Threads + Wait + Sync>(
    rt: &R,
    alloc: Global,
    links: Vec<CueLink>,
) -> Result<Served, OutOfMemory> {
    let mut gate = CueGate::new(alloc, links)?;
    serve_gate(rt, alloc, new_session(alloc)?, PORT, 2, &mut gate)
}

/// The first client is ready only once the second one was shown a picture.
#[test]
fn a_link_is_served_while_another_one_waits(rt: HostRuntime) -> Result<(), Fail> {
    let alloc = rt.alloc();
    let marks = Arc::new(alloc, Marks::new())?;
    let shown = Cue::Marks(Nth::Second, 1);
    let first = [
        part(alloc, Cue::Nothing, hello(alloc, &owner())?),
        part(alloc, shown, ready(alloc, &owner())?),
    ];
    let second = [part(alloc, Cue::Nothing, whole(alloc, &viewer())?)];
    let links = [
        CueLink::new(alloc, &marks, Nth::First, Vec::from_array(alloc, first)?)?,
        CueLink::new(alloc, &marks, Nth::Second, Vec::from_array(alloc, second)?)?,
    ];
    let served = served(&rt, alloc, Vec::from_array(alloc, links)?)?;
    must_have_left(&rt, &served, 2);
    Ok(())
}

/// The owner presses the mouse only once the other one was shown a picture, and both leave only once that one was shown the next.
#[test]
fn what_one_draws_is_shown_to_another_who_stays(rt: HostRuntime) -> Result<(), Fail> {
    let alloc = rt.alloc();
    let marks = Arc::new(alloc, Marks::new())?;
    let shown = Cue::Marks(Nth::Second, 1);
    let shown_more = Cue::Marks(Nth::Second, 2);
    let first = [
        part(alloc, Cue::Nothing, whole(alloc, &owner())?),
        data(alloc, shown, &[PRESS])?,
        end(alloc, shown_more),
    ];
    let second = [
        part(alloc, Cue::Nothing, whole(alloc, &viewer())?),
        end(alloc, shown_more),
    ];
    let links = [
        CueLink::new(alloc, &marks, Nth::First, Vec::from_array(alloc, first)?)?,
        CueLink::new(alloc, &marks, Nth::Second, Vec::from_array(alloc, second)?)?,
    ];
    let served = served(&rt, alloc, Vec::from_array(alloc, links)?)?;
    must_have_left(&rt, &served, 2);
    must_be_pressed(&rt, &served);
    Ok(())
}

/// A client asks for its whole picture again, is shown it, and then wants no more, not even what it draws.
#[test]
fn a_client_is_shown_what_it_asks_for_and_nothing_once_it_wants_nothing(
    rt: HostRuntime,
) -> Result<(), Fail> {
    let alloc = rt.alloc();
    let marks = Arc::new(alloc, Marks::new())?;
    let only = [
        part(alloc, Cue::Nothing, whole(alloc, &owner())?),
        data(alloc, Cue::Marks(Nth::First, 1), &[REFRESH_ALL])?,
        data(alloc, Cue::Marks(Nth::First, 2), &[STOP_OUTPUT, PRESS])?,
        end(alloc, Cue::Looks(A_WHILE)),
    ];
    let links = [CueLink::new(alloc, &marks, Nth::First, Vec::from_array(alloc, only)?)?];
    let served = served(&rt, alloc, Vec::from_array(alloc, links)?)?;
    must_have_left(&rt, &served, 1);
    must_be_pressed(&rt, &served);
    must_count(&rt, marks.count(Nth::First), 2);
    Ok(())
}
