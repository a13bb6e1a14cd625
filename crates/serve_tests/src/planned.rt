//! Links that hold a client's bytes, some of which fail as planned.

use crate::checks::{
    PORT, must_be_reported, must_be_written, must_count, must_have_left, new_session, owner,
    stranger,
};
use crate::client::{ANSWER, whole};
use edge_io::{MemLink, OutOfMemory, PlanGate, PlanSink, PlanSource};
use gate_run::{Served, serve_gate};
use info_lic::Name;
use serve_rules::ConnEnd;
use std::alloc::Global;
use std::sync::Wait;
use std::test::Fail;
use std::thread::Threads;

/// Disconnect Provider Ultimatum to a client that is refused.
const ULTIMATUM: [u8; 9] = [0x03, 0x00, 0x00, 0x09, 0x02, 0xF0, 0x80, 0x20, 0x80];

/// A link with the stream of a client of this name, whose writer fails in these calls.
fn link(alloc: Global, name: &Name, fails: &[u32]) -> Result<MemLink, OutOfMemory> {
    let bytes = whole(alloc, name)?;
    Ok(MemLink {
        reader: PlanSource::new(bytes, Vec::new(alloc), Vec::new(alloc)),
        writer: PlanSink::new(alloc, Vec::from_slice(alloc, fails)?),
    })
}

/// What serving a gate of links comes to, and the gate.
pub fn served<R: Threads + Wait + Sync>(
    rt: &R,
    alloc: Global,
    links: Vec<MemLink>,
) -> Result<(Served, PlanGate), OutOfMemory> {
    let mut gate = PlanGate::new(alloc, links, Vec::new(alloc))?;
    let served = serve_gate(rt, alloc, new_session(alloc)?, PORT, 2, &mut gate)?;
    Ok((served, gate))
}

/// What was written to a link that came back.
pub fn written(gate: &PlanGate, link: usize) -> &[u8] {
    match gate.finished().get(link) {
        Some(link) => link.writer.bytes(),
        None => &[],
    }
}

/// The same from a place on.
fn written_from(gate: &PlanGate, link: usize, place: usize) -> &[u8] {
    written(gate, link).get(place..).unwrap_or(&[])
}

#[test]
fn a_client_that_sends_no_more_has_left(rt: HostRuntime) -> Result<(), Fail> {
    let alloc = rt.alloc();
    let links = Vec::from_array(alloc, [link(alloc, &owner(), &[])?])?;
    let (served, _gate) = served(&rt, alloc, links)?;
    must_have_left(&rt, &served, 1);
    must_be_reported(&rt, &served, 0, 1, ConnEnd::Left);
    Ok(())
}

/// The first write is the answer to the connection sequence, and the second one the first frame.
#[test]
fn a_write_that_fails_ends_its_connection(rt: HostRuntime) -> Result<(), Fail> {
    let alloc = rt.alloc();
    let links = [link(alloc, &owner(), &[1])?, link(alloc, &owner(), &[2])?];
    let (served, gate) = served(&rt, alloc, Vec::from_array(alloc, links)?)?;
    must_count(&rt, served.reports.len() as u64, 2);
    must_be_reported(&rt, &served, 0, 0, ConnEnd::WriteFault);
    must_be_reported(&rt, &served, 1, 1, ConnEnd::WriteFault);
    must_be_written(&rt, written(&gate, 0), &[]);
    must_count(&rt, written(&gate, 1).len() as u64, ANSWER as u64);
    Ok(())
}

#[test]
fn a_client_whose_name_has_no_row_is_told_to_go(rt: HostRuntime) -> Result<(), Fail> {
    let alloc = rt.alloc();
    let links = [link(alloc, &owner(), &[])?, link(alloc, &stranger(), &[])?];
    let (served, gate) = served(&rt, alloc, Vec::from_array(alloc, links)?)?;
    must_count(&rt, served.reports.len() as u64, 2);
    must_be_reported(&rt, &served, 0, 1, ConnEnd::Left);
    must_be_reported(&rt, &served, 1, 0, ConnEnd::NotInvited);
    must_be_written(&rt, written_from(&gate, 1, ANSWER), &ULTIMATUM);
    Ok(())
}
