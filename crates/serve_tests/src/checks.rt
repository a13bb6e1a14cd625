//! A session to be served, and what serving comes to.
ghost use Rattle.session_core.specs.Heads.{rows_of};
ghost use Rattle.session_core.specs.SessionModel.{AreInvited};

use gate_run::{GateEnd, Served};
use info_lic::Name;
use px_core::Size;
use serve_rules::ConnEnd;
use session_core::{Invite, OutOfMemory, Role, Session};
use std::alloc::Global;
use std::process::Abort;

/// The picture of the session.
pub const SIZE: Size = Size { w: 64, h: 48 };

/// The names of the two who are invited,
pub fn owner() -> Name {
    Name::new(b"ann")
}

pub fn viewer() -> Name {
    Name::new(b"ben")
}

/// and that of somebody else.
pub fn stranger() -> Name {
    Name::new(b"eve")
}

/// The port that a gate in memory is asked for.
pub const PORT: u16 = 3389;

/// An owner, and one who may only view.
fn two_rows() -> [Invite; 2]
    ensures { AreInvited (rows_of result) }
{
    [
        Invite {
            name: Name::new(b"ann"),
            role: Role::Owner,
        },
        Invite {
            name: Name::new(b"ben"),
            role: Role::View,
        },
    ]
}

/// A session that nobody has joined.
pub fn new_session(alloc: Global) -> Result<Session, OutOfMemory> {
    Session::new(alloc, SIZE, &two_rows())
}

/// A gate ended after so many links, each of whose clients left.
pub fn must_have_left(rt: &impl Abort, served: &Served, links: usize) {
    assert_eq!(rt; served.end, GateEnd::Ended);
    assert_eq!(rt; served.reports.len(), links);
    for report in &served.reports {
        assert_eq!(rt; report.end, ConnEnd::Left);
    }
}

/// A link's client was this viewer, or 0 where it was none, and its connection ended so.
pub fn must_be_reported(rt: &impl Abort, served: &Served, link: usize, viewer: u32, end: ConnEnd) {
    match served.reports.get(link) {
        Some(report) => assert!(rt; report.viewer == viewer && report.end == end),
        None => panic!(rt; "no report"),
    }
}

/// Where a client presses the mouse, in pixels, and the ink of the board.
pub const X: u32 = 20;

pub const Y: u32 = 20;

pub const WHITE: u32 = 0xFFFFFF;

/// The closing session shows that the mouse was pressed.
pub fn must_be_pressed(rt: &impl Abort, served: &Served) {
    let surface = served.session.look();
    let size = surface.size();
    assert!(rt; X < size.w && Y < size.h);
    assert_eq!(rt; surface.pixel(X, Y), WHITE);
}

/// So much was counted.
pub fn must_count(rt: &impl Abort, found: u64, expected: u64) {
    assert_eq!(rt; found, expected);
}

/// These bytes were written.
pub fn must_be_written(rt: &impl Abort, found: &[u8], expected: &[u8]) {
    assert_eq!(rt; *found, *expected);
}

/// These bytes are a front of what is written where nothing fails.
pub fn must_be_front(rt: &impl Abort, found: &[u8], whole: &[u8]) {
    assert!(rt; whole.starts_with(found));
}
