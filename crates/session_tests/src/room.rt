//! A session of two viewers, and what is asked of it.
ghost use Rattle.session_core.specs.Heads.{rows_of};
ghost use Rattle.session_core.specs.SessionModel.{AreInvited};

use info_lic::Name;
use input_pdu::Event;
use px_core::Size;
use session_core::{Invite, JoinFault, OutOfMemory, Role, Session};
use std::alloc::Global;
use std::process::Abort;

const SIZE: Size = Size { w: 64, h: 48 };

/// The first button of the mouse, pressed at (20, 20).
pub const CLICK: Event = Event::Mouse {
    flags: 0x9000,
    x: 20,
    y: 20,
};

/// An owner, a viewer who may hold control, and one who may only view.
fn three_rows() -> [Invite; 3]
    ensures { AreInvited (rows_of result) }
{
    [
        Invite {
            name: Name::new(b"ann"),
            role: Role::Owner,
        },
        Invite {
            name: Name::new(b"ben"),
            role: Role::Control,
        },
        Invite {
            name: Name::new(b"eve"),
            role: Role::View,
        },
    ]
}

/// A session that ann has joined as viewer 1, and ben as viewer 2. Ann holds control.
pub fn with_two(rt: &impl Abort, alloc: Global) -> Result<Session, OutOfMemory> {
    let mut session = Session::new(alloc, SIZE, &three_rows())?;
    must_join(rt, &mut session, &Name::new(b"ann"), 1);
    must_join(rt, &mut session, &Name::new(b"ben"), 2);
    Ok(session)
}

fn join(session: &mut Session, name: &Name) -> Result<u32, JoinFault> {
    session.join(name)
}

/// Someone joins as viewer v.
fn must_join(rt: &impl Abort, session: &mut Session, name: &Name, v: u32) {
    assert!(rt; join(session, name) == Ok(v));
}

/// So many entries are in the journal.
pub fn must_count(rt: &impl Abort, session: &Session, entries: u64) {
    assert_eq!(rt; session.length(), entries);
}

/// The pixel at (x, y) has this colour.
pub fn must_show(rt: &impl Abort, session: &Session, x: u32, y: u32, color: u32) {
    assert_eq!(rt; pixel(rt, session, x, y), color);
}

/// The colour of a pixel as the whole journal leaves it.
fn pixel(rt: &impl Abort, session: &Session, x: u32, y: u32) -> u32 {
    let surface = session.look();
    let size = surface.size();
    assert!(rt; x < size.w && y < size.h);
    surface.pixel(x, y)
}
