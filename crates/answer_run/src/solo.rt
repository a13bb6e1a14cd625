//! A session with the seat of its one viewer.

ghost use Rattle.std.specs.Prelude.{◌≡◌, ◌≢◌, [], Err, IsTrue, IfOk, OnOk, OnErr};
ghost use Rattle.px_core.specs.Rectangle.{is_session_size, IsPlaced};
ghost use Rattle.session_rules.specs.Steps.Step.{InputStep, RefreshStep, SuppressStep};
ghost use Rattle.script_rules.specs.Script.{without_preset};
ghost use Rattle.frame_rules.specs.Told.{bytes_told};
ghost use Rattle.viewer_sender.specs.Seats.{bytes_given};
ghost use Rattle.answer_run.specs.Asking.{client, owners_head};
ghost use Rattle.answer_run.specs.Solos.{IsSeated, Does, Takes, Joins, IsSettled, IsLetIn};

use crate::host::Host;
use caps_sets::Confirmed;
use info_lic::Name;
use input_pdu::Event;
use px_core::Rect;
use session_core::{InputRefusal, Invite, JoinFault, Role, Session};
use std::alloc::Global;
use viewer_sender::Seat;
use wire_num::OutOfMemory;

/// The client's number: it is the first that joins.
const CLIENT: u32 = 1;

/// A session with the seat of its one viewer.
#[derive(Drop)]
pub struct Solo {
    pub session: Session,
    pub seat: Seat,
}

/// A client joins a new session, whose one row is the owner's; `None` where that isn't its name.
pub fn join(host: &Host, name: &Name, confirmed: Confirmed) -> Result<Option<Solo>, OutOfMemory>
    requires size { IsTrue (is_session_size host.now.size.w host.now.size.h) }
    requires owner { host.now.owner ≢ [] }
    ensures { IfOk result (Joins (owners_head host.now.size host.now.owner) name.now confirmed) }
{
    let rows = [Invite {
        name: host.owner,
        role: Role::Owner,
    }];
    let mut session = Session::new(host.alloc, host.size, &rows)?;
    match let_in(session.join(name))? {
        Some(v) => {
            let seat = Seat::new(host.alloc, v, confirmed)?;
            Ok(Some(Solo { session, seat }))
        }
        None => Ok(None),
    }
}

/// The number of a viewer that joined; `None` where it isn't let in. Only want of memory is want of memory.
fn let_in(joined: Result<u32, JoinFault>) -> Result<Option<u32>, OutOfMemory>
    ensures number { IfOk result (IsLetIn joined) }
    ensures memory { OnErr result (joined ≡ Err JoinFault.OutOfMemory) }
{
    match joined {
        Ok(v) => Ok(Some(v)),
        Err(JoinFault::NotInvited) | Err(JoinFault::RoomFull) | Err(JoinFault::JoinsSpent) => {
            Ok(None)
        }
        Err(JoinFault::OutOfMemory) => Err(OutOfMemory),
    }
}

/// An input event; one that is refused does nothing.
pub fn input(solo: &mut Solo, event: Event) -> Result<(), OutOfMemory>
    requires { IsSeated solo.old }
    ensures seated { OnOk result (IsSeated solo.new) }
    ensures done { OnOk result (Does (without_preset (InputStep client event)) solo.old solo.new) }
{
    settle(solo.session.input(CLIENT, event))?;
    Ok(())
}

/// An event that is refused is passed over, as if it were done. Only want of memory is want of memory.
fn settle(done: Result<(), InputRefusal>) -> Result<(), OutOfMemory>
    ensures settled { OnOk result (IsSettled done) }
    ensures memory { OnErr result (done ≡ Err InputRefusal.OutOfMemory) }
{
    match done {
        Ok(()) | Err(InputRefusal::NotHolder { .. }) | Err(InputRefusal::JournalFull) => Ok(()),
        Err(InputRefusal::OutOfMemory) => Err(OutOfMemory),
    }
}

/// An area that is to be sent again.
pub fn refresh(solo: &mut Solo, area: Rect)
    requires seated { IsSeated solo.old }
    requires placed { IsPlaced area }
    ensures seated { IsSeated solo.new }
    ensures done { Does (without_preset (RefreshStep client area)) solo.old solo.new }
{
    solo.session.refresh(CLIENT, area);
}

/// Whether output stops.
pub fn suppress(solo: &mut Solo, stop: bool)
    requires { IsSeated solo.old }
    ensures seated { IsSeated solo.new }
    ensures done { Does (without_preset (SuppressStep client stop)) solo.old solo.new }
{
    solo.session.suppress(CLIENT, stop);
}

/// The bytes of the frame that is due, which are none where there is no work, behind the packet that tells the pointer after the take, if
/// one is due.
pub fn take(alloc: Global, solo: &mut Solo) -> Result<Vec<u8>, OutOfMemory>
    requires { IsSeated solo.old }
    ensures seated { OnOk result (IsSeated solo.new) }
    ensures taken { IfOk result (λ bytes. Takes bytes.items solo.old solo.new) }
{
    let sent = solo.seat.next_frame(alloc, &mut solo.session)?;
    Ok(all_given(alloc, sent))
}

/// The bytes of a frame; none where there is no frame.
fn all_given(alloc: Global, sent: Option<Vec<u8>>) -> Vec<u8>
    ensures { result.items ≡ bytes_told (bytes_given sent) }
{
    match sent {
        Some(bytes) => bytes,
        None => Vec::new(alloc),
    }
}
