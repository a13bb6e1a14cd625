//! The send side of a viewer: frames are taken, each in a turn of its own, and encoded and written outside it. The pointer that goes before a frame
//! is that of the take's turn.
ghost use Rattle.std.specs.Prelude.{◌≡◌, ◌≤◌, length, IsTrue, Ok, IfOk, OnOk, OnErr};
ghost use Rattle.edge_io.specs.FrameSink.{MayShow};
ghost use Rattle.edge_io.specs.Outside.{output_of};
ghost use Rattle.session_core.specs.SessionModel.{is_here, asked_by, is_suppressed};
ghost use Rattle.frame_plan.specs.Plans.{taken_if, asked_if};
ghost use Rattle.frame_plan.specs.declared.taken.Taken.TheVariants.{Nothing};
ghost use Rattle.viewer_sender.specs.Senders.{IsIdle, desk_of};
ghost use Rattle.viewer_sender.specs.OwnTakes.{IsOwnTake};
ghost use Rattle.grow_lock.specs.Passes.{IsPassOf};
ghost use Rattle.viewer_run.specs.Asking.{finds, allowed_as, suppressed_as};
ghost use Rattle.viewer_run.specs.declared.sends.Due.TheVariants.{Next, Last};
ghost use Rattle.viewer_run.specs.Visiting.{IsUpToDate};
ghost use Rattle.viewer_run.specs.Sending.{TakesAs, TakesIn, IsAbsent, IsNext, SendsTaken, SendsFrame, WritesFrame, SendsOn};

use crate::reading::{NO_MEMORY, is_done};
use crate::{ConnEnd, OutOfMemory, SideEnd, Stay};
use edge_io::{FrameSink, Sink, Wrote};
use grow_lock::{GrowLock, Pass};
use session_core::Session;
use std::alloc::Global;
use std::sync::Wait;
use std::sync::atomic::{AtomicBool, Ordering};
use viewer_sender::{Seat, Take, Taken};

/// Which frame of a viewer is to be taken.
#[derive(Clone, Copy, Debug, PartialEq, Eq)]
pub enum Due {
    /// The next one.
    Next,
    /// Its last one, for which output is allowed again.
    Last,
}

/// The send side of a viewer. It sends what is new, and sleeps where nothing else is, until memory or the output fails, a frame can't be kept, or it finds
/// the flag set.
pub fn send_side<R: Wait, K: FrameSink>(
    rt: &R,
    alloc: Global,
    lock: &GrowLock<Session>,
    pass: Pass<Session>,
    v: u32,
    seat: &mut Seat,
    output: &mut K,
    flag: &AtomicBool,
) -> (Pass<Session>, SideEnd)
    requires lock { IsPassOf lock.now pass }
    requires viewer { seat.old.sender.v ≡ v }
    requires idle { IsIdle seat.old.sender }
    requires seen { seat.old.sender.number ≤ length pass.seen }
    ensures lock { IsPassOf lock.now result.0 }
    ensures mine { result.0.mine ≡ pass.mine }
    ensures share { result.0.share ≡ pass.share }
    ensures sends { SendsOn lock.now.head seat.old.sender seat.new.sender seat.old.desk seat.new.desk pass result.0 (output_of K.Sink output.old)
        (output_of K.Sink output.new) result.1 }
{
    let stay = Stay { rt, alloc, lock, v };
    let mut now = pass;
    for _ in rt.forever() {
        let rings = lock.rings();
        if flag.load(Ordering::SeqCst) {
            return (now, SideEnd::Stopped);
        }
        let (next, end) = send_once(&stay, now, rings, seat, output);
        now = next;
        if is_done(end) {
            return (now, end);
        }
    }
    unreachable!()
}

/// One round of a send side: a take in a turn, and its frame. Then it sleeps until there was more news than this, of which the take may
/// have found some. `Stopped` says that no fault came.
fn send_once<R: Wait, K: FrameSink>(
    stay: &Stay<'_, R>,
    pass: Pass<Session>,
    rings: u64,
    seat: &mut Seat,
    output: &mut K,
) -> (Pass<Session>, SideEnd)
    requires lock { IsPassOf stay.now.lock.now pass }
    requires viewer { seat.old.sender.v ≡ stay.now.v }
    requires idle { IsIdle seat.old.sender }
    requires seen { seat.old.sender.number ≤ length pass.seen }
    ensures lock { IsPassOf stay.now.lock.now result.0 }
    ensures mine { result.0.mine ≡ pass.mine }
    ensures share { result.0.share ≡ pass.share }
    ensures sends { SendsOn stay.now.lock.now.head seat.old.sender seat.new.sender seat.old.desk seat.new.desk pass result.0 (output_of K.Sink output.old)
        (output_of K.Sink output.new) result.1 }
{
    let (pass, taken) = take_once(stay, pass, Due::Next, seat);
    let end = send_taken(stay.alloc, taken, seat, output);
    sleep_unless_done(stay.rt, stay.lock, rings, end);
    (pass, end)
}

/// Sleeps until there was more news than this, unless a side met the connection's end.
fn sleep_unless_done<R: Wait>(rt: &R, lock: &GrowLock<Session>, rings: u64, end: SideEnd) {
    if !is_done(end) {
        lock.sleep(rt, rings);
    }
}

/// Takes in a turn of its own, in which the session's pointer is noted for a frame. While the viewer isn't present it takes nothing.
pub fn take_once<R: Wait>(
    stay: &Stay<'_, R>,
    pass: Pass<Session>,
    due: Due,
    seat: &mut Seat,
) -> (Pass<Session>, Result<Taken, OutOfMemory>)
    requires lock { IsPassOf stay.now.lock.now pass }
    requires viewer { seat.old.sender.v ≡ stay.now.v }
    requires seen { seat.old.sender.number ≤ length pass.seen }
    ensures lock { IsPassOf stay.now.lock.now result.0 }
    ensures taken { TakesIn stay.now.lock.now.head pass result.0 seat.old.sender seat.new.sender seat.old.desk seat.new.desk result.1 }
    ensures whole { due ≡ Last → IsUpToDate stay.now.lock.now.head stay.now.v result.0.seen seat.old.sender.number result.1 }
    ensures absent { IsAbsent stay.now.lock.now.head stay.now.v result.0.seen → result.1 ≡ Ok Nothing }
{
    let mut turn = stay.lock.enter(stay.rt, pass);
    let taken = take_here(stay, turn.value(), due, seat);
    let pass = stay.lock.leave(turn);
    (pass, taken)
}

/// Takes at a session: just the tiles that the viewer has asked for, which are served then, and nothing while output to it is stopped; a viewer who isn't
/// present takes nothing. The session's pointer is noted for a frame.
fn take_here<R>(
    stay: &Stay<'_, R>,
    session: &mut Session,
    due: Due,
    seat: &mut Seat,
) -> Result<Taken, OutOfMemory>
    requires viewer { seat.old.sender.v ≡ stay.now.v }
    requires seen { seat.old.sender.number ≤ length session.old.journal }
    ensures head { session.new.head ≡ session.old.head }
    ensures journal { session.new.journal ≡ session.old.journal }
    ensures taken { TakesAs session.old.head session.old.journal seat.old.sender seat.new.sender seat.old.desk seat.new.desk result }
    ensures work { IfOk result (λ taken. taken ≡ taken_if (finds due session.old seat.old.sender) session.old (desk_of seat.old.sender)) }
    ensures asked { OnOk result (asked_by session.new ≡ asked_if (finds due session.old seat.old.sender) stay.now.v (asked_by session.old)) }
    ensures kept { OnErr result (asked_by session.new ≡ asked_by session.old) }
    ensures suppressed { is_suppressed session.new ≡ suppressed_as due session.old stay.now.v }
    ensures unstopped { due ≡ Next → session.new.suppressed ≡ session.old.suppressed }
    ensures unchanged { due ≡ Next → OnErr result (session.new ≡ session.old) }
    ensures whole { due ≡ Last → IsUpToDate session.old.head stay.now.v session.old.journal seat.old.sender.number result }
    ensures absent { IsAbsent session.old.head stay.now.v session.old.journal → result ≡ Ok Nothing }
{
    if !session.present(stay.v) {
        return Ok(Taken::Nothing);
    }
    allow_for(due, session, stay.v);
    seat.take(stay.alloc, session)
}

/// Allows output to a viewer who is present, where its last frame is due.
fn allow_for(due: Due, session: &mut Session, v: u32)
    requires { IsTrue (is_here session.old v) }
    ensures head { session.new.head ≡ session.old.head }
    ensures journal { session.new.journal ≡ session.old.journal }
    ensures asked { session.new.asked ≡ session.old.asked }
    ensures suppressed { is_suppressed session.new ≡ allowed_as due v (is_suppressed session.old) }
    ensures same { due ≡ Next → session.new ≡ session.old }
{
    match due {
        Due::Next => {}
        Due::Last => session.suppress(v, false),
    }
}

/// Sends what a take found. `Stopped` says that no fault came.
pub fn send_taken<K: FrameSink>(
    alloc: Global,
    taken: Result<Taken, OutOfMemory>,
    seat: &mut Seat,
    output: &mut K,
) -> SideEnd
    requires { IsNext taken seat.old.sender }
    ensures { SendsTaken taken seat.old.sender seat.new.sender seat.old.desk seat.new.desk (output_of K.Sink output.old) (output_of K.Sink output.new) result }
{
    match taken {
        Ok(Taken::Frame(take)) => send_frame(alloc, take, seat, output),
        Ok(Taken::Nothing) => SideEnd::Stopped,
        Err(OutOfMemory) => NO_MEMORY,
    }
}

/// Sends a take's frame behind the packet that tells the pointer noted, where there is one to tell, once the output has what it shows kept.
pub fn send_frame<K: FrameSink>(
    alloc: Global,
    take: Take,
    seat: &mut Seat,
    output: &mut K,
) -> SideEnd
    requires next { take.serial ≡ seat.old.sender.encoded }
    requires own { IsOwnTake seat.old.sender.confirmed take }
    ensures { SendsFrame seat.old.sender seat.new.sender seat.old.desk seat.new.desk take (output_of K.Sink output.old) (output_of K.Sink output.new) result }
{
    match output.keep(seat.number()) {
        Wrote::All => send_kept(alloc, take, seat, output),
        Wrote::Failed => SideEnd::Done {
            end: ConnEnd::NotStored,
        },
        Wrote::OutOfMemory => NO_MEMORY,
    }
}

/// Encodes the frame of a take whose entries are kept, and writes it behind the packet before it.
fn send_kept<K: FrameSink>(alloc: Global, take: Take, seat: &mut Seat, output: &mut K) -> SideEnd
    requires next { take.serial ≡ seat.old.sender.encoded }
    requires own { IsOwnTake seat.old.sender.confirmed take }
    requires kept { MayShow K.FrameSink.keeps (K.FrameSink.kept output.old) seat.old.sender.number }
    ensures { SendsFrame seat.old.sender seat.new.sender seat.old.desk seat.new.desk take (output_of K.Sink output.old) (output_of K.Sink output.new) result }
{
    match seat.encode(alloc, take) {
        Ok(bytes) => write_frame(output, &bytes),
        Err(_) => NO_MEMORY,
    }
}

/// Writes a frame, with the packet before it.
fn write_frame<K: Sink>(output: &mut K, bytes: &[u8]) -> SideEnd
    ensures { WritesFrame bytes.now (output_of K.Sink output.old) (output_of K.Sink output.new) result }
{
    match output.write_all(bytes) {
        Wrote::All => SideEnd::Stopped,
        Wrote::Failed => SideEnd::Done {
            end: ConnEnd::WriteFault,
        },
        Wrote::OutOfMemory => NO_MEMORY,
    }
}
