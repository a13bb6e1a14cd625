//! A viewer who has joined is attended to, until its connection ends.
ghost use Rattle.std.specs.Prelude.{◌≡◌, ◌≤◌, ◌<◌, [], false, length, Ok};
ghost use Rattle.edge_io.specs.Outside.{input_of, output_of, outside_of};
ghost use Rattle.conn_rules.specs.Placed.{AreBytes, ArePlaced};
ghost use Rattle.viewer_sender.specs.Senders.{IsIdle};
ghost use Rattle.grow_lock.specs.Passes.{IsPassOf};
ghost use Rattle.serve_rules.specs.Reading.{ReadsOn};
ghost use Rattle.serve_rules.specs.declared.ends.SideEnd.TheVariants.{Done, Stopped};
ghost use Rattle.viewer_run.specs.Sending.{SendsOn};
ghost use Rattle.viewer_run.specs.Visiting.{IsFirst, IsShownAll};
ghost use Rattle.viewer_run.specs.Serving.{SidesServe, Attends, IsShownLast, ended_by, wants_last, end_of_last};
ghost use Rattle.serve_rules.specs.Notices.{notice_in};
ghost use Rattle.serve_rules.specs.Turns.{FoundAll};

use crate::frames::send_first;
use crate::visits::FirstFrame;
use crate::{
    ConnEnd, Due, Ends, Halves, Noted, SideEnd, Stay, read_side, run_sides, send_taken, take_once,
};
use edge_io::{FrameSink, Source};
use grow_lock::Pass;
use session_core::Session;
use std::sync::Wait;
use std::thread::Threads;
use viewer_sender::Seat;

/// Sends a viewer's first frame, and then runs both its sides until the connection ends.
pub fn attend<R: Threads + Wait + Sync, S: Source + Send, K: FrameSink + Send>(
    stay: &Stay<'_, R>,
    pass: Pass<Session>,
    ends: &mut Ends<'_>,
    first: FirstFrame,
    halves: &mut Halves<'_, S, K>,
) -> (Pass<Session>, Seat, ConnEnd)
    requires lock { IsPassOf stay.now.lock.now pass }
    requires part { AreBytes ends.old.conn.hearing.part }
    requires placed { ArePlaced ends.old.rest.now }
    requires room { 0 < ends.old.noted.places.room }
    requires first { IsFirst stay.now.lock.now.head pass.seen stay.now.v first.seat.sender.confirmed (Ok first) }
    ensures lock { IsPassOf stay.now.lock.now result.0 }
    ensures attends { Attends stay.now.lock.now.head stay.now.v first.seat.sender.confirmed ends.old.rest.now ends.old.conn.hearing result.1.sender
        result.1.desk pass result.0 ends.old.noted ends.new.noted (outside_of S.Source K.Sink halves.old.input.now halves.old.output.now)
        (outside_of S.Source K.Sink halves.new.input.now halves.new.output.now) result.2 }
    ensures same { (halves.new.input.ghost_name ≡ halves.old.input.ghost_name) × (halves.new.output.ghost_name ≡ halves.old.output.ghost_name) }
{
    let (mut seat, sent) = send_first(stay.alloc, first, halves.output);
    match sent {
        SideEnd::Done { end } => (pass, seat, end),
        SideEnd::Stopped => {
            let (pass, end) = serve_sides(stay, pass, ends, &mut seat, halves);
            (pass, seat, end)
        }
    }
}

/// Attends to a viewer who has joined, and sends its last frame where one is due.
pub fn attend_whole<R: Threads + Wait + Sync, S: Source + Send, K: FrameSink + Send>(
    stay: &Stay<'_, R>,
    pass: Pass<Session>,
    ends: &mut Ends<'_>,
    first: FirstFrame,
    halves: &mut Halves<'_, S, K>,
) -> (Pass<Session>, Seat, ConnEnd)
    requires lock { IsPassOf stay.now.lock.now pass }
    requires part { AreBytes ends.old.conn.hearing.part }
    requires placed { ArePlaced ends.old.rest.now }
    requires room { 0 < ends.old.noted.places.room }
    requires first { IsFirst stay.now.lock.now.head pass.seen stay.now.v first.seat.sender.confirmed (Ok first) }
    ensures lock { IsPassOf stay.now.lock.now result.0 }
    ensures attends { Attends stay.now.lock.now.head stay.now.v first.seat.sender.confirmed ends.old.rest.now ends.old.conn.hearing result.1.sender
        result.1.desk pass result.0 ends.old.noted ends.new.noted (outside_of S.Source K.Sink halves.old.input.now halves.old.output.now)
        (outside_of S.Source K.Sink halves.new.input.now halves.new.output.now) result.2 }
    ensures whole { IsShownLast stay.now.lock.now.head stay.now.v result.0 result.1.sender result.2 (notice_in ends.new.noted) }
    ensures same { (halves.new.input.ghost_name ≡ halves.old.input.ghost_name) × (halves.new.output.ghost_name ≡ halves.old.output.ghost_name) }
{
    let (pass, mut seat, end) = attend(stay, pass, ends, first, halves);
    if wants_last(end, &ends.noted) {
        let (pass, sent) = send_last(stay, pass, &mut seat, halves.output);
        return (pass, seat, end_of_last(sent));
    }
    (pass, seat, end)
}

/// Whether a last frame is due at an end.
fn wants_last(end: ConnEnd, noted: &Noted) -> bool
    ensures { result ≡ wants_last end (notice_in noted.now) }
{
    match end {
        ConnEnd::Left => !noted.bye && !noted.quiet,
        ConnEnd::Refused { .. }
        | ConnEnd::Truncated
        | ConnEnd::NotInvited
        | ConnEnd::RoomFull
        | ConnEnd::JoinsSpent
        | ConnEnd::ReadFault
        | ConnEnd::WriteFault
        | ConnEnd::NotStored
        | ConnEnd::OutOfMemory => false,
    }
}

/// The connection's end after its last frame.
fn end_of_last(sent: SideEnd) -> ConnEnd
    ensures { result ≡ end_of_last sent }
{
    match sent {
        SideEnd::Done { end } => end,
        SideEnd::Stopped => ConnEnd::Left,
    }
}

/// Runs both sides of a viewer, and reads its stream on where neither met the connection's end.
fn serve_sides<R: Threads + Wait + Sync, S: Source + Send, K: FrameSink + Send>(
    stay: &Stay<'_, R>,
    pass: Pass<Session>,
    ends: &mut Ends<'_>,
    seat: &mut Seat,
    halves: &mut Halves<'_, S, K>,
) -> (Pass<Session>, ConnEnd)
    requires lock { IsPassOf stay.now.lock.now pass }
    requires part { AreBytes ends.old.conn.hearing.part }
    requires placed { ArePlaced ends.old.rest.now }
    requires room { 0 < ends.old.noted.places.room }
    requires viewer { seat.old.sender.v ≡ stay.now.v }
    requires idle { IsIdle seat.old.sender }
    requires seen { seat.old.sender.number ≤ length pass.seen }
    ensures lock { IsPassOf stay.now.lock.now result.0 }
    ensures serves { SidesServe stay.now.lock.now.head stay.now.v ends.old.rest.now ends.old.conn.hearing seat.old.sender seat.new.sender seat.old.desk
        seat.new.desk pass result.0 ends.old.noted ends.new.noted (outside_of S.Source K.Sink halves.old.input.now halves.old.output.now)
        (outside_of S.Source K.Sink halves.new.input.now halves.new.output.now) result.1 }
    ensures same { (halves.new.input.ghost_name ≡ halves.old.input.ghost_name) × (halves.new.output.ghost_name ≡ halves.old.output.ghost_name) }
{
    let (pass, read, sent) = run_sides(stay, pass, ends, seat, halves);
    match ended_by(read, sent) {
        SideEnd::Done { end } => (pass, end),
        SideEnd::Stopped => read_out(stay, pass, ends, halves.input),
    }
}

/// Which of both sides' ends counts: that of the sending, where that didn't stop.
fn ended_by(read: SideEnd, sent: SideEnd) -> SideEnd
    ensures { result ≡ ended_by read sent }
{
    match sent {
        SideEnd::Done { end } => SideEnd::Done { end },
        SideEnd::Stopped => read,
    }
}

/// Reads a viewer's stream on to its end.
fn read_out<R: Wait, S: Source>(
    stay: &Stay<'_, R>,
    pass: Pass<Session>,
    ends: &mut Ends<'_>,
    input: &mut S,
) -> (Pass<Session>, ConnEnd)
    requires lock { IsPassOf stay.now.lock.now pass }
    requires part { AreBytes ends.old.conn.hearing.part }
    requires room { 0 < ends.old.noted.places.room }
    ensures lock { IsPassOf stay.now.lock.now result.0 }
    ensures reads { ReadsOn stay.now.lock.now.head stay.now.v [] false ends.old.conn.hearing ends.new.conn.hearing pass result.0
        ends.old.noted ends.new.noted (input_of S.Source input.old) (input_of S.Source input.new) (Done result.1) }
{
    let (pass, ended) = read_side(
        stay.rt,
        stay.alloc,
        stay.lock,
        pass,
        stay.v,
        &mut ends.conn,
        &[],
        &mut ends.noted,
        input,
        None,
    );
    match ended {
        SideEnd::Done { end } => (pass, end),
        SideEnd::Stopped => unreachable!(),
    }
}

/// Output is allowed again, and a viewer's last frame is taken and sent. `Stopped` says that no fault came.
pub fn send_last<R: Wait, K: FrameSink>(
    stay: &Stay<'_, R>,
    pass: Pass<Session>,
    seat: &mut Seat,
    output: &mut K,
) -> (Pass<Session>, SideEnd)
    requires lock { IsPassOf stay.now.lock.now pass }
    requires viewer { seat.old.sender.v ≡ stay.now.v }
    requires idle { IsIdle seat.old.sender }
    requires seen { seat.old.sender.number ≤ length pass.seen }
    ensures lock { IsPassOf stay.now.lock.now result.0 }
    ensures mine { result.0.mine ≡ pass.mine }
    ensures share { result.0.share ≡ pass.share }
    ensures sends { SendsOn stay.now.lock.now.head seat.old.sender seat.new.sender seat.old.desk seat.new.desk pass result.0
        (output_of K.Sink output.old) (output_of K.Sink output.new) result.1 }
    ensures whole { IsShownAll stay.now.lock.now.head stay.now.v result.0.seen seat.new.sender.number result.1 }
    ensures found { FoundAll result.0 }
{
    let (pass, taken) = take_once(stay, pass, Due::Last, seat);
    let end = send_taken(stay.alloc, taken, seat, output);
    (pass, end)
}
