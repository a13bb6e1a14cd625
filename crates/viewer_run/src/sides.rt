//! Both sides of a viewer, each in a thread, over two passes that meet again.
ghost use Rattle.std.specs.Prelude.{◌≡◌, ◌≤◌, ◌<◌, length, is_some, true, IfSome};
ghost use Rattle.edge_io.specs.Outside.{input_of, output_of};
ghost use Rattle.conn_rules.specs.Placed.{AreBytes, ArePlaced};
ghost use Rattle.viewer_sender.specs.Senders.{IsIdle};
ghost use Rattle.grow_lock.specs.Passes.{IsPassOf};
ghost use Rattle.serve_rules.specs.Reading.{ReadsOn};
ghost use Rattle.serve_rules.specs.declared.ends.SideEnd.TheVariants.{Stopped};
ghost use Rattle.viewer_run.specs.Sending.{SendsOn};

use crate::reading::read_side;
use crate::sends::send_side;
use crate::{Ends, Halves, SideEnd, Stay};
use edge_io::{FrameSink, Source};
use grow_lock::{GrowLock, Pass};
use session_core::Session;
use std::sync::Wait;
use std::sync::atomic::{AtomicBool, AtomicU64, Ordering};
use std::thread::{Threads, join_mut};
use std::time::Duration;
use viewer_sender::Seat;

/// How often the send side looks whether the read side runs, before it gives up.
const LOOKS: usize = 10;

/// How long it waits for it between two looks, in seconds.
const PAUSE: u64 = 1;

/// The word `Started` before the read side runs.
const WAITS: u64 = 0;

/// And from then on.
const RUNS: u64 = 1;

/// What the two sides share: whether one of them has ended, and whether the read side runs. No clause knows their values.
#[derive(Drop)]
struct Shared {
    ended: AtomicBool,
    started: AtomicU64,
}

impl Shared {
    /// Neither side runs.
    fn new() -> Shared {
        Shared {
            ended: AtomicBool::new(false),
            started: AtomicU64::new(WAITS),
        }
    }

    /// The read side runs.
    fn start(&self) {
        self.started.store(RUNS, Ordering::SeqCst);
        self.started.wake_all();
    }

    /// Whether the read side runs, within some seconds. Where no thread can be made it runs only after the send side.
    fn has_started<R: Wait>(&self, rt: &R) -> bool {
        for _ in 0..LOOKS {
            if self.started.load(Ordering::SeqCst) == RUNS {
                return true;
            }
            self.started
                .park_timeout(rt, WAITS as u32, Duration::from_secs(PAUSE));
        }
        self.started.load(Ordering::SeqCst) == RUNS
    }

    /// A side has ended, and the other one is to end.
    fn end(&self, lock: &GrowLock<Session>) {
        self.ended.store(true, Ordering::SeqCst);
        lock.ring();
    }
}

/// Runs both sides, each in a thread, and gives the pass that has seen what both saw.
pub fn run_sides<R: Threads + Wait + Sync, S: Source + Send, K: FrameSink + Send>(
    stay: &Stay<'_, R>,
    pass: Pass<Session>,
    ends: &mut Ends<'_>,
    seat: &mut Seat,
    halves: &mut Halves<'_, S, K>,
) -> (Pass<Session>, SideEnd, SideEnd)
    requires lock { IsPassOf stay.now.lock.now pass }
    requires part { AreBytes ends.old.conn.hearing.part }
    requires placed { ArePlaced ends.old.rest.now }
    requires room { 0 < ends.old.noted.places.room }
    requires viewer { seat.old.sender.v ≡ stay.now.v }
    requires idle { IsIdle seat.old.sender }
    requires seen { seat.old.sender.number ≤ length pass.seen }
    ensures lock { IsPassOf stay.now.lock.now result.0 }
    ensures reads { ReadsOn stay.now.lock.now.head stay.now.v ends.old.rest.now true ends.old.conn.hearing ends.new.conn.hearing pass result.0
        ends.old.noted ends.new.noted (input_of S.Source halves.old.input.now) (input_of S.Source halves.new.input.now) result.1 }
    ensures part { result.1 ≡ Stopped → AreBytes ends.new.conn.hearing.part }
    ensures sends { SendsOn stay.now.lock.now.head seat.old.sender seat.new.sender seat.old.desk seat.new.desk pass result.0
        (output_of K.Sink halves.old.output.now) (output_of K.Sink halves.new.output.now) result.2 }
    ensures same { (halves.new.input.ghost_name ≡ halves.old.input.ghost_name) × (halves.new.output.ghost_name ≡ halves.old.output.ghost_name) }
{
    let mut mine = pass;
    let theirs = stay.lock.split(&mut mine);
    let (mine, read, theirs, sent) = side_by_side(stay, (mine, theirs), ends, seat, halves);
    (stay.lock.meet(theirs, mine), read, sent)
}

/// Runs both sides, each in a thread with a pass of its own.
fn side_by_side<R: Threads + Wait + Sync, S: Source + Send, K: FrameSink + Send>(
    stay: &Stay<'_, R>,
    passes: (Pass<Session>, Pass<Session>),
    ends: &mut Ends<'_>,
    seat: &mut Seat,
    halves: &mut Halves<'_, S, K>,
) -> (Pass<Session>, SideEnd, Pass<Session>, SideEnd)
    requires lock { IsPassOf stay.now.lock.now passes.0 }
    requires other { IsPassOf stay.now.lock.now passes.1 }
    requires part { AreBytes ends.old.conn.hearing.part }
    requires placed { ArePlaced ends.old.rest.now }
    requires room { 0 < ends.old.noted.places.room }
    requires viewer { seat.old.sender.v ≡ stay.now.v }
    requires idle { IsIdle seat.old.sender }
    requires seen { seat.old.sender.number ≤ length passes.1.seen }
    ensures lock { IsPassOf stay.now.lock.now result.0 }
    ensures reads { ReadsOn stay.now.lock.now.head stay.now.v ends.old.rest.now true ends.old.conn.hearing ends.new.conn.hearing passes.0 result.0
        ends.old.noted ends.new.noted (input_of S.Source halves.old.input.now) (input_of S.Source halves.new.input.now) result.1 }
    ensures part { result.1 ≡ Stopped → AreBytes ends.new.conn.hearing.part }
    ensures other { IsPassOf stay.now.lock.now result.2 }
    ensures mine { result.2.mine ≡ passes.1.mine }
    ensures share { result.2.share ≡ passes.1.share }
    ensures sends { SendsOn stay.now.lock.now.head seat.old.sender seat.new.sender seat.old.desk seat.new.desk passes.1 result.2
        (output_of K.Sink halves.old.output.now) (output_of K.Sink halves.new.output.now) result.3 }
    ensures same { (halves.new.input.ghost_name ≡ halves.old.input.ghost_name) × (halves.new.output.ghost_name ≡ halves.old.output.ghost_name) }
{
    let shared = Shared::new();
    let (mine, theirs) = passes;
    let mut mine = Some(mine);
    let mut theirs = Some(theirs);
    let conn = &mut ends.conn;
    let rest = ends.rest;
    let noted = &mut ends.noted;
    let input = &mut *halves.input;
    let output = &mut *halves.output;
    let ((read_pass, read), (send_pass, sent)) = join_mut(
        stay.rt,
        &mut || -> (Pass<Session>, SideEnd)
            requires { IfSome mine (λ p. IsPassOf stay.now.lock.now p) × (is_some mine ≡ true) × AreBytes conn.now.hearing.part × ArePlaced rest.now
                × (0 < noted.now.places.room) }
            ensures { IfSome mine.entry (λ p. IsPassOf stay.entry.now.lock.now result.0
                × ReadsOn stay.entry.now.lock.now.head stay.entry.now.v rest.entry.now true conn.entry.now.hearing conn.exit.now.hearing p result.0
                noted.entry.now noted.exit.now (input_of S.Source input.entry.now) (input_of S.Source input.exit.now) result.1
                × (result.1 ≡ Stopped → AreBytes conn.exit.now.hearing.part)) }
        {
            shared.start();
            let ended = read_side(
                stay.rt,
                stay.alloc,
                stay.lock,
                mine.take().unwrap(),
                stay.v,
                conn,
                rest,
                noted,
                input,
                Some(&shared.ended),
            );
            shared.end(stay.lock);
            ended
        },
        &mut || -> (Pass<Session>, SideEnd)
            requires { IfSome theirs (λ p. IsPassOf stay.now.lock.now p × (seat.now.sender.number ≤ length p.seen)) × (is_some theirs ≡ true)
                × (seat.now.sender.v ≡ stay.now.v) × IsIdle seat.now.sender }
            ensures { IfSome theirs.entry (λ p. IsPassOf stay.entry.now.lock.now result.0 × (result.0.mine ≡ p.mine) × (result.0.share ≡ p.share)
                × SendsOn stay.entry.now.lock.now.head seat.entry.now.sender seat.exit.now.sender seat.entry.now.desk seat.exit.now.desk p result.0
                (output_of K.Sink output.entry.now) (output_of K.Sink output.exit.now) result.1) }
        {
            let ended = send_beside(stay, theirs.take().unwrap(), seat, output, &shared);
            shared.end(stay.lock);
            ended
        },
    );
    (read_pass, read, send_pass, sent)
}

/// The send side beside the read side; it sends nothing where that doesn't run beside it.
fn send_beside<R: Wait, K: FrameSink>(
    stay: &Stay<'_, R>,
    pass: Pass<Session>,
    seat: &mut Seat,
    output: &mut K,
    shared: &Shared,
) -> (Pass<Session>, SideEnd)
    requires lock { IsPassOf stay.now.lock.now pass }
    requires viewer { seat.old.sender.v ≡ stay.now.v }
    requires idle { IsIdle seat.old.sender }
    requires seen { seat.old.sender.number ≤ length pass.seen }
    ensures lock { IsPassOf stay.now.lock.now result.0 }
    ensures mine { result.0.mine ≡ pass.mine }
    ensures share { result.0.share ≡ pass.share }
    ensures sends { SendsOn stay.now.lock.now.head seat.old.sender seat.new.sender seat.old.desk seat.new.desk pass result.0
        (output_of K.Sink output.old) (output_of K.Sink output.new) result.1 }
{
    if shared.has_started(stay.rt) {
        send_side(
            stay.rt,
            stay.alloc,
            stay.lock,
            pass,
            stay.v,
            seat,
            output,
            &shared.ended,
        )
    } else {
        (pass, SideEnd::Stopped)
    }
}
