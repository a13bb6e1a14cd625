//! The read side of a viewer: what the client sends is done, each event in a turn of its own.
ghost use Rattle.std.specs.Prelude.{◌≡◌, ◌<◌, ◌≤◌, true, [], length, is_some, vec_len, IfOk};
ghost use Rattle.std.specs.Io.KnownBytes.{Consumes};
ghost use Rattle.edge_io.specs.Outside.{Input, input_of};
ghost use Rattle.conn_rules.specs.Hearing.{heard};
ghost use Rattle.conn_rules.specs.Placed.{AreBytes, ArePlaced};
ghost use Rattle.grow_lock.specs.Passes.{IsPassOf};
ghost use Rattle.serve_rules.specs.Notices.{notice_in};
ghost use Rattle.serve_rules.specs.Reading.{ReadsInTurns, StopsReading, one_read};
ghost use Rattle.serve_rules.specs.declared.ends.SideEnd.TheVariants.{Stopped};
ghost use Rattle.viewer_run.specs.Feeding.{EndOfPiece, EndsAs, IsFed, IsOpen, is_done, end_by_part};

use crate::steps::do_steps;
use crate::{ConnEnd, Noted, OutOfMemory, SideEnd, Stay};
use conn_core::{Conn, ConnFault};
use conn_rules::ConnStep;
use edge_io::{Got, Source};
use grow_lock::{GrowLock, Pass};
use session_core::Session;
use std::alloc::Global;
use std::sync::Wait;
use std::sync::atomic::{AtomicBool, Ordering};

/// How many bytes are read at once.
const ROOM: usize = 16_384;

/// The end by want of memory.
pub const NO_MEMORY: SideEnd = SideEnd::Done {
    end: ConnEnd::OutOfMemory,
};

/// The read side of a viewer. First it does the steps that the connection gave after Ready; then it reads, and does what it reads, until
/// the stream ends or, where a flag is handed in, until it finds that set before a read. It has no turn but those of the steps that it read.
pub fn read_side<R: Wait, S: Source>(
    rt: &R,
    alloc: Global,
    lock: &GrowLock<Session>,
    pass: Pass<Session>,
    v: u32,
    conn: &mut Conn,
    rest: &[ConnStep],
    noted: &mut Noted,
    input: &mut S,
    flag: Option<&AtomicBool>,
) -> (Pass<Session>, SideEnd)
    requires lock { IsPassOf lock.now pass }
    requires part { AreBytes conn.old.hearing.part }
    requires placed { ArePlaced rest.now }
    requires room { 0 < noted.old.places.room }
    ensures lock { IsPassOf lock.now result.0 }
    ensures reads { ReadsInTurns lock.now.head v rest.now (is_some flag.entry) conn.old.hearing conn.new.hearing pass result.0 noted.old noted.new
        (input_of S.Source input.old) (input_of S.Source input.new) result.1 }
    ensures part { result.1 ≡ Stopped → AreBytes conn.new.hearing.part }
{
    let stay = Stay { rt, alloc, lock, v };
    let (pass, end) = read_rest(&stay, pass, conn, rest, noted);
    if is_done(end) {
        return (pass, end);
    }
    let Ok(mut buffer) = new_buffer(alloc) else {
        return (pass, NO_MEMORY);
    };
    let mut now = pass;
    for _ in rt.forever() {
        if is_set(flag) {
            return (now, SideEnd::Stopped);
        }
        let (next, end) = read_next(&stay, now, conn, &mut buffer, noted, input);
        now = next;
        if is_done(end) {
            return (now, end);
        }
    }
    unreachable!()
}

/// Whether a side met the connection's end.
pub(crate) fn is_done(end: SideEnd) -> bool
    ensures { result ≡ is_done end }
{
    match end {
        SideEnd::Done { .. } => true,
        SideEnd::Stopped => false,
    }
}

/// Whether there is a flag, and it is set.
fn is_set(flag: Option<&AtomicBool>) -> bool
    ensures { result ≡ true → is_some flag.entry ≡ true }
{
    match flag {
        Some(flag) => flag.load(Ordering::SeqCst),
        None => false,
    }
}

/// A buffer to read into.
pub fn new_buffer(alloc: Global) -> Result<Vec<u8>, OutOfMemory>
    ensures some { IfOk result (λ buffer. 0 < vec_len buffer) }
    ensures one { IfOk result (λ buffer. vec_len buffer ≤ one_read) }
{
    let buffer = vec![in alloc; 0; ROOM]?;
    Ok(buffer)
}

/// Does the steps that the connection gave already, and sees whether its stream was refused behind them. `Stopped` says that it goes on.
fn read_rest<R: Wait>(
    stay: &Stay<'_, R>,
    pass: Pass<Session>,
    conn: &mut Conn,
    rest: &[ConnStep],
    noted: &mut Noted,
) -> (Pass<Session>, SideEnd)
    requires lock { IsPassOf stay.now.lock.now pass }
    requires part { AreBytes conn.old.hearing.part }
    requires placed { ArePlaced rest.now }
    requires room { 0 < noted.old.places.room }
    ensures lock { IsPassOf stay.now.lock.now result.0 }
    ensures reads { (input : Input) → ReadsInTurns stay.now.lock.now.head stay.now.v rest.now true conn.old.hearing conn.new.hearing pass result.0 noted.old
        noted.new input input result.1 }
    ensures going { result.1 ≡ Stopped → IsOpen conn.new.hearing (notice_in noted.new) }
{
    let (pass, done) = do_steps(stay, pass, rest, noted);
    if done.is_err() {
        return (pass, NO_MEMORY);
    }
    read_piece(stay, pass, conn, &[], noted)
}

/// Reads what comes next of the stream into a buffer, and does it. `Stopped` says that the stream goes on.
fn read_next<R: Wait, S: Source>(
    stay: &Stay<'_, R>,
    pass: Pass<Session>,
    conn: &mut Conn,
    buffer: &mut [u8],
    noted: &mut Noted,
    input: &mut S,
) -> (Pass<Session>, SideEnd)
    requires lock { IsPassOf stay.now.lock.now pass }
    requires going { IsOpen conn.old.hearing (notice_in noted.old) }
    requires buffer { 0 < length buffer.old }
    requires one { length buffer.old ≤ one_read }
    requires room { 0 < noted.old.places.room }
    ensures lock { IsPassOf stay.now.lock.now result.0 }
    ensures buffer { length buffer.new ≡ length buffer.old }
    ensures reads { ReadsInTurns stay.now.lock.now.head stay.now.v [] true conn.old.hearing conn.new.hearing pass result.0 noted.old noted.new
        (input_of S.Source input.old) (input_of S.Source input.new) result.1 }
    ensures going { result.1 ≡ Stopped → IsOpen conn.new.hearing (notice_in noted.new) }
{
    match input.read(buffer) {
        Got::Bytes(n) => read_piece(stay, pass, conn, &buffer[..n], noted),
        Got::End => (pass, end_of_input(conn)),
        Got::Failed => (
            pass,
            SideEnd::Done {
                end: ConnEnd::ReadFault,
            },
        ),
    }
}

/// How a stream ends that ends here, after Ready.
fn end_of_input(conn: &Conn) -> SideEnd
    ensures { result ≡ end_by_part (length conn.now.hearing.part) }
{
    if conn.part() == 0 {
        SideEnd::Done { end: ConnEnd::Left }
    } else {
        SideEnd::Done {
            end: ConnEnd::Truncated,
        }
    }
}

/// Feeds bytes of the stream to the connection, and does the steps that it gives. `Stopped` says that the stream goes on.
fn read_piece<R: Wait>(
    stay: &Stay<'_, R>,
    pass: Pass<Session>,
    conn: &mut Conn,
    bytes: &[u8],
    noted: &mut Noted,
) -> (Pass<Session>, SideEnd)
    requires lock { IsPassOf stay.now.lock.now pass }
    requires part { AreBytes conn.old.hearing.part }
    requires room { 0 < noted.old.places.room }
    requires stops { StopsReading [] conn.old.hearing (notice_in noted.old) bytes.now }
    ensures lock { IsPassOf stay.now.lock.now result.0 }
    ensures reads { (before after : Input) → Consumes before.left after.left bytes.now → after.faults ≡ before.faults
        → ReadsInTurns stay.now.lock.now.head stay.now.v [] true conn.old.hearing conn.new.hearing pass result.0 noted.old noted.new before after result.1 }
    ensures going { result.1 ≡ Stopped → IsOpen conn.new.hearing (notice_in noted.new) }
{
    let mut replies = Vec::new(stay.alloc);
    let mut steps = Vec::new(stay.alloc);
    match feed(conn, bytes, &mut replies, &mut steps) {
        Ok(end) => {
            let (pass, done) = do_steps(stay, pass, &steps, noted);
            let end = end_of_piece(done, end, noted);
            (pass, end)
        }
        Err(OutOfMemory) => (pass, NO_MEMORY),
    }
}

/// Feeds bytes to a connection; says how its stream then ends, where it is refused.
pub fn feed(
    conn: &mut Conn,
    bytes: &[u8],
    replies: &mut Vec<u8>,
    steps: &mut Vec<ConnStep>,
) -> Result<SideEnd, OutOfMemory>
    requires replies { replies.old.items ≡ [] }
    requires steps { steps.old.items ≡ [] }
    ensures { IfOk result (λ end. IsFed (heard conn.old.hearing bytes.now) conn.new.hearing replies.new.items steps.new.items end) }
{
    end_of_feed(conn.feed(bytes, replies, steps))
}

/// The answer of a connection as an end, if it is one.
fn end_of_feed(fed: Result<(), ConnFault>) -> Result<SideEnd, OutOfMemory>
    ensures { EndsAs fed result }
{
    match fed {
        Ok(()) => Ok(SideEnd::Stopped),
        Err(ConnFault::Refused { k, at }) => Ok(SideEnd::Done {
            end: ConnEnd::Refused { k, at },
        }),
        Err(ConnFault::OutOfMemory) => Err(OutOfMemory),
    }
}

/// The end of a piece of the stream whose steps were done or not, behind which it is refused or not.
fn end_of_piece(done: Result<(), OutOfMemory>, end: SideEnd, noted: &Noted) -> SideEnd
    ensures { EndOfPiece done end (notice_in noted.now) result }
{
    match done {
        Ok(()) if noted.bye || noted.shutdown => SideEnd::Done { end: ConnEnd::Left },
        Ok(()) => end,
        Err(_) => NO_MEMORY,
    }
}
