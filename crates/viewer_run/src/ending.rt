//! The first and the last of a connection: the session's size, and the last word to the client.
ghost use Rattle.std.specs.Prelude.{◌≡◌, ◌<◌, [], IsTrue, IsOk};
ghost use Rattle.edge_io.specs.Outside.{output_of};
ghost use Rattle.px_core.specs.Rectangle.{is_session_size};
ghost use Rattle.mcs_dom.specs.Ultimatum.{ultimatum_packet};
ghost use Rattle.session_rules.specs.Journal.{IsLegalJournal};
ghost use Rattle.grow_lock.specs.Passes.{IsPassOf};
ghost use Rattle.serve_rules.specs.Turns.{Idles};
ghost use Rattle.viewer_run.specs.Ending.{ultimatum_at};
ghost use Rattle.viewer_run.specs.Greeting.{Replies};

use crate::ConnEnd;
use crate::guest::reply;
use edge_io::Sink;
use grow_lock::{GrowLock, Pass};
use mcs_dom::write_end;
use px_core::Size;
use session_core::Session;
use std::alloc::Global;
use std::sync::Wait;

/// The reason of an ultimatum to a client that is refused, rn-provider-initiated.
const REFUSED: u8 = 1;

/// The reason of an ultimatum to a client that asked for the end, rn-user-requested.
const ASKED_FOR: u8 = 3;

/// The session's size, learnt in a turn; what the pass has seen then is a legal journal.
pub fn size_of<R: Wait>(
    rt: &R,
    lock: &GrowLock<Session>,
    pass: Pass<Session>,
) -> (Pass<Session>, Size)
    requires { IsPassOf lock.now pass }
    ensures lock { IsPassOf lock.now result.0 }
    ensures size { result.1 ≡ lock.now.head.size }
    ensures fits { IsTrue (is_session_size result.1.w result.1.h) }
    ensures legal { IsLegalJournal lock.now.head result.0.seen }
    ensures idle { Idles pass result.0 }
{
    let mut turn = lock.enter(rt, pass);
    let size = size_here(turn.value());
    let pass = lock.leave(turn);
    (pass, size)
}

/// A session's size.
fn size_here(session: &mut Session) -> Size
    ensures unchanged { session.new ≡ session.old }
    ensures size { result ≡ session.old.head.size }
    ensures fits { IsTrue (is_session_size result.w result.h) }
    ensures legal { IsLegalJournal session.old.head session.old.journal }
{
    session.recall_legal();
    session.size()
}

/// Writes the ultimatum that is due at an end, if one is; where none is, the output isn't called.
pub fn put_last<K: Sink>(
    alloc: Global,
    output: &mut K,
    end: ConnEnd,
    asked: bool,
) -> Result<(), ConnEnd>
    ensures replies { Replies (ultimatum_at end asked) (output_of K.Sink output.old) (output_of K.Sink output.new) result }
    ensures quiet { ultimatum_at end asked ≡ [] → IsOk result }
{
    match end {
        ConnEnd::Left if asked => put_ultimatum(alloc, output, ASKED_FOR),
        ConnEnd::Refused { .. } | ConnEnd::NotInvited | ConnEnd::RoomFull | ConnEnd::JoinsSpent =>
            put_ultimatum(alloc, output, REFUSED),
        ConnEnd::Left
        | ConnEnd::Truncated
        | ConnEnd::ReadFault
        | ConnEnd::WriteFault
        | ConnEnd::NotStored
        | ConnEnd::OutOfMemory => reply(output, &[]),
    }
}

/// Writes a Disconnect Provider Ultimatum with this reason.
fn put_ultimatum<K: Sink>(alloc: Global, output: &mut K, reason: u8) -> Result<(), ConnEnd>
    requires { reason < 5 }
    ensures { Replies (ultimatum_packet reason) (output_of K.Sink output.old) (output_of K.Sink output.new) result }
{
    let mut packet = Vec::new(alloc);
    if write_end(&mut packet, reason).is_err() {
        return Err(ConnEnd::OutOfMemory);
    }
    reply(output, &packet)
}
