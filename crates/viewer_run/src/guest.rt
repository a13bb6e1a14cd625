//! A client's connection sequence, until it is ready.
ghost use Rattle.std.specs.Prelude.{◌≡◌, ◌<◌, ℕ, [], false, List, IfOk, IsOk, length};
ghost use Rattle.std.specs.Io.KnownBytes.{Consumes};
ghost use Rattle.edge_io.specs.Outside.{Input, output_of, outside, outside_of};
ghost use Rattle.conn_rules.specs.Hearing.{end_of};
ghost use Rattle.conn_rules.specs.Placed.{AreBytes, ArePlaced};
ghost use Rattle.serve_rules.specs.Reading.{IsNoRefusal};
ghost use Rattle.viewer_run.specs.Feeding.{IsHeard};
ghost use Rattle.viewer_run.specs.Greeting.{greeting, Greets, with_guest, Replies, GuestOf, IsRestPlaced, refusal_of};

use crate::{ConnEnd, SideEnd, feed, new_buffer};
use caps_sets::Confirmed;
use conn_core::Conn;
use conn_rules::ConnStep;
use edge_io::{Got, Sink, Source, Wrote};
use info_lic::Name;
use std::alloc::Global;

/// A client that is ready: the name that it gave, what it confirmed, and the steps that the connection gave behind Ready.
#[derive(Drop)]
pub struct Guest {
    pub name: Name,
    pub confirmed: Confirmed,
    pub rest: Vec<ConnStep>,
}

/// Answers a client's connection sequence until it is ready; from then on its reads have no limit of time. An `Err` says how the connection ends
/// instead; nothing is read behind a refusal, and nothing before what was read is answered.
pub fn greet<S: Source, K: Sink>(
    alloc: Global,
    conn: &mut Conn,
    input: &mut S,
    output: &mut K,
) -> Result<Guest, ConnEnd>
    requires heard { IsHeard conn.old.hearing }
    requires unrefused { IsNoRefusal (end_of conn.old.hearing) }
    requires part { AreBytes conn.old.hearing.part }
    ensures greets { (name : List ℕ) × Greets conn.old.hearing conn.new.hearing [] name
        (outside_of S.Source K.Sink input.old output.old) (outside_of S.Source K.Sink input.new output.new) (with_guest result) }
    ensures placed { IfOk result (λ guest. AreBytes conn.new.hearing.part × ArePlaced guest.rest.items) }
    ensures free { IfOk result (λ guest. S.Source.limited input.new ≡ false) }
{
    let mut name = Name::new(b"");
    let Ok(mut buffer) = new_buffer(alloc) else {
        return Err(ConnEnd::OutOfMemory);
    };
    for _ in 0..u64::MAX {
        match greet_next(alloc, conn, &mut name, &mut buffer, input, output) {
            Ok(None) => {}
            Ok(Some(guest)) => {
                input.lift_limit();
                return Ok(guest);
            }
            Err(end) => return Err(end),
        }
    }
    // More reads than that are none.
    Err(ConnEnd::OutOfMemory)
}

/// Reads what comes next of the stream into a buffer, and answers it; gives the client where it is ready then.
fn greet_next<S: Source, K: Sink>(
    alloc: Global,
    conn: &mut Conn,
    name: &mut Name,
    buffer: &mut [u8],
    input: &mut S,
    output: &mut K,
) -> Result<Option<Guest>, ConnEnd>
    requires heard { IsHeard conn.old.hearing }
    requires unrefused { IsNoRefusal (end_of conn.old.hearing) }
    requires part { AreBytes conn.old.hearing.part }
    requires buffer { 0 < length buffer.old }
    ensures buffer { length buffer.new ≡ length buffer.old }
    ensures greets { Greets conn.old.hearing conn.new.hearing name.old name.new
        (outside_of S.Source K.Sink input.old output.old) (outside_of S.Source K.Sink input.new output.new) result }
    ensures placed { IfOk result (λ met. AreBytes conn.new.hearing.part × IsRestPlaced met) }
{
    match input.read(buffer) {
        Got::Bytes(n) => greet_piece(alloc, conn, name, &buffer[..n], output),
        Got::End => Err(ConnEnd::Truncated),
        Got::Failed => Err(ConnEnd::ReadFault),
    }
}

/// Answers bytes of the stream.
fn greet_piece<K: Sink>(
    alloc: Global,
    conn: &mut Conn,
    name: &mut Name,
    bytes: &[u8],
    output: &mut K,
) -> Result<Option<Guest>, ConnEnd>
    requires { AreBytes conn.old.hearing.part }
    ensures greets { (before after : Input) → Consumes before.left after.left bytes.now → after.faults ≡ before.faults
        → Greets conn.old.hearing conn.new.hearing name.old name.new (outside before (output_of K.Sink output.old))
        (outside after (output_of K.Sink output.new)) result }
    ensures placed { IfOk result (λ met. AreBytes conn.new.hearing.part × IsRestPlaced met) }
{
    let mut replies = Vec::new(alloc);
    let mut steps = Vec::new(alloc);
    let Ok(refused) = feed(conn, bytes, &mut replies, &mut steps) else {
        return Err(ConnEnd::OutOfMemory);
    };
    if let Err(end) = reply(output, &replies) {
        return Err(end);
    }
    match guest_of(alloc, name, &steps) {
        Ok(Some(guest)) => Ok(Some(guest)),
        Ok(None) => refusal_of(refused),
        Err(end) => Err(end),
    }
}

/// Writes replies; where there are none the output isn't called.
pub(crate) fn reply<K: Sink>(output: &mut K, replies: &[u8]) -> Result<(), ConnEnd>
    ensures replies { Replies replies.now (output_of K.Sink output.old) (output_of K.Sink output.new) result }
    ensures quiet { replies.now ≡ [] → IsOk result }
{
    if replies.is_empty() {
        return Ok(());
    }
    match output.write_all(replies) {
        Wrote::All => Ok(()),
        Wrote::Failed => Err(ConnEnd::WriteFault),
        Wrote::OutOfMemory => Err(ConnEnd::OutOfMemory),
    }
}

/// The client whom steps tell, if it is ready with them; else the name that it gave last is kept. `Left` where it has left.
fn guest_of(alloc: Global, name: &mut Name, steps: &[ConnStep]) -> Result<Option<Guest>, ConnEnd>
    ensures { GuestOf (greeting name.old steps.now) name.new result }
{
    let mut at = 0;
    for step in steps {
        at += 1;
        match *step {
            ConnStep::Named(other) => *name = other,
            ConnStep::Ready(confirmed) => {
                let mut rest = Vec::new(alloc);
                if rest.extend_from_slice(&steps[at..]).is_err() {
                    return Err(ConnEnd::OutOfMemory);
                }
                return Ok(Some(Guest {
                    name: *name,
                    confirmed,
                    rest,
                }));
            }
            ConnStep::Bye => return Err(ConnEnd::Left),
            ConnStep::Event(_) => {}
            ConnStep::Refresh(_) => {}
            ConnStep::Suppress(_) => {}
            ConnStep::Shutdown => {}
            ConnStep::Packet => {}
        }
    }
    Ok(None)
}

/// A refusal ends the connection.
fn refusal_of(refused: SideEnd) -> Result<Option<Guest>, ConnEnd>
    ensures { result ≡ refusal_of refused }
{
    match refused {
        SideEnd::Done { end } => Err(end),
        SideEnd::Stopped => Ok(None),
    }
}
