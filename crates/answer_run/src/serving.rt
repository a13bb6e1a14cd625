//! A client's service, piece by piece of its stream.

ghost use Rattle.std.specs.Prelude.{◌≡◌, ◌≢◌, ◌<◌, ◌≤◌, [], length, take, IsTrue, IfOk, IfErr};
ghost use Rattle.edge_io.specs.Outside.{outside_of};
ghost use Rattle.px_core.specs.Rectangle.{is_session_size};
ghost use Rattle.session_rules.specs.Journal.{Head};
ghost use Rattle.conn_rules.specs.Placed.{AreBytes};
ghost use Rattle.answer_run.specs.Asking.{owners_head};
ghost use Rattle.answer_run.specs.Service.{Service, ending_of};
ghost use Rattle.answer_run.specs.Cut.{read_room};
ghost use Rattle.answer_run.specs.Visits.{IsReady, WritesCause, ReadsCause, IsWriteFault, IsFault};
ghost use Rattle.answer_run.specs.Serves.{IsServiceOf, IsRefusal, end_of_part, ServedPiece, ServedNext};

use crate::heard::{do_heard, have_caches};
use crate::host::Host;
use crate::visitor::Visitor;
use crate::{AnswerFault, Ending};
use conn_core::{Conn, ConnFault};
use edge_io::{Got, Sink, Source};
use wire_num::OutOfMemory;

/// A client's service: its connection, and who it is.
#[derive(Drop)]
pub struct Serving {
    pub conn: Conn,
    pub visitor: Visitor,
}

/// Reads what comes next of the stream into a buffer, and does it; says how the service ends, if it does. A failed read writes nothing;
/// another `Err` leaves a front of what is due for the bytes that were read.
pub fn serve_next<S: Source, K: Sink>(
    host: &Host,
    serving: &mut Serving,
    buffer: &mut [u8],
    input: &mut S,
    output: &mut K,
) -> Result<Option<Ending>, AnswerFault>
    requires size { IsTrue (is_session_size host.now.size.w host.now.size.h) }
    requires owner { host.now.owner ≢ [] }
    requires ready { IsReady serving.old.visitor }
    requires part { AreBytes serving.old.conn.hearing.part }
    requires room { length buffer.old ≡ read_room }
    ensures done { (s : Service) → IsServiceOf (owners_head host.now.size host.now.owner) serving.old s
        → ServedNext result (owners_head host.now.size host.now.owner) s serving.new
        (outside_of S.Source K.Sink input.old output.old) (outside_of S.Source K.Sink input.new output.new) }
    ensures room { length buffer.new ≡ length buffer.old }
    ensures fault { IfErr result IsFault }
    ensures read { ReadsCause result (S.faults input.old) (S.faults input.new) }
    ensures write { WritesCause result (K.faults output.old) (K.faults output.new) }
{
    match input.read(buffer) {
        Got::Bytes(n) => serve_piece(host, serving, &buffer[..n], output),
        Got::End => Ok(Some(last_ending(serving))),
        Got::Failed => Err(AnswerFault::ReadFault),
    }
}

/// Does what these bytes of the stream ask for; says how the service ends with them, if it does.
fn serve_piece<K: Sink>(
    host: &Host,
    serving: &mut Serving,
    bytes: &[u8],
    output: &mut K,
) -> Result<Option<Ending>, AnswerFault>
    requires size { IsTrue (is_session_size host.now.size.w host.now.size.h) }
    requires owner { host.now.owner ≢ [] }
    requires ready { IsReady serving.old.visitor }
    requires part { AreBytes serving.old.conn.hearing.part }
    ensures done { (s : Service) → IsServiceOf (owners_head host.now.size host.now.owner) serving.old s
        → ServedPiece result (owners_head host.now.size host.now.owner) s bytes.now serving.new (K.told output.old) (K.told output.new) }
    ensures fault { IfErr result IsWriteFault }
    ensures cause { WritesCause result (K.faults output.old) (K.faults output.new) }
{
    let mut replies = Vec::new(host.alloc);
    let mut steps = Vec::new(host.alloc);
    let fed = serving.conn.feed(bytes, &mut replies, &mut steps);
    match refusal_of(fed) {
        Ok(refusal) => {
            have_caches(&steps);
            do_heard(
                host,
                &mut serving.visitor,
                &replies,
                &steps,
                refusal,
                output,
            )
        }
        Err(OutOfMemory) => Err(AnswerFault::OutOfMemory),
    }
}

/// The end that an answer of the connection is, if it is one.
fn refusal_of(fed: Result<(), ConnFault>) -> Result<Option<Ending>, OutOfMemory>
    ensures { IsRefusal fed result }
{
    match fed {
        Ok(()) => Ok(None),
        Err(ConnFault::Refused { k, at }) => Ok(Some(Ending::Refused { k, at })),
        Err(ConnFault::OutOfMemory) => Err(OutOfMemory),
    }
}

/// How a service ends whose stream ends here.
fn last_ending(serving: &Serving) -> Ending
    ensures { (head : Head) (s : Service) → IsServiceOf head serving.now s → result ≡ ending_of head s [] }
{
    match &serving.visitor {
        Visitor::Coming { .. } => Ending::Truncated,
        Visitor::Viewing { .. } => end_of_part(serving.conn.part()),
    }
}

/// How a viewer's service ends with no more bytes, by how many are there of a packet that isn't whole.
fn end_of_part(part: usize) -> Ending
    ensures { result ≡ end_of_part part }
{
    if part == 0 {
        Ending::Left
    } else {
        Ending::Truncated
    }
}
