//! The service of one client.

ghost use Rattle.std.specs.Prelude.{◌≡◌, ◌≢◌, ℕ, List, [], IsTrue, IfOk, IfErr, vec_len};
ghost use Rattle.px_core.specs.Rectangle.{is_session_size};
ghost use Rattle.answer_run.specs.Asking.{owners_head};
ghost use Rattle.answer_run.specs.Service.{first_service};
ghost use Rattle.answer_run.specs.Cut.{read_room};
ghost use Rattle.answer_run.specs.Visits.{WritesCause, ReadsCause};
ghost use Rattle.answer_run.specs.Serves.{IsAnswerOf, IsServiceOf, IsNumberedFault, RunsAnswer};

use crate::host::Host;
use crate::serving::{Serving, serve_next};
use crate::visitor::Visitor;
use crate::{AnswerFault, Ending};
use conn_core::Conn;
use edge_io::{Sink, Source};
use info_lic::Name;
use px_core::Size;
use std::alloc::Global;
use wire_num::OutOfMemory;

/// How many bytes are read at once.
const ROOM: usize = 16_384;

/// Serves one client, whose stream comes from the input: a session of this size is made for it, which it joins by the owner's name.
///
/// What is written are the replies of the connection, then a frame once the client is ready and after each further packet whose take has
/// work, and then an ultimatum where the client asked for the end, is refused or isn't let in. Right before a frame goes a packet of the
/// pointer, where the client keeps pointers and this one isn't the one that it was told last. What is due for the bytes that were read is
/// written before more are read; so a `ReadFault` leaves exactly what is due for the bytes that the input had handed out.
pub fn run_answer<S: Source, K: Sink>(
    alloc: Global,
    size: Size,
    owner: &Name,
    input: &mut S,
    output: &mut K,
) -> Result<(), AnswerFault>
    requires size { IsTrue (is_session_size size.w size.h) }
    requires owner { owner.now ≢ [] }
    // Where the input tells the client's stream, what is written is its answer, to the byte, and it ends as it is told to: well, refused
    // by just that number at just that place, truncated or not invited. The client's frames are never refused, and their marks show the
    // pictures after exactly the journal entries that its takes found, and the pointers after them. After a failed read exactly what is
    // due for the bytes that the input had handed out stands there, the replies and then the frames, which show these pictures and
    // pointers; after a failed write, or want of memory, all that is due for the bytes before the last read, and then a front of what is
    // due for those of that read. Either is a front of the answer, and the frames in it, without the packets of pointers, show the first
    // ones of its takes.
    ensures answer { RunsAnswer result size owner.now (S.left input.old) (S.left input.new) (K.told output.old) (K.told output.new) }
    // A refusal's number is 1 to 14.
    ensures number { IfErr result IsNumberedFault }
    ensures read { ReadsCause result (S.faults input.old) (S.faults input.new) }
    ensures write { WritesCause result (K.faults output.old) (K.faults output.new) }
{
    let host = Host {
        alloc,
        size,
        owner: *owner,
    };
    let Ok(mut serving) = start(alloc, size) else {
        return Err(AnswerFault::OutOfMemory);
    };
    let Ok(mut buffer) = new_buffer(alloc) else {
        return Err(AnswerFault::OutOfMemory);
    };
    for _ in 0..u64::MAX {
        match serve_next(&host, &mut serving, &mut buffer, input, output) {
            Ok(None) => {}
            Ok(Some(how)) => return answer_of(how),
            Err(fault) => return Err(fault),
        }
    }
    // More reads than that are none.
    Err(AnswerFault::OutOfMemory)
}

/// The service of a client before its first byte.
fn start(alloc: Global, size: Size) -> Result<Serving, OutOfMemory>
    requires { IsTrue (is_session_size size.w size.h) }
    ensures { IfOk result (λ serving. (owner : List ℕ) → IsServiceOf (owners_head size owner) serving (first_service size)) }
{
    let conn = Conn::new(alloc, size)?;
    Ok(Serving {
        conn,
        visitor: Visitor::Coming {
            name: Name::new(b""),
        },
    })
}

/// A buffer to read into.
fn new_buffer(alloc: Global) -> Result<Vec<u8>, OutOfMemory>
    ensures { IfOk result (λ buffer. vec_len buffer ≡ read_room) }
{
    let buffer = vec![in alloc; 0; ROOM]?;
    Ok(buffer)
}

/// What an ending is answered with.
fn answer_of(how: Ending) -> Result<(), AnswerFault>
    ensures { IsAnswerOf result how }
{
    match how {
        Ending::Left | Ending::AskedForEnd => Ok(()),
        Ending::Refused { k, at } => Err(AnswerFault::Refused { k, at }),
        Ending::Truncated => Err(AnswerFault::Truncated),
        Ending::NotInvited => Err(AnswerFault::NotInvited),
    }
}
