//! The network viewer: its words, the host that it watches, what it prints of it, and its exit status.
ghost use Rattle.std.specs.Prelude.{◌≡◌, ◌<◌, Some, None, map, string_bytes, IfErr};
ghost use Rattle.command_words.specs.ViewWords.{ViewingOf, view_of_words};
ghost use Rattle.viewer_rules.specs.ViewerHandshake.{Watching};
ghost use Rattle.viewer_rules.specs.Shown.{look_refusal};
ghost use Rattle.capture_show.specs.Shown.{text_of};
ghost use Rattle.capture_show.specs.Answers.{Writes, WriteCause, IsWriteFault};
ghost use Rattle.look_net.specs.Looks.{IsWatching};
ghost use Rattle.edge_io.specs.Outside.{output_of};
ghost use Rattle.look_net.specs.Views.{dial_state, look_shown, printed_status, Ends, Views, WritesUsage};
ghost use Rattle.look_net.specs.HostTurns.{IsLookOf, IsEnd, watch_end};

use crate::end::End;
use crate::host_turns::watch;
use crate::{Look, OutOfMemory};
use capture_show::{ShowFault, put, write_client, write_no_mark, write_refused};
use command_words::status::{
    BAD_WORDS, DONE, ENDED_EARLY, NOT_INVITED, OUT_OF_MEMORY, PORT_FAULT, READ_FAULT, REFUSED,
    WRITE_FAULT,
};
use command_words::{Viewing, view_of_words};
use edge_io::{Dial, Link, Sink};
use std::alloc::Global;
use std::sync::Wait;

/// What is printed where the words ask for nothing.
const USAGE: &[u8] = b"usage: rdp_view PORT NAME MARKS PRESET\n";

/// The whole program, over any dial and output; the answer is its exit status. The words begin with the program's name.
///
/// The words are read by `clap` as one simple command. The port of this machine is dialled once; the viewer joins by the name, confirms what
/// the preset words say, and watches until there are so many marks. Then it leaves with an ultimatum, and the picture of the last mark is
/// printed. What the host's bytes come to is asked after each read, in this order: where they are refused the place is printed; there are
/// so many marks; the host has ended the connection, or its bytes end, and what there is by then is printed. Other words write the usage
/// line.
pub fn view_top<R: Wait, D: Dial, K: Sink>(
    rt: &R,
    alloc: Global,
    words: &[String],
    dial: &mut D,
    output: &mut K,
) -> u8
    // The port that was asked for is dialled, and its link comes back in every case. Whatever bytes a host sends, and however they come: it
    // is told just what the connection sequence asks for, and what is printed is what its bytes show, by the meaning of updates; each
    // status stands exactly where it is listed, unless a fault, whose count rose, or want of memory ended the run.
    ensures view { (v : ViewingOf) → view_of_words (map string_bytes words.now) ≡ Some v → Views result v
        (dial_state D.Dial D.Link.Link dial.old) (dial_state D.Dial D.Link.Link dial.new)
        (output_of K.Sink output.old) (output_of K.Sink output.new) }
    ensures usage { view_of_words (map string_bytes words.now) ≡ None → WritesUsage result
        (output_of K.Sink output.old) (output_of K.Sink output.new) }
    ensures dial { view_of_words (map string_bytes words.now) ≡ None → dial.new ≡ dial.old }
{
    match view_of_words(alloc, words) {
        Ok(Some(viewing)) => view_host(rt, alloc, &viewing, dial, output),
        Ok(None) => refuse_words(output),
        Err(OutOfMemory) => OUT_OF_MEMORY,
    }
}

/// Dials the port, watches its host, and prints what came of it; the answer is the exit status.
fn view_host<R: Wait, D: Dial, K: Sink>(
    rt: &R,
    alloc: Global,
    viewing: &Viewing,
    dial: &mut D,
    output: &mut K,
) -> u8
    requires { 0 < viewing.now.marks }
    ensures { Views result viewing.now (dial_state D.Dial D.Link.Link dial.old) (dial_state D.Dial D.Link.Link dial.new)
        (output_of K.Sink output.old) (output_of K.Sink output.new) }
{
    let Ok(mut look) = Look::new(alloc, viewing.name, viewing.confirmed) else {
        return OUT_OF_MEMORY;
    };
    let Some(link) = dial.dial(viewing.port) else {
        return PORT_FAULT;
    };
    let (mut reader, mut writer) = link.split();
    let end = watch(rt, alloc, viewing, &mut look, &mut reader, &mut writer);
    dial.done(<D::Link as Link>::close(reader, writer));
    print_end(alloc, end, &look, output)
}

/// Prints what came of watching a host; the answer is the exit status.
fn print_end<K: Sink>(alloc: Global, end: End, look: &Look, output: &mut K) -> u8
    ensures { (v : ViewingOf) (w : Watching) → IsLookOf v look.now → IsEnd end v w look.now → Ends (watch_end end) result v w
        (output_of K.Sink output.old) (output_of K.Sink output.new) }
{
    match end {
        End::Marks => printed(DONE, print_look(alloc, look, output)),
        End::Farewell => printed(NOT_INVITED, print_look(alloc, look, output)),
        End::Closed => printed(ENDED_EARLY, print_look(alloc, look, output)),
        End::Refused { at } => printed(REFUSED, write_refused(alloc, at, output)),
        End::ReadFault => READ_FAULT,
        End::WriteFault => WRITE_FAULT,
        End::OutOfMemory => OUT_OF_MEMORY,
    }
}

/// Prints the picture of the last mark, with what was counted, or that there was no mark.
fn print_look<K: Sink>(alloc: Global, look: &Look, output: &mut K) -> Result<(), ShowFault>
    ensures written { (w : Watching) → IsWatching w look.now → look_refusal look.now.confirmed w ≡ None
        → Writes result (text_of (look_shown look.now.confirmed w)) (K.told output.old) (K.told output.new) }
    ensures fault { IfErr result IsWriteFault }
    ensures cause { WriteCause result (K.faults output.old) (K.faults output.new) }
{
    match look.view() {
        Some(client) => write_client(alloc, client, output),
        None => write_no_mark(output),
    }
}

/// The exit status, by what the bytes ask for and by what the printing is answered.
fn printed(status: u8, answer: Result<(), ShowFault>) -> u8
    ensures { result ≡ printed_status status answer }
{
    match answer {
        Ok(()) => status,
        Err(ShowFault::ReadFault) => READ_FAULT,
        Err(ShowFault::WriteFault) => WRITE_FAULT,
        Err(ShowFault::OutOfMemory) => OUT_OF_MEMORY,
    }
}

/// Writes the usage line, and answers the status of words that ask for nothing.
fn refuse_words<K: Sink>(output: &mut K) -> u8
    ensures { WritesUsage result (output_of K.Sink output.old) (output_of K.Sink output.new) }
{
    printed(BAD_WORDS, put(output, USAGE))
}
