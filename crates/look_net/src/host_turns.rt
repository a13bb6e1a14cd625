//! A host that is watched over a link, until its bytes decide how that ends.
ghost use Rattle.std.specs.Prelude.{◌≡◌, ◌≢◌, ◌++◌, ◌<◌, Some, None, Err, length};
ghost use Rattle.std.specs.Bool.{MatchBool};
ghost use Rattle.edge_io.specs.Source.{FitsRoom, Takes, ReadCause};
ghost use Rattle.edge_io.specs.Outside.{Input, output_of, outside, outside_of};
ghost use Rattle.client_view.specs.Views.{capped};
ghost use Rattle.command_words.specs.ViewWords.{ViewingOf};
ghost use Rattle.viewer_rules.specs.ClientPackets.{connection_request};
ghost use Rattle.viewer_rules.specs.ViewerHandshake.{Watching, Watched, watched, first_watching};
ghost use Rattle.look_net.specs.Looks.{IsWatching, FeedsLook};
ghost use Rattle.look_net.specs.Views.{marks_in};
ghost use Rattle.look_net.specs.HostTurns.{IsLookOf, Asks, IsRead, Says, SaysDue, Turns, WatchesTurn, WatchesAll};

use crate::end::End;
use crate::{Look, LookFault, OutOfMemory};
use command_words::Viewing;
use edge_io::{Got, Sink, Source, Wrote};
use mcs_dom::write_end;
use std::alloc::Global;
use std::sync::Wait;

/// How many bytes are read at once, at most (profile).
const READ_SIZE: usize = 16_384;

/// Why a viewer that has seen enough ends the connection: rn-user-requested (T.125, 7, Reason).
const USER_REQUESTED: u8 = 3;

/// Watches a host over a link, from its first byte on, and says what is due.
pub(crate) fn watch<R: Wait, S: Source, K: Sink>(
    rt: &R,
    alloc: Global,
    viewing: &Viewing,
    look: &mut Look,
    reader: &mut S,
    writer: &mut K,
) -> End
    requires some { 0 < viewing.now.marks }
    requires look { IsLookOf viewing.now look.old }
    requires first { IsWatching first_watching look.old }
    ensures watches { WatchesAll (Some result) viewing.now look.new
        (outside_of S.Source K.Sink reader.old writer.old)
        (outside_of S.Source K.Sink reader.new writer.new) }
    ensures look { IsLookOf viewing.now look.new }
{
    match greet(alloc, look, writer) {
        Some(end) => return end,
        None => {}
    }
    let mut buf = [0u8; READ_SIZE];
    let mut text = Vec::new(alloc);
    for _ in rt.forever() {
        match watch_turn(viewing, look, &mut buf, &mut text, reader, writer) {
            Some(end) => return end,
            None => {}
        }
    }
    unreachable!()
}

/// Says what goes at once.
fn greet<K: Sink>(alloc: Global, look: &Look, writer: &mut K) -> Option<End>
    ensures { Says result connection_request (output_of K.Sink writer.old) (output_of K.Sink writer.new) }
{
    let mut text = Vec::new(alloc);
    match look.start(&mut text) {
        Ok(()) => say(writer, &text),
        Err(OutOfMemory) => Some(End::OutOfMemory),
    }
}

/// Reads once, and says what is due for that; `text` is room for it. `None` where watching goes on.
fn watch_turn<S: Source, K: Sink>(
    viewing: &Viewing,
    look: &mut Look,
    buf: &mut [u8],
    text: &mut Vec<u8>,
    reader: &mut S,
    writer: &mut K,
) -> Option<End>
    requires room { 0 < length buf.old }
    requires look { IsLookOf viewing.now look.old }
    ensures turn { (w : Watching) → IsRead 35 viewing.now w look.old → WatchesTurn result viewing.now w look.new
        (outside_of S.Source K.Sink reader.old writer.old)
        (outside_of S.Source K.Sink reader.new writer.new) }
    ensures look { IsLookOf viewing.now look.new }
    ensures room { length buf.new ≡ length buf.old }
{
    match read_on(look, reader, buf) {
        Got::Bytes(count) => hear(viewing, look, &buf[..count], text, writer),
        Got::End => Some(End::Closed),
        Got::Failed => Some(End::ReadFault),
    }
}

/// Reads once. From the first mark on the host may be silent.
fn read_on<S: Source>(look: &Look, reader: &mut S, buf: &mut [u8]) -> Got
    requires { 0 < length buf.old }
    ensures count { FitsRoom result (length buf.old) }
    ensures bytes { Takes (S.left reader.old) (S.left reader.new) result buf.new }
    ensures cause { ReadCause result (S.faults reader.old) (S.faults reader.new) }
{
    if marks_of(look) > 0 {
        reader.lift_limit();
    }
    reader.read(buf)
}

/// Hears what was read, and says what is due for it.
fn hear<K: Sink>(
    viewing: &Viewing,
    look: &mut Look,
    bytes: &[u8],
    text: &mut Vec<u8>,
    writer: &mut K,
) -> Option<End>
    requires look { IsLookOf viewing.now look.old }
    ensures turns { (w : Watching) (before after : Input) → after.faults ≡ before.faults → IsWatching w look.old
        → Turns result viewing.now bytes.now (watched viewing.now.name viewing.now.confirmed w bytes.now) look.new
        (outside before (output_of K.Sink writer.old)) (outside after (output_of K.Sink writer.new)) }
    ensures look { IsLookOf viewing.now look.new }
{
    text.clear();
    let fed = look.feed(bytes, text);
    let asked = ask(fed, look, viewing.marks);
    say_due(asked, text, writer)
}

/// What is asked after bytes were read, in this order: whether they are refused, whether there are so many marks, whether the host has ended
/// the connection. `None` where none of these is so.
fn ask(fed: Result<(), LookFault>, look: &Look, marks: u16) -> Option<End>
    ensures asked { (v : ViewingOf) (x : Watched) → v.marks ≡ marks → look.now.confirmed ≡ v.confirmed → FeedsLook fed x look.now → Asks result v x.after look.now }
    ensures memory { fed ≡ Err LookFault.OutOfMemory → result ≡ Some End.OutOfMemory }
{
    match fed {
        Err(LookFault::Refused { at }) => Some(End::Refused { at }),
        Err(LookFault::OutOfMemory) => Some(End::OutOfMemory),
        Ok(()) if marks_of(look) >= u64::from(marks) => Some(End::Marks),
        Ok(()) if look.ended() => Some(End::Farewell),
        Ok(()) => None,
    }
}

/// How many marks there were.
fn marks_of(look: &Look) -> u64
    ensures { (w : Watching) → IsWatching w look.now → result ≡ capped (marks_in look.now.confirmed w) }
{
    match look.view() {
        Some(client) => client.marks(),
        None => 0,
    }
}

/// Says what is due behind a read, with the ultimatum once the marks are there, and answers what was asked or what kept it from being said.
/// Where no memory was left nothing more is said.
fn say_due<K: Sink>(asked: Option<End>, text: &mut Vec<u8>, writer: &mut K) -> Option<End>
    ensures { SaysDue asked result text.old.items (output_of K.Sink writer.old) (output_of K.Sink writer.new) }
{
    match asked {
        Some(End::OutOfMemory) => asked,
        Some(End::Marks) => match write_end(text, USER_REQUESTED) {
            Ok(()) => say(writer, text).or(asked),
            Err(_) => Some(End::OutOfMemory),
        },
        _ => say(writer, text).or(asked),
    }
}

/// Says a text, if there is one; `None` where that was done.
fn say<K: Sink>(writer: &mut K, text: &[u8]) -> Option<End>
    ensures { Says result text.now (output_of K.Sink writer.old) (output_of K.Sink writer.new) }
{
    if text.is_empty() {
        return None;
    }
    match writer.write_all(text) {
        Wrote::All => None,
        Wrote::Failed => Some(End::WriteFault),
        Wrote::OutOfMemory => Some(End::OutOfMemory),
    }
}
