//! A client's connection, served from its first byte to its last.
ghost use Rattle.std.specs.Prelude.{◌≡◌, [], IsTrue, ℕ, List};
ghost use Rattle.edge_io.specs.Outside.{output_of, outside_of, outside_given, outside_spent};
ghost use Rattle.px_core.specs.Rectangle.{is_session_size};
ghost use Rattle.caps_sets.specs.declared.confirmed.Confirmed.{Confirmed as ConfirmedModel};
ghost use Rattle.frame_rules.specs.Describes.{HasAllCaches};
ghost use Rattle.conn_rules.specs.Hearing.{Hearing, first_hearing};
ghost use Rattle.conn_rules.specs.Placed.{AreBytes, ArePlaced};
ghost use Rattle.session_rules.specs.Journal.{IsLegalJournal};
ghost use Rattle.grow_lock.specs.Passes.{IsPassOf};
ghost use Rattle.viewer_run.specs.LastWords.{SaysLast};
ghost use Rattle.viewer_run.specs.LetIn.{ServesReady};
ghost use Rattle.viewer_run.specs.Links.{ServesViewer};

use crate::last_words::{say_last, turn_away};
use crate::{Guest, Halves, Host, Visit, greet, serve_guest, size_of};
use caps_sets::Confirmed;
use conn_core::Conn;
use edge_io::{FrameSink, Link, Sink, Source};
use grow_lock::{GrowLock, Pass};
use serve_rules::{ConnEnd, ConnReport, Noted};
use session_core::Session;
use std::alloc::Global;
use std::sync::Wait;
use std::thread::Threads;

/// Serves a client over a link, and gives back the pass, what the connection came to, and what is left of the link.
pub fn serve_viewer<R: Threads + Wait + Sync, L: Link>(
    rt: &R,
    alloc: Global,
    lock: &GrowLock<Session>,
    pass: Pass<Session>,
    link: L,
) -> (Pass<Session>, ConnReport, L::Spent)
    requires { IsPassOf lock.now pass }
    ensures lock { IsPassOf lock.now result.0 }
    ensures served { ServesViewer lock.now.head pass result.0 result.1 (outside_given L.Link link)
        (outside_spent L.Link result.2) }
{
    let (mut reader, mut writer) = link.split();
    let (pass, report) = serve_pair(rt, alloc, lock, pass, &mut reader, &mut writer);
    (pass, report, L::close(reader, writer))
}

/// Serves a client over the two halves of its link: its connection sequence, its time as a viewer if it is let in, and the last word to it.
pub fn serve_pair<R: Threads + Wait + Sync, S: Source + Send, K: FrameSink + Send>(
    rt: &R,
    alloc: Global,
    lock: &GrowLock<Session>,
    pass: Pass<Session>,
    input: &mut S,
    output: &mut K,
) -> (Pass<Session>, ConnReport)
    requires { IsPassOf lock.now pass }
    ensures lock { IsPassOf lock.now result.0 }
    ensures served { ServesViewer lock.now.head pass result.0 result.1 (outside_of S.Source K.Sink input.old output.old)
        (outside_of S.Source K.Sink input.new output.new) }
{
    let (pass, size) = size_of(rt, lock, pass);
    let Ok(mut conn) = Conn::new(alloc, size) else {
        return (pass, turn_away(alloc, output, ConnEnd::OutOfMemory));
    };
    match greet(alloc, &mut conn, input, output) {
        Ok(guest) => {
            let host = Host { rt, alloc, lock };
            serve_over(&host, pass, &guest, conn, input, output)
        }
        Err(end) => (pass, turn_away(alloc, output, end)),
    }
}

/// Serves a client that is ready over the two halves of its link.
fn serve_over<R: Threads + Wait + Sync, S: Source + Send, K: FrameSink + Send>(
    host: &Host<'_, R>,
    pass: Pass<Session>,
    guest: &Guest,
    conn: Conn,
    input: &mut S,
    output: &mut K,
) -> (Pass<Session>, ConnReport)
    requires lock { IsPassOf host.now.lock.now pass }
    requires legal { IsLegalJournal host.now.lock.now.head pass.seen }
    requires part { AreBytes conn.hearing.part }
    requires placed { ArePlaced guest.now.rest.items }
    ensures lock { IsPassOf host.now.lock.now result.0 }
    ensures legal { IsLegalJournal host.now.lock.now.head result.0.seen }
    ensures served { ServesReady host.now.lock.now.head guest.now conn.hearing pass result.0 result.1
        (outside_of S.Source K.Sink input.old output.old) (outside_of S.Source K.Sink input.new output.new) }
    ensures caches { HasAllCaches guest.now.confirmed }
{
    let mut halves = Halves { input, output };
    serve_ready(host, pass, guest, conn, &mut halves)
}

/// Serves a client that is ready.
fn serve_ready<R: Threads + Wait + Sync, S: Source + Send, K: FrameSink + Send>(
    host: &Host<'_, R>,
    pass: Pass<Session>,
    guest: &Guest,
    conn: Conn,
    halves: &mut Halves<'_, S, K>,
) -> (Pass<Session>, ConnReport)
    requires lock { IsPassOf host.now.lock.now pass }
    requires legal { IsLegalJournal host.now.lock.now.head pass.seen }
    requires part { AreBytes conn.hearing.part }
    requires placed { ArePlaced guest.now.rest.items }
    ensures lock { IsPassOf host.now.lock.now result.0 }
    ensures legal { IsLegalJournal host.now.lock.now.head result.0.seen }
    ensures served { ServesReady host.now.lock.now.head guest.now conn.hearing pass result.0 result.1
        (outside_of S.Source K.Sink halves.old.input.now halves.old.output.now) (outside_of S.Source K.Sink halves.new.input.now halves.new.output.now) }
    ensures caches { HasAllCaches guest.now.confirmed }
    ensures same { (halves.new.input.ghost_name ≡ halves.old.input.ghost_name) × (halves.new.output.ghost_name ≡ halves.old.output.ghost_name) }
{
    recall_all_caches(&guest.confirmed);
    let (pass, came) = serve_guest(host, pass, guest, conn, halves);
    match came {
        Ok(visited) => (pass, report_of(host.alloc, halves.output, visited)),
        Err(end) => (pass, turn_away(host.alloc, halves.output, end)),
    }
}

/// Says the last word to a viewer who has left, and reports its connection.
fn report_of<K: Sink>(alloc: Global, output: &mut K, visited: (Visit, Noted)) -> ConnReport
    ensures viewer { result.viewer ≡ visited.0.v }
    ensures places { result.places ≡ visited.1.places }
    ensures last { SaysLast visited.0.end visited.1.shutdown result.end (output_of K.Sink output.old) (output_of K.Sink output.new) }
{
    let (visit, noted) = visited;
    let end = say_last(alloc, output, visit.end, noted.shutdown);
    ConnReport {
        viewer: visit.v,
        end,
        places: noted.places,
    }
}

/// What a client confirmed has all caches, by its type; it does nothing.
fn recall_all_caches(confirmed: &Confirmed)
    ensures { HasAllCaches confirmed.now }
{
    let _three = confirmed.bitmaps.sizes();
    let _ten = confirmed.glyphs.sizes();
}
