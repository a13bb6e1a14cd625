//! Packet by packet: each is answered, or from the Font Map on shown.

ghost use Rattle.std.specs.Prelude.{◌≡◌, ℕ, true, false, List, [], ◌++◌, Option, Ok, OnOk};
ghost use Rattle.px_core.specs.declared.surface.Size.{Size};
ghost use Rattle.caps_sets.specs.declared.confirmed.Confirmed.{Confirmed};
ghost use Rattle.fast_path.specs.Heads.{is_fast};
ghost use Rattle.update_read.specs.Wholes.{IsWholePacket};
ghost use Rattle.viewer_rules.specs.Shown.{has_ended};
ghost use Rattle.viewer_rules.specs.ViewerHandshake.{Standing, size_or, start_by, silent, answered, shown_by, packet_told, packet_answered, is_farewell};
ghost use Rattle.viewer_wire.specs.Reads.{with_text};
ghost use Rattle.look_net.specs.Looks.{IsOpen, Shows, HasClient};
ghost use Rattle.look_net.specs.Watches.{is_shown, Stays, ShowsMore, FeedsMore, WatchesPacket};

use crate::LookFault;
use caps_sets::Confirmed;
use client_view::{Client, ClientFault};
use info_lic::Name;
use px_core::Size;
use std::alloc::Global;
use viewer_rules::Stage;
use viewer_wire::{Answer, AnswerFault, answer_packet, is_farewell};
use wire_num::OutOfMemory;

/// Who watches: a name, and what it confirms.
#[derive(Clone, Copy)]
pub struct Viewer {
    pub alloc: Global,
    pub name: Name,
    pub confirmed: Confirmed,
}

/// How far a host's stream has come, between two packets. `place` is that of the next packet, `start` that of the first update, in bytes from the stream's
/// first
/// one; `body` and `text` are taken again and again.
#[derive(Drop)]
pub struct Watcher {
    pub stage: Stage,
    pub place: u64,
    pub start: u64,
    pub client: Option<Client>,
    pub body: Vec<u8>,
    pub text: Vec<u8>,
}

/// Goes through a whole packet, of the fast path only behind the Font Map: what it is answered with is appended to `out`, whole, or nothing is.
pub(crate) fn watch_packet(
    viewer: &Viewer,
    watcher: &mut Watcher,
    packet: &[u8],
    out: &mut Vec<u8>,
) -> Result<(), LookFault>
    requires slow { is_shown watcher.old.stage ≡ false → is_fast packet.now ≡ false }
    requires whole { IsWholePacket packet.now }
    ensures { (s : Standing) → Stays s viewer.now.confirmed watcher.old → has_ended s.stage ≡ false
        → WatchesPacket result (packet_told viewer.now.name viewer.now.confirmed s.stage s packet.now) viewer.now.confirmed watcher.new out.old.items out.new.items }
{
    if is_shown(watcher.stage) {
        show_packet(viewer, watcher, packet)
    } else {
        answer(viewer, watcher, packet, out)
    }
}

/// Whether updates are awaited.
pub(crate) fn is_shown(stage: Stage) -> bool
    ensures { result ≡ is_shown stage }
{
    match stage {
        Stage::Confirm
        | Stage::Response
        | Stage::Attach
        | Stage::Joins { .. }
        | Stage::Licence { .. }
        | Stage::Demand { .. }
        | Stage::Finish { .. }
        | Stage::Over
        | Stage::Refused { .. } => false,
        Stage::Shown => true,
    }
}

/// Shows a packet, or ends at the host's ultimatum.
fn show_packet(viewer: &Viewer, watcher: &mut Watcher, packet: &[u8]) -> Result<(), LookFault>
    requires { IsWholePacket packet.now }
    ensures { (s : Standing) (out : List ℕ) → Stays s viewer.now.confirmed watcher.old → is_shown s.stage ≡ true
        → WatchesPacket result (silent (shown_by (is_farewell packet.now) s packet.now)) viewer.now.confirmed watcher.new out out }
{
    if is_farewell(packet) {
        watcher.stage = Stage::Over;
        return Ok(());
    }
    show(&mut watcher.client, watcher.start, packet)?;
    watcher.place = watcher.place.saturating_add(packet.len() as u64);
    Ok(())
}

/// Shows a packet to the client, where there is one, which counts its places from `start` on.
fn show(client: &mut Option<Client>, start: u64, packet: &[u8]) -> Result<(), LookFault>
    requires { IsWholePacket packet.now }
    ensures { (c : Confirmed) (size : Option Size) (shown : List ℕ) → HasClient c size shown client.old
        → ShowsMore result c size start (shown ++ packet.now) client.new }
{
    match client {
        None => Ok(()),
        Some(client) => feed_client(client, start, packet),
    }
}

/// Lets a client read a packet.
fn feed_client(client: &mut Client, start: u64, packet: &[u8]) -> Result<(), LookFault>
    requires { IsWholePacket packet.now }
    ensures { (c : Confirmed) (size : Size) (shown : List ℕ) → Shows c size shown client.old → FeedsMore result c size start (shown ++ packet.now) client.new }
{
    match client.feed_packet(packet) {
        Ok(()) => Ok(()),
        Err(ClientFault::Refused { at }) => Err(LookFault::Refused {
            at: start.saturating_add(at),
        }),
        Err(ClientFault::Named { at, .. }) => Err(LookFault::Refused {
            at: start.saturating_add(at),
        }),
        Err(ClientFault::OutOfMemory) => Err(LookFault::OutOfMemory),
    }
}

/// Answers a packet of the handshake.
fn answer(
    viewer: &Viewer,
    watcher: &mut Watcher,
    packet: &[u8],
    out: &mut Vec<u8>,
) -> Result<(), LookFault>
    ensures { (s : Standing) → Stays s viewer.now.confirmed watcher.old → is_shown s.stage ≡ false → has_ended s.stage ≡ false
        → WatchesPacket result (answered s packet.now (packet_answered viewer.now.name viewer.now.confirmed s.stage packet.now)) viewer.now.confirmed watcher.new out.old.items out.new.items }
{
    match answer_packet(
        watcher.stage,
        packet,
        viewer.name,
        &viewer.confirmed,
        &mut watcher.body,
        &mut watcher.text,
    ) {
        Ok(answer) => take_answer(viewer, watcher, packet, answer, out),
        Err(AnswerFault::Refused(n)) => Err(LookFault::Refused {
            at: watcher.place.saturating_add(n as u64),
        }),
        Err(AnswerFault::OutOfMemory) => Err(LookFault::OutOfMemory),
    }
}

/// Goes on with the answer to a packet, whose text stands in the watcher.
fn take_answer(
    viewer: &Viewer,
    watcher: &mut Watcher,
    packet: &[u8],
    answer: Answer,
    out: &mut Vec<u8>,
) -> Result<(), LookFault>
    ensures { (s : Standing) → Stays s viewer.now.confirmed watcher.old → s.shown ≡ [] → IsOpen answer.next []
        → WatchesPacket result (answered s packet.now (Ok (with_text watcher.old.text.items answer))) viewer.now.confirmed watcher.new out.old.items out.new.items }
{
    if let Err(OutOfMemory) = start_client(
        viewer.alloc,
        viewer.confirmed,
        &mut watcher.client,
        answer.size,
    ) {
        return Err(LookFault::OutOfMemory);
    }
    if let Err(_) = out.extend_from_slice(&watcher.text) {
        return Err(LookFault::OutOfMemory);
    }
    watcher.place = watcher.place.saturating_add(packet.len() as u64);
    watcher.start = start_by(answer.next, watcher.place, watcher.start);
    watcher.stage = answer.next;
    Ok(())
}

/// Makes a client once the size is told.
fn start_client(
    alloc: Global,
    confirmed: Confirmed,
    client: &mut Option<Client>,
    told: Option<Size>,
) -> Result<(), OutOfMemory>
    ensures { (size : Option Size) → HasClient confirmed size [] client.old → OnOk result (HasClient confirmed (size_or told size) [] client.new) }
{
    match told {
        None => Ok(()),
        Some(size) => {
            let first = Client::new(alloc, confirmed, size)?;
            *client = Some(first);
            Ok(())
        }
    }
}

/// The viewer's bytes begin behind the Font Map.
fn start_by(next: Stage, place: u64, start: u64) -> u64
    ensures { result ≡ start_by next place start }
{
    match next {
        Stage::Shown => place,
        Stage::Confirm
        | Stage::Response
        | Stage::Attach
        | Stage::Joins { .. }
        | Stage::Licence { .. }
        | Stage::Demand { .. }
        | Stage::Finish { .. }
        | Stage::Over
        | Stage::Refused { .. } => start,
    }
}
