//! A host's bytes in any pieces: whole packets are gone through where they lie, and what is left waits for the next bytes.

ghost use Rattle.std.specs.Prelude.{◌≡◌, ◌<◌, ◌≤◌, ◌&&◌, ℕ, false, length, IfOk};
ghost use Rattle.tpkt_x224.specs.declared.tpkt.Packet.TheVariants.{Whole, Part};
ghost use Rattle.fast_path.specs.Heads.{stream_packet_at};
ghost use Rattle.viewer_rules.specs.HostStream.{host_packet_at};
ghost use Rattle.viewer_rules.specs.Shown.{has_ended, standing_at};
ghost use Rattle.viewer_rules.specs.ViewerHandshake.{Standing, Watching, watched, awaits_fast, length_place};
ghost use Rattle.look_net.specs.Looks.{Keeps};
ghost use Rattle.look_net.specs.Watches.{Stays, IsKept, GoesOn, GoesSome, GoesAll};

use crate::LookFault;
use crate::watcher::{Viewer, Watcher, is_shown, watch_packet};
use fast_path::{is_fast, lacking_in_stream, next_fast};
use tpkt_x224::{Packet, next_packet};
use viewer_rules::Stage;

/// The first byte of a packet of the fast path.
const FAST: u8 = 0;

/// The place of a packet's length in it, and of one of the fast path.
const LENGTH: u64 = 2;

const FAST_LENGTH: u64 = 1;

/// Goes through bytes, and appends what is due to `out`. An `Err` leaves there what is due up to a front of them, each packet's text whole.
pub(crate) fn watch(
    viewer: &Viewer,
    watcher: &mut Watcher,
    part: &mut Vec<u8>,
    bytes: &[u8],
    out: &mut Vec<u8>,
) -> Result<(), LookFault>
    requires { stream_packet_at part.old.items ≡ Part }
    ensures gone { (w : Watching) → Stays w.at viewer.now.confirmed watcher.old → Keeps viewer.now.confirmed w part.old.items
        → GoesAll result viewer.now.name viewer.now.confirmed w bytes.now watcher.new part.new.items out.old.items out.new.items }
    ensures waits { stream_packet_at part.new.items ≡ Part }
{
    let mut left = bytes;
    while !left.is_empty() {
        if has_ended(watcher.stage) {
            return Ok(());
        }
        match watch_some(viewer, watcher, part, left, out) {
            Ok(n) => left = &left[n..],
            Err(fault) => return Err(fault),
        }
    }
    Ok(())
}

/// Whether the host has ended the connection.
pub(crate) fn has_ended(stage: Stage) -> bool
    ensures { result ≡ has_ended stage }
{
    match stage {
        Stage::Confirm
        | Stage::Response
        | Stage::Attach
        | Stage::Joins { .. }
        | Stage::Licence { .. }
        | Stage::Demand { .. }
        | Stage::Finish { .. }
        | Stage::Shown
        | Stage::Refused { .. } => false,
        Stage::Over => true,
    }
}

/// Goes through the first bytes, and gives how many they are.
fn watch_some(
    viewer: &Viewer,
    watcher: &mut Watcher,
    part: &mut Vec<u8>,
    bytes: &[u8],
    out: &mut Vec<u8>,
) -> Result<usize, LookFault>
    requires some { 0 < length bytes.now }
    requires waits { stream_packet_at part.old.items ≡ Part }
    ensures gone { (w : Watching) → Stays w.at viewer.now.confirmed watcher.old → Keeps viewer.now.confirmed w part.old.items → has_ended w.at.stage ≡ false
        → GoesSome result viewer.now.name viewer.now.confirmed w bytes.now watcher.new part.new.items out.old.items out.new.items }
    ensures some { IfOk result (λ n. 0 < n) }
    ensures few { IfOk result (λ n. n ≤ length bytes.now) }
    ensures waits { stream_packet_at part.new.items ≡ Part }
{
    if part.is_empty() {
        watch_whole(viewer, watcher, part, bytes, out)
    } else {
        watch_part(viewer, watcher, part, bytes, out)
    }
}

/// Goes through a packet that lies in the bytes, or keeps the part of one.
fn watch_whole(
    viewer: &Viewer,
    watcher: &mut Watcher,
    part: &mut Vec<u8>,
    bytes: &[u8],
    out: &mut Vec<u8>,
) -> Result<usize, LookFault>
    requires some { 0 < length bytes.now }
    requires none { length part.old.items ≡ 0 }
    ensures gone { (w : Watching) → Stays w.at viewer.now.confirmed watcher.old → Keeps viewer.now.confirmed w part.old.items → has_ended w.at.stage ≡ false
        → GoesSome result viewer.now.name viewer.now.confirmed w bytes.now watcher.new part.new.items out.old.items out.new.items }
    ensures some { IfOk result (λ n. 0 < n) }
    ensures few { IfOk result (λ n. n ≤ length bytes.now) }
    ensures waits { stream_packet_at part.new.items ≡ Part }
{
    match next_of_host(awaits_fast(viewer, watcher.stage), bytes) {
        Packet::Whole(n) => match watch_packet(viewer, watcher, &bytes[..n], out) {
            Ok(()) => Ok(n),
            Err(fault) => Err(fault),
        },
        Packet::Part => match keep(part, bytes) {
            Ok(()) => Ok(bytes.len()),
            Err(fault) => Err(fault),
        },
        Packet::NotTpkt => Err(LookFault::Refused { at: watcher.place }),
        Packet::BadLength => Err(LookFault::Refused {
            at: watcher.place.saturating_add(length_place(bytes)),
        }),
    }
}

/// Goes through as many bytes as the part of a packet that is there lacks, or all of them.
#[tactic(auto, using(fast_path::proofs::Lacking::alone))]
fn watch_part(
    viewer: &Viewer,
    watcher: &mut Watcher,
    part: &mut Vec<u8>,
    bytes: &[u8],
    out: &mut Vec<u8>,
) -> Result<usize, LookFault>
    requires some { 0 < length bytes.now }
    requires waits { stream_packet_at part.old.items ≡ Part }
    ensures gone { (w : Watching) → Stays w.at viewer.now.confirmed watcher.old → Keeps viewer.now.confirmed w part.old.items → has_ended w.at.stage ≡ false
        → GoesSome result viewer.now.name viewer.now.confirmed w bytes.now watcher.new part.new.items out.old.items out.new.items }
    ensures some { IfOk result (λ n. 0 < n) }
    ensures few { IfOk result (λ n. n ≤ length bytes.now) }
    ensures waits { stream_packet_at part.new.items ≡ Part }
{
    let n = lacking_in_stream(part).min(bytes.len());
    match keep(part, &bytes[..n]) {
        Ok(()) => match watch_kept(viewer, watcher, part, out) {
            Ok(()) => Ok(n),
            Err(fault) => Err(fault),
        },
        Err(fault) => Err(fault),
    }
}

/// Keeps bytes of a packet. An `Err` keeps none.
fn keep(part: &mut Vec<u8>, bytes: &[u8]) -> Result<(), LookFault>
    ensures kept { IsKept result part.old.items bytes.now part.new.items }
{
    match part.extend_from_slice(bytes) {
        Ok(()) => Ok(()),
        Err(_) => Err(LookFault::OutOfMemory),
    }
}

/// Goes through the packet that is kept, if it is whole by now.
fn watch_kept(
    viewer: &Viewer,
    watcher: &mut Watcher,
    part: &mut Vec<u8>,
    out: &mut Vec<u8>,
) -> Result<(), LookFault>
    requires { (n : ℕ) → stream_packet_at part.old.items ≡ Whole n → n ≡ length part.old.items }
    ensures gone { (s : Standing) → Stays s viewer.now.confirmed watcher.old → has_ended s.stage ≡ false
        → GoesOn result viewer.now.name viewer.now.confirmed (watched viewer.now.name viewer.now.confirmed (standing_at s) part.old.items) watcher.new part.new.items out.old.items out.new.items }
    ensures waits { stream_packet_at part.new.items ≡ Part }
{
    match next_of_host(awaits_fast(viewer, watcher.stage), part) {
        Packet::Whole(_) => {
            let done = watch_packet(viewer, watcher, part, out);
            part.clear();
            done
        }
        Packet::Part => Ok(()),
        Packet::NotTpkt => {
            part.clear();
            Err(LookFault::Refused { at: watcher.place })
        }
        Packet::BadLength => {
            let at = watcher.place.saturating_add(length_place(part));
            part.clear();
            Err(LookFault::Refused { at })
        }
    }
}

/// Whether packets of the fast path are awaited: from the Font Map on, by a client that takes them.
fn awaits_fast(viewer: &Viewer, stage: Stage) -> bool
    ensures { result ≡ awaits_fast viewer.now.confirmed stage }
{
    is_shown(stage) && viewer.confirmed.fast
}

/// What stands at the head of a host's bytes, where packets of the fast path are awaited or not.
#[tactic(auto, using(crate::proofs::HostHeads::no_head, crate::proofs::HostHeads::fast_head, crate::proofs::HostHeads::early_head, crate::proofs::HostHeads::slow_head))]
fn next_of_host(fast: bool, bytes: &[u8]) -> Packet
    ensures { result ≡ host_packet_at fast bytes.now }
{
    if bytes.is_empty() {
        return Packet::Part;
    }
    if bytes[0] != FAST {
        return next_packet(bytes);
    }
    if fast {
        next_fast(bytes)
    } else {
        Packet::NotTpkt
    }
}

/// The place of a packet's length in it, whose first bytes these are.
fn length_place(bytes: &[u8]) -> u64
    ensures { result ≡ length_place bytes.now }
{
    if is_fast(bytes) { FAST_LENGTH } else { LENGTH }
}
