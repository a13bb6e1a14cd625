//! A host's bytes: a packet that is whole where it lies, and of one that comes in several pieces those within it all at once, and one by one where
//! it may begin or end.

ghost use Rattle.std.specs.Prelude.{◌≡◌, ◌≤◌, ◌<◌, [], ◌∷◌, length, IfOk, OnErr};
ghost use Rattle.caps_sets.specs.Confirmed.{takes_fast};
ghost use Rattle.order_means.specs.Updates.{Updates};
ghost use Rattle.order_means.specs.FrameMarks.{View, ClientReading, reading_after, read_on};
ghost use Rattle.update_read.specs.Cutters.{Gives};
ghost use Rattle.update_read.specs.Wholes.{IsWholePacket};
ghost use Rattle.update_read.specs.Opens.{MayOpen};
ghost use Rattle.client_view.specs.Views.{StandsFor, SameViewer};
ghost use Rattle.client_view.specs.Clients.{StandFor, Reads, ReadsSome};
ghost use Rattle.client_view.specs.OnTheWay.{Stops, WithinPacket, ComesTo};

use crate::ClientFault;
use crate::update::obey_update;
use crate::viewer::Viewer;
use std::alloc::Global;
use update_read::{Cutter, Opened, Step};

/// Obeys the updates of a packet, from the one on that is told. An `Err` leaves the marks and the counts of what was obeyed.
fn obey_packet(
    viewer: &mut Viewer,
    packet: &mut Opened<'_>,
    alloc: Global,
) -> Result<(), ClientFault>
    ensures read { (v : View) (u : Updates) → StandsFor v viewer.old → Gives u packet.old → packet.old.fast ≡ takes_fast viewer.old.confirmed
        → Reads result (reading_after viewer.old.confirmed viewer.old.pictures.size v u) viewer.new packet.new }
    ensures same { SameViewer viewer.old viewer.new }
    ensures stays { packet.new ≡ record packet.old { state = packet.new.state } }
    ensures stopped { (v : View) (u : Updates) → StandsFor v viewer.old → Gives u packet.old
        → OnErr result (Stops (WithinPacket viewer.old.confirmed viewer.old.pictures.size v u.bodies) viewer.new) }
{
    let mut step = packet.step();
    loop {
        match step {
            Step::More => return Ok(()),
            Step::Refused { at } => return Err(ClientFault::Refused { at }),
            Step::Update { at, form } => {
                obey_update(viewer, alloc, at, form, packet.body())?;
                step = packet.go_on();
            }
        }
    }
}

/// Reads the next byte, and obeys the updates of the packet that it ends. An `Err` leaves the marks and the counts of what was obeyed.
fn read_byte(
    viewer: &mut Viewer,
    cutter: &mut Cutter,
    alloc: Global,
    byte: u8,
) -> Result<(), ClientFault>
    ensures read { (r : ClientReading) → StandFor r viewer.old cutter.old
        → Reads result (read_on viewer.old.confirmed viewer.old.pictures.size r (byte ∷ [])) viewer.new cutter.new }
    ensures same { SameViewer viewer.old viewer.new }
    ensures stopped { (r : ClientReading) → StandFor r viewer.old cutter.old
        → OnErr result (Stops (ComesTo viewer.old.confirmed viewer.old.pictures.size r (byte ∷ [])) viewer.new) }
{
    cutter.push(byte);
    let mut packet = cutter.gathered();
    match obey_packet(viewer, &mut packet, alloc) {
        Ok(()) => {
            let state = packet.state();
            cutter.come_to(state);
            Ok(())
        }
        Err(fault) => Err(fault),
    }
}

/// Reads a whole packet where it lies, and obeys its updates. An `Err` leaves the marks and the counts of what was obeyed.
fn read_packet(
    viewer: &mut Viewer,
    cutter: &mut Cutter,
    alloc: Global,
    packet: &[u8],
) -> Result<(), ClientFault>
    requires { MayOpen cutter.old packet.now }
    ensures read { (r : ClientReading) → StandFor r viewer.old cutter.old
        → Reads result (read_on viewer.old.confirmed viewer.old.pictures.size r packet.now) viewer.new cutter.new }
    ensures same { SameViewer viewer.old viewer.new }
    ensures stopped { (r : ClientReading) → StandFor r viewer.old cutter.old
        → OnErr result (Stops (ComesTo viewer.old.confirmed viewer.old.pictures.size r packet.now) viewer.new) }
{
    let mut opened = cutter.opened(packet);
    match obey_packet(viewer, &mut opened, alloc) {
        Ok(()) => {
            cutter.pass(packet);
            Ok(())
        }
        Err(fault) => Err(fault),
    }
}

/// Reads the first of these bytes, and says how many they are. An `Err` leaves the marks and the counts of what was obeyed.
fn read_some(
    viewer: &mut Viewer,
    cutter: &mut Cutter,
    alloc: Global,
    bytes: &[u8],
) -> Result<usize, ClientFault>
    requires { 0 < length bytes.now }
    ensures read { (r : ClientReading) → StandFor r viewer.old cutter.old
        → ReadsSome result viewer.old.confirmed viewer.old.pictures.size r bytes.now viewer.new cutter.new }
    ensures same { SameViewer viewer.old viewer.new }
    ensures stopped { (r : ClientReading) → StandFor r viewer.old cutter.old
        → OnErr result (Stops (ComesTo viewer.old.confirmed viewer.old.pictures.size r bytes.now) viewer.new) }
    ensures some { IfOk result (λ n. 0 < n) }
    ensures few { IfOk result (λ n. n ≤ length bytes.now) }
{
    let whole = cutter.whole(bytes);
    if whole > 0 {
        return match read_packet(viewer, cutter, alloc, &bytes[..whole]) {
            Ok(()) => Ok(whole),
            Err(fault) => Err(fault),
        };
    }
    let within = cutter.take(bytes);
    if within > 0 {
        return Ok(within);
    }
    match read_byte(viewer, cutter, alloc, bytes[0]) {
        Ok(()) => Ok(1),
        Err(fault) => Err(fault),
    }
}

/// Reads the next bytes. An `Err` leaves the marks and the counts of what was obeyed.
pub(crate) fn read_bytes(
    viewer: &mut Viewer,
    cutter: &mut Cutter,
    alloc: Global,
    bytes: &[u8],
) -> Result<(), ClientFault>
    ensures read { (r : ClientReading) → StandFor r viewer.old cutter.old
        → Reads result (read_on viewer.old.confirmed viewer.old.pictures.size r bytes.now) viewer.new cutter.new }
    ensures same { SameViewer viewer.old viewer.new }
    ensures stopped { (r : ClientReading) → StandFor r viewer.old cutter.old
        → OnErr result (Stops (ComesTo viewer.old.confirmed viewer.old.pictures.size r bytes.now) viewer.new) }
{
    let mut at = 0;
    while at < bytes.len() {
        at += read_some(viewer, cutter, alloc, &bytes[at..])?;
    }
    Ok(())
}

/// Reads one whole packet: where it lies, where it is the next one; else as any bytes. An `Err` leaves the marks and the counts of what was
/// obeyed.
pub(crate) fn read_whole(
    viewer: &mut Viewer,
    cutter: &mut Cutter,
    alloc: Global,
    packet: &[u8],
) -> Result<(), ClientFault>
    requires { IsWholePacket packet.now }
    ensures read { (r : ClientReading) → StandFor r viewer.old cutter.old
        → Reads result (read_on viewer.old.confirmed viewer.old.pictures.size r packet.now) viewer.new cutter.new }
    ensures same { SameViewer viewer.old viewer.new }
    ensures stopped { (r : ClientReading) → StandFor r viewer.old cutter.old
        → OnErr result (Stops (ComesTo viewer.old.confirmed viewer.old.pictures.size r packet.now) viewer.new) }
{
    if cutter.takes(packet) {
        read_packet(viewer, cutter, alloc, packet)
    } else {
        read_bytes(viewer, cutter, alloc, packet)
    }
}
