//! A record, read to its end.
ghost use Rattle.std.specs.Prelude.{◌≡◌, ◌++◌, ℕ, List, length, IfOk, IfErr, OnOk};
ghost use Rattle.script_run.specs.Run.{ReadsCause};
ghost use Rattle.record_file.specs.Replays.{HasRead};
ghost use Rattle.record_run.specs.Replays.{HasFedAll, IsReadFault};

use crate::OutOfMemory;
use edge_io::{Got, Source};
use record_file::{Replay, ReplayFault};
use script_run::ScriptFault;
use std::alloc::Global;
use std::sync::Wait;

/// The room of a read in bytes.
const ROOM: usize = 65_536;

/// Replays a record that is read to its end, and keeps the picture after `stop` entries. What is behind its first fault is read, too.
pub(crate) fn read_record<R: Wait, S: Source>(
    rt: &R,
    alloc: Global,
    stop: u64,
    input: &mut S,
) -> Result<Replay, ScriptFault>
    ensures stop { IfOk result (λ replay. replay.told.stop ≡ stop) }
    ensures read { IfOk result (λ replay. HasFedAll replay (S.left input.old) (S.left input.new)) }
    ensures fault { IfErr result IsReadFault }
    ensures cause { ReadsCause result (S.faults input.old) (S.faults input.new) }
{
    let mut replay = Replay::new(alloc, stop)?;
    let mut bytes = new_room(alloc)?;
    let room = bytes.as_mut_slice();
    for _ in rt.forever() {
        match input.read(room) {
            Got::Bytes(count) => feed(&mut replay, &room[..count])?,
            Got::End => return Ok(replay),
            Got::Failed => return Err(ScriptFault::ReadFault),
        }
    }
    unreachable!()
}

/// The room of a read.
fn new_room(alloc: Global) -> Result<Vec<u8>, OutOfMemory>
    ensures { IfOk result (λ room. length room.items ≡ 65536) }
{
    Ok(vec![in alloc; 0; ROOM]?)
}

/// Feeds bytes to a replay, whatever it makes of them.
fn feed(replay: &mut Replay, bytes: &[u8]) -> Result<(), OutOfMemory>
    ensures stop { replay.new.told.stop ≡ replay.old.told.stop }
    ensures read { OnOk result ((stream : List ℕ) → HasRead stream replay.old → HasRead (stream ++ bytes.now) replay.new) }
{
    match replay.feed(bytes) {
        Err(ReplayFault::OutOfMemory) => Err(OutOfMemory),
        _ => Ok(()),
    }
}
