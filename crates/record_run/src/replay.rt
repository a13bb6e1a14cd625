ghost use Rattle.std.specs.Prelude.{◌≡◌, ℕ, List, None, IfErr, IfOk, false};
ghost use Rattle.script_run.specs.Run.{ReadsCause, WritesCause};
ghost use Rattle.script_run.specs.Steps.{IsWriteFault};
ghost use Rattle.record_rules.specs.Records.{journal_of_record};
ghost use Rattle.record_file.specs.Replaying.{replayed};
ghost use Rattle.record_file.specs.Replays.{HasRead};
ghost use Rattle.record_run.specs.Shown.{Shown, shown, text_of, is_picture};
ghost use Rattle.record_run.specs.Replays.{ReplaysRecord, WritesShown};

use crate::OutOfMemory;
use crate::picture::{put_made, write_picture};
use crate::read::read_record;
use crate::text::number_line;
use edge_io::{Sink, Source};
use record_file::{Replay, ReplayFault};
use script_run::ScriptFault;
use std::alloc::Global;
use std::sync::Wait;

/// The words of the lines that say why there is no picture.
const RECORD: &[u8] = b"record ";

const ENTRY: &[u8] = b"entry ";

const ONLY: &[u8] = b"only ";

/// Reads a record to its end, and writes the picture after `stop` of its entries; says whether there is one.
///
/// Else a line says at which place the record breaks its form, or its head ends, which entry, counted from 0, isn't legal, or how many
/// entries there are. An `Err` leaves a front of the text there.
#[tactic(auto, using(crate::proofs::Runs::shown_whole, crate::proofs::Runs::reads_same, crate::proofs::Runs::stops_reading, crate::proofs::Runs::stops_cause, crate::proofs::Runs::same_reads_cause))]
pub fn replay_record<R: Wait, S: Source, K: Sink>(
    rt: &R,
    alloc: Global,
    stop: u64,
    input: &mut S,
    output: &mut K,
) -> Result<bool, ScriptFault>
    ensures record { ReplaysRecord result stop (S.left input.old) (S.left input.new) (K.told output.old) (K.told output.new) }
    ensures read { ReadsCause result (S.faults input.old) (S.faults input.new) }
    ensures write { WritesCause result (K.faults output.old) (K.faults output.new) }
{
    match read_record(rt, alloc, stop, input) {
        Ok(mut replay) => show(alloc, output, stop, &mut replay),
        Err(fault) => Err(fault),
    }
}

/// Writes what a replay shows that was fed all of its record.
fn show<K: Sink>(
    alloc: Global,
    output: &mut K,
    stop: u64,
    replay: &mut Replay,
) -> Result<bool, ScriptFault>
    requires { replay.old.told.stop ≡ stop }
    ensures written { (stream : List ℕ) → HasRead stream replay.old → WritesShown result stop (shown stop stream) (K.told output.old) (K.told output.new) }
    ensures fault { IfErr result IsWriteFault }
    ensures cause { WritesCause result (K.faults output.old) (K.faults output.new) }
{
    match replay.feed(&[]) {
        Ok(()) => show_whole(alloc, output, stop, replay),
        Err(ReplayFault::BadRecord { at }) => refuse(output, number_line(alloc, RECORD, at)),
        Err(ReplayFault::Illegal { k }) => refuse(output, number_line(alloc, ENTRY, k)),
        Err(ReplayFault::OutOfMemory) => Err(ScriptFault::OutOfMemory),
    }
}

/// Writes what a replay shows in which no fault was found.
fn show_whole<K: Sink>(
    alloc: Global,
    output: &mut K,
    stop: u64,
    replay: &Replay,
) -> Result<bool, ScriptFault>
    requires { replay.now.told.stop ≡ stop }
    ensures written { (stream : List ℕ) → HasRead stream replay.now → (replayed stream).fault ≡ None
        → WritesShown result stop (shown stop stream) (K.told output.old) (K.told output.new) }
    ensures fault { IfErr result IsWriteFault }
    ensures cause { WritesCause result (K.faults output.old) (K.faults output.new) }
{
    if let Some(at) = replay.missing() {
        return refuse(output, number_line(alloc, RECORD, at));
    }
    match (replay.size(), replay.picture()) {
        (Some(size), Some(pixels)) => {
            write_picture(alloc, output, stop, size, pixels)?;
            Ok(true)
        }
        (_, _) => refuse(output, number_line(alloc, ONLY, replay.length())),
    }
}

/// Writes why there is no picture, where there was memory to say it.
fn refuse<K: Sink>(output: &mut K, made: Result<Vec<u8>, OutOfMemory>) -> Result<bool, ScriptFault>
    ensures written { (s : Shown) (stop : ℕ) → is_picture s ≡ false → IfOk made (λ bytes. bytes.items ≡ text_of stop s)
        → WritesShown result stop s (K.told output.old) (K.told output.new) }
    ensures fault { IfErr result IsWriteFault }
    ensures cause { WritesCause result (K.faults output.old) (K.faults output.new) }
{
    put_made(output, made)?;
    Ok(false)
}
