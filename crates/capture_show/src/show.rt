ghost use Rattle.std.specs.Prelude.{◌≡◌, ◌<◌, ℕ, IfErr};
ghost use Rattle.std.specs.Bool.{MatchBool};
ghost use Rattle.client_view.specs.Views.{capped};
ghost use Rattle.capture_show.specs.Shown.{Shown, text_of, is_accepted};
ghost use Rattle.capture_show.specs.Shown.Shown.{RefusedAt, Unmarked};
ghost use Rattle.capture_show.specs.Stages.{Shows, ShowsReading};
ghost use Rattle.capture_show.specs.Answers.{ShowsCapture, Writes, WritesShown, ReadCause, WriteCause, IsWriteFault};

use crate::ShowFault;
use crate::picture::write_picture;
use crate::read::read_capture;
use crate::stage::Stage;
use crate::text::number_line;
use crate::writing::{put, put_made};
use client_view::Client;
use edge_io::{Sink, Source};
use std::alloc::Global;
use std::sync::Wait;

/// The line that says that no line joins the viewer.
const NOBODY: &[u8] = b"line 0\n";

/// The line that says that there was no mark.
const NO_MARK: &[u8] = b"no mark\n";

/// Reads a capture to its end, and writes what it shows one of its viewers; says whether the capture and the viewer's bytes are accepted.
/// The packets of pointers are taken out of these before they are read, and places and counts are without them.
///
/// A picture is that of the last mark. A line says that there was no mark, at which place the viewer's bytes are refused, which line breaks
/// the rules of captures, or, with number 0, that no line joins the viewer; a broken line goes before a missing join, and both go before a
/// refused place. An `Err` leaves a front of the text there.
#[tactic(auto, using(crate::proofs::Showing::shown_whole, crate::proofs::Showing::reads_same, crate::proofs::Showing::stops_reading, crate::proofs::Showing::stops_cause))]
pub fn show_capture<R: Wait, S: Source, K: Sink>(
    rt: &R,
    alloc: Global,
    viewer: u16,
    input: &mut S,
    output: &mut K,
) -> Result<bool, ShowFault>
    ensures capture { ShowsCapture result viewer (S.left input.old) (S.left input.new) (K.told output.old) (K.told output.new) }
    ensures read { ReadCause result (S.faults input.old) (S.faults input.new) }
    ensures write { WriteCause result (K.faults output.old) (K.faults output.new) }
{
    match read_capture(rt, alloc, viewer, input) {
        Ok(stage) => write_stage(alloc, &stage, output),
        Err(fault) => Err(fault),
    }
}

/// Writes what a stage at a capture's end shows.
fn write_stage<K: Sink>(alloc: Global, stage: &Stage, output: &mut K) -> Result<bool, ShowFault>
    ensures written { (s : Shown) → Shows stage.now s → WritesShown result s (K.told output.old) (K.told output.new) }
    ensures fault { IfErr result IsWriteFault }
    ensures cause { WriteCause result (K.faults output.old) (K.faults output.new) }
{
    match write_text(alloc, stage, output) {
        Ok(()) => Ok(is_accepted(stage)),
        Err(fault) => Err(fault),
    }
}

/// Whether the capture and the viewer's bytes are accepted.
fn is_accepted(stage: &Stage) -> bool
    ensures { (s : Shown) → Shows stage.now s → result ≡ is_accepted s }
{
    matches!(stage, Stage::Reads { .. })
}

/// Writes the text of what a stage at a capture's end shows. An `Err` leaves a front of it there.
fn write_text<K: Sink>(alloc: Global, stage: &Stage, output: &mut K) -> Result<(), ShowFault>
    ensures written { (s : Shown) → Shows stage.now s → Writes result (text_of s) (K.told output.old) (K.told output.new) }
    ensures fault { IfErr result IsWriteFault }
    ensures cause { WriteCause result (K.faults output.old) (K.faults output.new) }
{
    match stage {
        Stage::NotJoined => put(output, NOBODY),
        Stage::Reads { client, .. } => write_client(alloc, client, output),
        Stage::Refused { at } => write_refused(alloc, *at, output),
        Stage::Broken { line } => put_made(output, number_line(alloc, b"line ", *line)),
    }
}

/// Writes the line that says at which place a viewer's bytes are refused. An `Err` leaves a front of it there.
pub fn write_refused<K: Sink>(alloc: Global, at: u64, output: &mut K) -> Result<(), ShowFault>
    ensures written { (place : ℕ) → at ≡ capped place → Writes result (text_of (RefusedAt place)) (K.told output.old) (K.told output.new) }
    ensures fault { IfErr result IsWriteFault }
    ensures cause { WriteCause result (K.faults output.old) (K.faults output.new) }
{
    put_made(output, number_line(alloc, b"refused ", at))
}

/// Writes the picture of a client's last mark, with what was counted, or that there was no mark. An `Err` leaves a front of it there.
pub fn write_client<K: Sink>(
    alloc: Global,
    client: &Client,
    output: &mut K,
) -> Result<(), ShowFault>
    ensures written { (s : Shown) → ShowsReading client.now s → Writes result (text_of s) (K.told output.old) (K.told output.new) }
    ensures fault { IfErr result IsWriteFault }
    ensures cause { WriteCause result (K.faults output.old) (K.faults output.new) }
{
    if has_mark(client) {
        write_picture(alloc, client, output)
    } else {
        write_no_mark(output)
    }
}

/// Writes the line that says that there was no mark. An `Err` leaves a front of it there.
pub fn write_no_mark<K: Sink>(output: &mut K) -> Result<(), ShowFault>
    ensures written { Writes result (text_of Unmarked) (K.told output.old) (K.told output.new) }
    ensures fault { IfErr result IsWriteFault }
    ensures cause { WriteCause result (K.faults output.old) (K.faults output.new) }
{
    put(output, NO_MARK)
}

/// Whether a client has met a mark.
fn has_mark(client: &Client) -> bool
    ensures { MatchBool result (0 < client.now.viewer.marks) (0 ≡ client.now.viewer.marks) }
{
    client.marks() > 0
}
