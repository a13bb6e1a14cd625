//! A capture, read to its end for one of its viewers.
ghost use Rattle.std.specs.Prelude.{IfErr};
ghost use Rattle.capture_show.specs.Answers.{ReadsCapture, ReadCause, IsReadFault};

use crate::ShowFault;
use crate::capture_reader::{CaptureReader, Told};
use crate::stage::{Stage, advance, finish};
use edge_io::Source;
use std::alloc::Global;
use std::sync::Wait;

/// Reads a capture to its end for one of its viewers.
pub(crate) fn read_capture<R: Wait, S: Source>(
    rt: &R,
    alloc: Global,
    viewer: u16,
    input: &mut S,
) -> Result<Stage, ShowFault>
    ensures stage { ReadsCapture result viewer (S.left input.old) (S.left input.new) }
    ensures fault { IfErr result IsReadFault }
    ensures cause { ReadCause result (S.faults input.old) (S.faults input.new) }
{
    let mut reader = CaptureReader::new(alloc, viewer)?;
    let mut stage = Stage::NotJoined;
    let mut kept = Vec::new(alloc);
    for _ in rt.forever() {
        let told = reader.next_line(input)?;
        match told {
            Told::End => {
                finish(&mut stage)?;
                return Ok(stage);
            }
            Told::Failed => return Err(ShowFault::ReadFault),
            _ => advance(alloc, &mut stage, told, reader.bytes(), &mut kept)?,
        }
    }
    unreachable!()
}
