//! What is written.

ghost use Rattle.std.specs.Prelude.{◌<◌, OnOk, OnErr, IfErr};
ghost use Rattle.std.specs.Io.KnownBytes.{Appends};
ghost use Rattle.edge_io.specs.Sink.{WritesFront};
ghost use Rattle.mcs_dom.specs.Ultimatum.{ultimatum_packet};
ghost use Rattle.answer_run.specs.Service.{ultimatum_of};
ghost use Rattle.answer_run.specs.Visits.{WritesCause, IsWriteFault};

use crate::{AnswerFault, Ending};
use edge_io::{Sink, Wrote};
use mcs_dom::write_end;
use std::alloc::Global;

/// The reason of an ultimatum to a client that is refused, rn-provider-initiated.
const REFUSED: u8 = 1;

/// The reason of an ultimatum to a client that asked for the end, rn-user-requested.
const ASKED_FOR: u8 = 3;

/// Writes bytes; where there are none the output isn't called. An `Err` leaves a front of them there.
pub fn put<K: Sink>(output: &mut K, bytes: &[u8]) -> Result<(), AnswerFault>
    ensures written { OnOk result (Appends (K.told output.old) (K.told output.new) bytes.now) }
    ensures front { OnErr result (WritesFront (K.told output.old) (K.told output.new) bytes.now) }
    ensures fault { IfErr result IsWriteFault }
    ensures cause { WritesCause result (K.faults output.old) (K.faults output.new) }
{
    if bytes.is_empty() {
        return Ok(());
    }
    match output.write_all(bytes) {
        Wrote::All => Ok(()),
        Wrote::Failed => Err(AnswerFault::WriteFault),
        Wrote::OutOfMemory => Err(AnswerFault::OutOfMemory),
    }
}

/// Writes the ultimatum that is due at an end, where one is. An `Err` leaves a front of it there.
pub fn put_last<K: Sink>(alloc: Global, output: &mut K, how: Ending) -> Result<(), AnswerFault>
    ensures written { OnOk result (Appends (K.told output.old) (K.told output.new) (ultimatum_of how)) }
    ensures front { OnErr result (WritesFront (K.told output.old) (K.told output.new) (ultimatum_of how)) }
    ensures fault { IfErr result IsWriteFault }
    ensures cause { WritesCause result (K.faults output.old) (K.faults output.new) }
{
    match how {
        Ending::Left | Ending::Truncated => put(output, &[]),
        Ending::AskedForEnd => put_ultimatum(alloc, output, ASKED_FOR),
        Ending::Refused { .. } | Ending::NotInvited => put_ultimatum(alloc, output, REFUSED),
    }
}

/// Writes a Disconnect Provider Ultimatum with this reason. An `Err` leaves a front of it there.
fn put_ultimatum<K: Sink>(alloc: Global, output: &mut K, reason: u8) -> Result<(), AnswerFault>
    requires { reason < 5 }
    ensures written { OnOk result (Appends (K.told output.old) (K.told output.new) (ultimatum_packet reason)) }
    ensures front { OnErr result (WritesFront (K.told output.old) (K.told output.new) (ultimatum_packet reason)) }
    ensures fault { IfErr result IsWriteFault }
    ensures cause { WritesCause result (K.faults output.old) (K.faults output.new) }
{
    let mut packet = Vec::new(alloc);
    write_end(&mut packet, reason)?;
    put(output, &packet)
}
