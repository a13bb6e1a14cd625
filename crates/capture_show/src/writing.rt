//! Texts that are written.
ghost use Rattle.std.specs.Prelude.{◌≡◌, ℕ, List, IfOk, IfErr};
ghost use Rattle.capture_show.specs.Answers.{Writes, WriteCause, IsWriteFault};

use crate::{OutOfMemory, ShowFault};
use edge_io::{Sink, Wrote};

/// Writes bytes. An `Err` leaves a front of them there.
pub fn put<K: Sink>(output: &mut K, bytes: &[u8]) -> Result<(), ShowFault>
    ensures written { Writes result bytes.now (K.told output.old) (K.told output.new) }
    ensures fault { IfErr result IsWriteFault }
    ensures cause { WriteCause result (K.faults output.old) (K.faults output.new) }
{
    match output.write_all(bytes) {
        Wrote::All => Ok(()),
        Wrote::Failed => Err(ShowFault::WriteFault),
        Wrote::OutOfMemory => Err(ShowFault::OutOfMemory),
    }
}

/// Writes a text, where there was memory to make it. An `Err` leaves a front of it there.
#[tactic(auto, using(crate::proofs::Showing::nothing, crate::proofs::Showing::writes_same))]
pub(crate) fn put_made<K: Sink>(
    output: &mut K,
    made: Result<Vec<u8>, OutOfMemory>,
) -> Result<(), ShowFault>
    ensures written { (text : List ℕ) → IfOk made (λ bytes. bytes.items ≡ text) → Writes result text (K.told output.old) (K.told output.new) }
    ensures fault { IfErr result IsWriteFault }
    ensures cause { WriteCause result (K.faults output.old) (K.faults output.new) }
{
    match made {
        Ok(text) => put(output, &text),
        Err(OutOfMemory) => Err(ShowFault::OutOfMemory),
    }
}
