//! A picture, written row by row.
ghost use Rattle.std.specs.Prelude.{◌≡◌, ℕ, List, IfOk, IfErr};
ghost use Rattle.script_run.specs.Run.{WritesCause};
ghost use Rattle.script_run.specs.Steps.{IsWriteFault};
ghost use Rattle.record_rules.specs.Fields.{colors_bytes};
ghost use Rattle.record_run.specs.Shown.{text_of};
ghost use Rattle.record_run.specs.Shown.Shown.{Pictured};
ghost use Rattle.record_run.specs.Replays.{Writes};

use crate::OutOfMemory;
use crate::text::{add_pixels, picture_head};
use edge_io::Sink;
use px_core::Size;
use script_run::{ScriptFault, put};
use std::alloc::Global;

/// How many pixels are written at once.
const PIECE: usize = 2_048;

/// Writes the picture after so many entries. An `Err` leaves a front of it there.
pub(crate) fn write_picture<K: Sink>(
    alloc: Global,
    output: &mut K,
    stop: u64,
    size: Size,
    pixels: &[u32],
) -> Result<(), ScriptFault>
    ensures written { Writes result (text_of stop (Pictured size pixels.now)) (K.told output.old) (K.told output.new) }
    ensures fault { IfErr result IsWriteFault }
    ensures cause { WritesCause result (K.faults output.old) (K.faults output.new) }
{
    put_made(output, picture_head(alloc, size, stop))?;
    write_pixels(alloc, output, pixels)
}

/// Writes pixels, so many at once. An `Err` leaves a front of them there.
#[tactic(auto, using(crate::proofs::Written::put_none))]
fn write_pixels<K: Sink>(alloc: Global, output: &mut K, pixels: &[u32]) -> Result<(), ScriptFault>
    ensures written { Writes result (colors_bytes pixels.now) (K.told output.old) (K.told output.new) }
    ensures fault { IfErr result IsWriteFault }
    ensures cause { WritesCause result (K.faults output.old) (K.faults output.new) }
{
    let mut text = Vec::new(alloc);
    let mut left = pixels;
    while !left.is_empty() {
        let (colors, more) = left.split_at(left.len().min(PIECE));
        write_piece(output, &mut text, colors)?;
        left = more;
    }
    Ok(())
}

/// Writes pixels at once; `text` is room for them. An `Err` leaves a front of them there.
#[tactic(auto, using(crate::proofs::Written::nothing))]
fn write_piece<K: Sink>(
    output: &mut K,
    text: &mut Vec<u8>,
    pixels: &[u32],
) -> Result<(), ScriptFault>
    ensures written { Writes result (colors_bytes pixels.now) (K.told output.old) (K.told output.new) }
    ensures fault { IfErr result IsWriteFault }
    ensures cause { WritesCause result (K.faults output.old) (K.faults output.new) }
{
    text.clear();
    match add_pixels(text, pixels) {
        Ok(()) => put(output, text),
        Err(OutOfMemory) => Err(ScriptFault::OutOfMemory),
    }
}

/// Writes a text, where there was memory to make it. An `Err` leaves a front of it there.
pub(crate) fn put_made<K: Sink>(
    output: &mut K,
    made: Result<Vec<u8>, OutOfMemory>,
) -> Result<(), ScriptFault>
    ensures written { (text : List ℕ) → IfOk made (λ bytes. bytes.items ≡ text) → Writes result text (K.told output.old) (K.told output.new) }
    ensures fault { IfErr result IsWriteFault }
    ensures cause { WritesCause result (K.faults output.old) (K.faults output.new) }
{
    match made {
        Ok(text) => put(output, &text),
        Err(OutOfMemory) => Err(ScriptFault::OutOfMemory),
    }
}
