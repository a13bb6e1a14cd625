//! Packs one stretch of pixels: the first row, or the rest.
ghost use Rattle.std.specs.Prelude.{◌≡◌, ◌+◌, ◌<◌, ◌≤◌, ◌++◌, IfOk, OnOk, flat_map, length, zip};
ghost use Rattle.run_lengths.specs.Packer.{packed_runs, run_bytes};
ghost use Rattle.rle_enc.specs.Stretch.{HasRow, IsPackedTo, piece_run, piece_size, spots_of};

use crate::counts::{Piece, count_alone, first_piece, rows_from};
use crate::orders::{write_background, write_color, write_first, write_literals};
use crate::words::Words;
use px_core::Depth;
use std::alloc::AllocError;

/// So many pixels of a word are most of them.
const MOST: usize = 48;

/// How many pixels stand behind the first one of a word at least: four can be read from each of its pixels on.
const REACH: usize = 66;

/// Appends the orders of a stretch, by the pixels one row earlier, or over black.
pub fn pack_stretch(
    out: &mut Vec<u8>,
    pixels: &[u32],
    aboves: Option<&[u32]>,
    depth: Depth,
) -> Result<(), AllocError>
    requires few { length pixels.now < 65536 }
    requires row { HasRow aboves pixels.now }
    ensures { OnOk result (out.new.items ≡ out.old.items ++ flat_map (run_bytes depth) (packed_runs (spots_of aboves.entry pixels.now))) }
{
    let mut at = 0;
    while at < pixels.len() {
        at = pack_told(out, pixels, aboves, at, depth)?;
        at = pack_next(out, pixels, aboves, at, depth)?;
    }
    Ok(())
}

/// Appends what comes first from a place on: pixels that stand for themselves, and the run behind them, if there is one; the place behind it.
fn pack_next(
    out: &mut Vec<u8>,
    pixels: &[u32],
    aboves: Option<&[u32]>,
    from: usize,
    depth: Depth,
) -> Result<usize, AllocError>
    requires few { length pixels.now < 65536 }
    requires row { HasRow aboves pixels.now }
    requires from { from < length pixels.now }
    ensures packed { IfOk result (IsPackedTo depth (spots_of aboves.entry pixels.now) from out.old.items out.new.items) }
    ensures within { IfOk result (λ to. to ≤ length pixels.now) }
    ensures some { IfOk result (λ to. from < to) }
{
    let at = from + count_alone(&pixels[from..], rows_from(aboves, from));
    write_literals(out, &pixels[from..at], depth)?;
    if at == pixels.len() {
        return Ok(at);
    }
    let piece = first_piece(&pixels[at..], rows_from(aboves, at));
    write_piece(out, piece, pixels[at], depth)?;
    Ok(at + size_of(piece))
}

/// Appends what words tell of whole, from a place on; the place behind it.
fn pack_told(
    out: &mut Vec<u8>,
    pixels: &[u32],
    aboves: Option<&[u32]>,
    from: usize,
    depth: Depth,
) -> Result<usize, AllocError>
    requires few { length pixels.now < 65536 }
    requires row { HasRow aboves pixels.now }
    requires from { from < length pixels.now }
    ensures packed { IfOk result (IsPackedTo depth (spots_of aboves.entry pixels.now) from out.old.items out.new.items) }
    ensures within { IfOk result (λ to. to < length pixels.now) }
{
    match aboves {
        Some(row) => pack_by_words(out, pixels, row, from, depth),
        None => Ok(from),
    }
}

/// The same by the pixels one row earlier, two words after the other, until they tell of few whole: something long follows.
fn pack_by_words(
    out: &mut Vec<u8>,
    pixels: &[u32],
    row: &[u32],
    from: usize,
    depth: Depth,
) -> Result<usize, AllocError>
    requires few { length pixels.now < 65536 }
    requires row { length pixels.now ≤ length row.now }
    requires from { from < length pixels.now }
    ensures packed { IfOk result (IsPackedTo depth (zip pixels.now row.now) from out.old.items out.new.items) }
    ensures within { IfOk result (λ to. to < length pixels.now) }
{
    let mut at = from;
    while pixels.len() - at > REACH {
        let from = at;
        at = pack_words(out, pixels, row, from, depth)?;
        if at - from < MOST {
            return Ok(at);
        }
    }
    Ok(at)
}

/// The same by the two words of the pixels from that place on.
fn pack_words(
    out: &mut Vec<u8>,
    pixels: &[u32],
    row: &[u32],
    from: usize,
    depth: Depth,
) -> Result<usize, AllocError>
    requires few { length pixels.now < 65536 }
    requires row { length pixels.now ≤ length row.now }
    requires from { from + 67 ≤ length pixels.now }
    ensures packed { IfOk result (IsPackedTo depth (zip pixels.now row.now) from out.old.items out.new.items) }
    ensures within { IfOk result (λ to. to < length pixels.now) }
{
    let mut at = from;
    let mut words = Words::new(&pixels[from..], &row[from..]);
    while let Some(counts) = words.first() {
        let start = at + counts.alone;
        let piece = counts.piece();
        write_first(out, &pixels[at..], counts.alone, depth)?;
        write_piece(out, piece, pixels[start], depth)?;
        let size = counts.alone + size_of(piece);
        words = words.past(size);
        at += size;
    }
    Ok(at)
}

/// Appends the order of a run.
#[inline(always)]
fn write_piece(out: &mut Vec<u8>, piece: Piece, color: u32, depth: Depth) -> Result<(), AllocError>
    requires { piece_size piece < 65536 }
    ensures { OnOk result (out.new.items ≡ out.old.items ++ run_bytes depth (piece_run color piece)) }
{
    match piece {
        Piece::Background(n) => write_background(out, n),
        Piece::Color(n) => write_color(out, n, color, depth),
    }
}

/// How many pixels a run has.
#[inline(always)]
fn size_of(piece: Piece) -> usize
    ensures { result ≡ piece_size piece }
{
    match piece {
        Piece::Background(n) => n,
        Piece::Color(n) => n,
    }
}
