//! How many pixels at a place are background, and how many have one colour; what is packed as one there (profile).
ghost use Rattle.std.specs.Prelude.{◌≡◌, ◌<◌, ◌≤◌, IsFalse, IsTrue, drop, length, slice_index, zip};
ghost use Rattle.run_lengths.specs.Packer.{background_count};
ghost use Rattle.rle_enc.specs.Stretch.{HasRow, IsFirst, StandAlone, StandsIn, StartsRun, dropped, leading, piece_size, row_of, spots_of};

use crate::words::{WORD, Words};
use lane_rop::{back_run, same_run};

/// A run that is packed as one.
#[derive(Clone, Copy)]
pub enum Piece {
    /// So many pixels as one row earlier.
    Background(usize),
    /// So many pixels of one colour.
    Color(usize),
}

/// The colour of background in the first row.
const BLACK: u32 = 0;

/// How many pixels are looked at one by one before the lanes are called; most runs are shorter.
const NEAR: usize = 4;

/// The fewest pixels of one colour that are packed as a run.
const PAIR: usize = 2;

/// How many pixels from the front on have a colour.
#[inline(always)]
pub fn count_color(pixels: &[u32], color: u32) -> usize
    ensures is { result ≡ leading color pixels.now }
    ensures within { result ≤ length pixels.now }
{
    count_color_past(pixels, color, 0)
}

/// The same where so many are known to have it.
#[inline(always)]
fn count_color_past(pixels: &[u32], color: u32, known: usize) -> usize
    requires { known ≤ leading color pixels.now }
    ensures is { result ≡ leading color pixels.now }
    ensures within { result ≤ length pixels.now }
{
    let mut n = known;
    while n < pixels.len().min(NEAR) && pixels[n] == color {
        n += 1;
    }
    if n < NEAR { n } else { same_run(pixels, 0) }
}

/// How many pixels from the front on are those one row earlier.
pub fn count_same(pixels: &[u32], aboves: &[u32]) -> usize
    requires { length pixels.now ≤ length aboves.now }
    ensures is { result ≡ background_count (zip pixels.now aboves.now) }
    ensures within { result ≤ length pixels.now }
{
    let mut n = 0;
    while n < pixels.len().min(NEAR) && pixels[n] == aboves[n] {
        n += 1;
    }
    if n < NEAR {
        n
    } else {
        back_run(pixels, &aboves[..pixels.len()], 0)
    }
}

/// How many pixels from the front on are background.
fn count_background(pixels: &[u32], aboves: Option<&[u32]>) -> usize
    requires { HasRow aboves pixels.now }
    ensures is { result ≡ background_count (spots_of aboves.entry pixels.now) }
    ensures within { result ≤ length pixels.now }
{
    match aboves {
        Some(row) => count_same(pixels, row),
        None => count_color(pixels, BLACK),
    }
}

/// Whether the first pixel is neither background nor of the next one's colour.
fn is_alone(pixels: &[u32], aboves: Option<&[u32]>) -> bool
    requires some { 0 < length pixels.now }
    requires row { HasRow aboves pixels.now }
    ensures no_background { IsTrue result → background_count (spots_of aboves.entry pixels.now) ≡ 0 }
    ensures own_color { IsTrue result → leading (slice_index pixels.now 0) pixels.now ≡ 1 }
    ensures run { IsFalse result → StartsRun pixels.now (spots_of aboves.entry pixels.now) }
{
    let above = match aboves {
        Some(row) => row[0],
        None => BLACK,
    };
    pixels[0] != above && (pixels.len() < 2 || pixels[1] != pixels[0])
}

/// How many pixels from the front on are neither background nor of the next one's colour.
pub fn count_alone(pixels: &[u32], aboves: Option<&[u32]>) -> usize
    requires row { HasRow aboves pixels.now }
    ensures is { StandAlone result pixels.now (spots_of aboves.entry pixels.now) }
    ensures within { result ≤ length pixels.now }
    ensures stops { result < length pixels.now → StartsRun (drop result pixels.now) (drop result (spots_of aboves.entry pixels.now)) }
{
    let mut n = 0;
    while n < pixels.len() && is_alone(&pixels[n..], rows_from(aboves, n)) {
        n = count_alone_past(pixels, aboves, n + 1);
    }
    n
}

/// Some that are neither, where so many are known to be: those and more, by words, where the known are near ones.
#[inline(always)]
fn count_alone_past(pixels: &[u32], aboves: Option<&[u32]>, known: usize) -> usize
    requires row { HasRow aboves pixels.now }
    requires within { known ≤ length pixels.now }
    requires alone { StandAlone known pixels.now (spots_of aboves pixels.now) }
    ensures alone { StandAlone result pixels.now (spots_of aboves.entry pixels.now) }
    ensures within { result ≤ length pixels.now }
    ensures past { known ≤ result }
{
    if known != NEAR {
        return known;
    }
    match aboves {
        Some(row) => count_alone_far(pixels, row, known),
        None => known,
    }
}

/// The same by the pixels one row earlier, until a word tells of a run.
#[inline(never)]
fn count_alone_far(pixels: &[u32], row: &[u32], known: usize) -> usize
    requires row { length pixels.now ≤ length row.now }
    requires within { known ≤ length pixels.now }
    requires alone { StandAlone known pixels.now (zip pixels.now row.now) }
    ensures alone { StandAlone result pixels.now (zip pixels.now row.now) }
    ensures within { result ≤ length pixels.now }
    ensures past { known ≤ result }
{
    let mut n = known;
    while pixels.len() - n > WORD {
        let more = Words::new(&pixels[n..], &row[n..]).alone();
        n += more;
        if more < WORD {
            return n;
        }
    }
    n
}

/// Whether the pixel at a place, if there is one, has the first one's colour.
fn has_color_at(pixels: &[u32], at: usize) -> bool
    requires some { 0 < length pixels.now }
    requires within { at ≤ length pixels.now }
    ensures { IsFalse result → leading (slice_index pixels.now 0) pixels.now ≤ at }
{
    at < pixels.len() && pixels[at] == pixels[0]
}

/// The run that a stretch starts with, by the pixels one row earlier, or over black.
pub fn first_piece(pixels: &[u32], aboves: Option<&[u32]>) -> Piece
    requires some { 0 < length pixels.now }
    requires row { HasRow aboves pixels.now }
    requires run { StartsRun pixels.now (spots_of aboves pixels.now) }
    ensures is { IsFirst result pixels.now (spots_of aboves.entry pixels.now) }
    ensures within { piece_size result ≤ length pixels.now }
{
    let background = count_background(pixels, aboves);
    if background == 0 {
        return Piece::Color(count_color_past(pixels, pixels[0], PAIR));
    }
    if !has_color_at(pixels, background) {
        return Piece::Background(background);
    }
    let color = count_color(pixels, pixels[0]);
    if background >= color {
        Piece::Background(background)
    } else {
        Piece::Color(color)
    }
}

/// The pixels one row earlier from a place on.
pub fn rows_from(aboves: Option<&[u32]>, at: usize) -> Option<&[u32]>
    requires { StandsIn at aboves }
    ensures { row_of result ≡ dropped at (row_of aboves.entry) }
{
    match aboves {
        Some(row) => Some(&row[at..]),
        None => None,
    }
}
