//! The fields of a line: one reader for each kind, which takes the next word.
ghost use Rattle.std.specs.Prelude.{◌∷◌, [], pos, MatchOption};
ghost use Rattle.script_rules.specs.Fields.Field.{Coordinate, Count, Small, Digits};
ghost use Rattle.script_lines.specs.Reading.{Reads, ReadsNone};

use line_text::{Parts, read_coordinate, read_hexadecimal, read_number};

/// The greatest count, as of columns or of rows (profile).
const COUNT_LIMIT: u64 = 65_535;

/// The greatest small number, as of a slot or of a brush (profile).
const SMALL_LIMIT: u64 = 255;

/// How many hexadecimal digits a colour has.
const COLOR_DIGITS: usize = 6;

/// How many hexadecimal digits the code of a raster operation has.
const ROP_DIGITS: usize = 2;

/// How many hexadecimal digits the flags of a mouse event have.
const FLAG_DIGITS: usize = 4;

/// The coordinate that the next word is.
pub(crate) fn next_coordinate(words: &mut Parts<'_>) -> Option<i32>
    ensures { MatchOption result (ReadsNone (Coordinate ∷ []) words.old) (λ z. Reads (Coordinate ∷ []) (z ∷ []) words.old words.new) }
{
    read_coordinate(words.next_part()?)
}

/// The count that the next word is.
pub(crate) fn next_count(words: &mut Parts<'_>) -> Option<u16>
    ensures { MatchOption result (ReadsNone (Count ∷ []) words.old) (λ n. Reads (Count ∷ []) (pos n ∷ []) words.old words.new) }
{
    let count = read_number(words.next_part()?, COUNT_LIMIT)?;
    Some(count as u16)
}

/// The slot, font, code, image or brush that the next word is.
pub(crate) fn next_small(words: &mut Parts<'_>) -> Option<u8>
    ensures { MatchOption result (ReadsNone (Small ∷ []) words.old) (λ n. Reads (Small ∷ []) (pos n ∷ []) words.old words.new) }
{
    let small = read_number(words.next_part()?, SMALL_LIMIT)?;
    Some(small as u8)
}

/// The colour that the next word is, red first.
pub(crate) fn next_color(words: &mut Parts<'_>) -> Option<u32>
    ensures { MatchOption result (ReadsNone (Digits 6 ∷ []) words.old) (λ n. Reads (Digits 6 ∷ []) (pos n ∷ []) words.old words.new) }
{
    read_hexadecimal(words.next_part()?, COLOR_DIGITS)
}

/// The code of a raster operation that the next word is.
pub(crate) fn next_rop(words: &mut Parts<'_>) -> Option<u8>
    ensures { MatchOption result (ReadsNone (Digits 2 ∷ []) words.old) (λ n. Reads (Digits 2 ∷ []) (pos n ∷ []) words.old words.new) }
{
    let code = read_hexadecimal(words.next_part()?, ROP_DIGITS)?;
    Some(code as u8)
}

/// The flags of a mouse event that the next word is.
pub(crate) fn next_flags(words: &mut Parts<'_>) -> Option<u16>
    ensures { MatchOption result (ReadsNone (Digits 4 ∷ []) words.old) (λ n. Reads (Digits 4 ∷ []) (pos n ∷ []) words.old words.new) }
{
    let flags = read_hexadecimal(words.next_part()?, FLAG_DIGITS)?;
    Some(flags as u16)
}
