//! Runs of glyphs: `text X Y C FONT CODE:DELTA ..`, which may end with a clip.
ghost use Rattle.std.specs.Prelude.{◌≡◌, ◌∷◌, [], pos, IfOk, MatchOption};
ghost use Rattle.std.specs.Option.{option_map};
ghost use Rattle.script_rules.specs.Fields.{pair_of};
ghost use Rattle.script_rules.specs.Forms.{text_fields};
ghost use Rattle.script_lines.specs.Reading.{Reads, ReadsNone, run_of, run_parts, run_with, text_of_words};

use crate::OutOfMemory;
use crate::area::{is_clip_word, last_rect, next_point};
use crate::field::{next_color, next_small};
use draw_ops::{Drawing, Run, Shape};
use line_text::{Parts, read_number};
use px_core::Rect;
use std::alloc::Global;

/// What separates a code and a delta.
const COLON: u8 = b':';

/// The greatest code or delta (profile).
const PAIR_LIMIT: u64 = 255;

/// Where a text begins, and how it is drawn.
#[derive(Clone, Copy)]
struct Pen {
    x: i32,
    y: i32,
    color: u32,
    font: u8,
}

/// The glyphs of a text, and its clip.
#[derive(Drop)]
struct GlyphRun {
    pairs: Vec<(u8, u8)>,
    clip: Option<Rect>,
}

/// `text X Y C FONT CODE:DELTA ..`.
pub(crate) fn read_text(
    alloc: Global,
    words: &mut Parts<'_>,
) -> Result<Option<Drawing>, OutOfMemory>
    ensures { IfOk result (λ d. d ≡ text_of_words words.old) }
{
    let Some(pen) = next_pen(words) else {
        return Ok(None);
    };
    let Some(run) = last_run(alloc, words)? else {
        return Ok(None);
    };
    let shape = Shape::Text {
        x: pen.x,
        y: pen.y,
        color: pen.color,
        font: pen.font,
        run: Run::new(alloc, &run.pairs)?,
    };
    Ok(Some(Drawing {
        shape,
        clip: run.clip,
    }))
}

/// Where a text begins, and how it is drawn, by the next words.
fn next_pen(words: &mut Parts<'_>) -> Option<Pen>
    ensures { MatchOption result (ReadsNone text_fields words.old)
        (λ p. Reads text_fields (p.x ∷ p.y ∷ pos p.color ∷ pos p.font ∷ []) words.old words.new) }
{
    let from = next_point(words)?;
    let color = next_color(words)?;
    let font = next_small(words)?;
    Some(Pen {
        x: from.x,
        y: from.y,
        color,
        font,
    })
}

/// The glyphs that all words left are, and the clip behind them.
fn last_run(alloc: Global, words: &mut Parts<'_>) -> Result<Option<GlyphRun>, OutOfMemory>
    ensures { IfOk result (λ found. option_map run_parts found ≡ run_of words.old) }
{
    let mut pairs = Vec::new(alloc);
    while let Some(word) = words.next_part() {
        if is_clip_word(word) {
            return Ok(with_clip(pairs, last_rect(words)));
        }
        match read_pair(word) {
            Some(pair) => pairs.push(pair)?,
            None => return Ok(None),
        }
    }
    Ok(Some(GlyphRun { pairs, clip: None }))
}

/// Glyphs with a clip, where there is one.
fn with_clip(pairs: Vec<(u8, u8)>, clip: Option<Rect>) -> Option<GlyphRun>
    ensures { option_map run_parts result ≡ option_map (run_with pairs.items) clip }
{
    match clip {
        Some(clip) => Some(GlyphRun {
            pairs,
            clip: Some(clip),
        }),
        None => None,
    }
}

/// A code and a delta, with a colon between.
fn read_pair(word: &[u8]) -> Option<(u8, u8)>
    ensures { result ≡ pair_of word.now }
{
    let mut parts = Parts::new(word, COLON);
    let code = parts.next_part()?;
    let delta = parts.next_part()?;
    match parts.next_part() {
        Some(_) => None,
        None => Some((
            read_number(code, PAIR_LIMIT)? as u8,
            read_number(delta, PAIR_LIMIT)? as u8,
        )),
    }
}
