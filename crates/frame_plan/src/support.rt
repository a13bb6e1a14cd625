//! Which drawings a viewer can be sent as orders, by what it confirmed (profile).
ghost use Rattle.std.specs.Prelude.{◌≡◌, ℕ, ◌*◌, ◌&&◌, not, is_some, map, option_copied};
ghost use Rattle.cache_plan.specs.CacheUse.{is_used};
ghost use Rattle.caps_sets.specs.Confirmed.{first_cache};
ghost use Rattle.frame_rules.specs.Support.{serves_image, greatest_cell, distinct_loads, image_cache, run_cache, has_glyph_level};

use crate::needs::{Needs, first_cache};
use caps_sets::Confirmed;
use draw_ops::Image;
use session_core::{LoadedGlyph, LoadedImage};

/// The most entries of a bitmap cache that are used.
const BITMAP_ENTRIES: usize = 512;

/// The most entries of a glyph cache that are used.
const GLYPH_ENTRIES: usize = 254;

/// The bytes in which cells are counted here: each cell is a multiple.
const WORD: usize = 4;

/// The bytes of a pixel in a cell.
const PIXEL: usize = 3;

/// The number of the bitmap cache that an image goes to, where there is one and one serves.
pub(crate) fn cache_of_image(confirmed: &Confirmed, image: Option<&LoadedImage>) -> Option<u8>
    ensures { result ≡ image_cache confirmed.now (option_copied image.entry) }
{
    match image {
        Some(image) => bitmap_cache(confirmed, image.content()),
        None => None,
    }
}

/// The number of the bitmap cache that an image goes to, where one serves.
fn bitmap_cache(confirmed: &Confirmed, image: &Image) -> Option<u8>
    ensures { result ≡ first_cache (serves_image image.now) confirmed.now.bitmaps }
{
    let columns = usize::from(image.w()).div_ceil(WORD);
    let needs = Needs {
        entries: 1,
        most: BITMAP_ENTRIES,
        words: PIXEL * (columns * usize::from(image.h())),
    };
    first_cache(confirmed.bitmaps.sizes(), needs)
}

/// The number of the glyph cache that glyphs of a run go to, where one serves.
pub(crate) fn cache_of_run(confirmed: &Confirmed, glyphs: &[LoadedGlyph]) -> Option<u8>
    ensures { result ≡ run_cache confirmed.now glyphs.now }
{
    let needs = Needs {
        entries: distinct_loads(glyphs),
        most: GLYPH_ENTRIES,
        words: greatest_words(glyphs),
    };
    first_cache(confirmed.glyphs.sizes(), needs)
}

/// How many different loads a run draws.
fn distinct_loads(glyphs: &[LoadedGlyph]) -> usize
    ensures { result ≡ distinct_loads glyphs.now }
{
    let mut count = 0;
    for at in 0..glyphs.len() {
        if !is_among(glyphs[at].number(), &glyphs[at + 1..]) {
            count += 1;
        }
    }
    count
}

/// Whether a load is among those of glyphs.
fn is_among(number: u64, glyphs: &[LoadedGlyph]) -> bool
    ensures { result ≡ is_used number (map (λ g. g.number) glyphs.now) }
{
    for glyph in glyphs {
        if number == glyph.number() {
            return true;
        }
    }
    false
}

/// The cell of the greatest glyph of a run, in words.
fn greatest_words(glyphs: &[LoadedGlyph]) -> usize
    ensures { 4 * result ≡ greatest_cell glyphs.now }
{
    let mut most = 0;
    for glyph in glyphs {
        most = most.max(glyph.content().bits().len().div_ceil(WORD));
    }
    most
}

/// Whether a level of glyph support has glyph caches.
fn has_glyph_level(level: u16) -> bool
    ensures { result ≡ has_glyph_level level }
{
    1 <= level && level <= 2
}

/// Whether the viewer has the order of a run of glyphs, and a cache that holds them.
pub(crate) fn supports_text(confirmed: &Confirmed, cache: Option<u8>) -> bool
    ensures { result ≡ (not confirmed.now.cautious && ((confirmed.now.glyph && has_glyph_level confirmed.now.glyph_level) && is_some cache)) }
{
    !confirmed.cautious
        && confirmed.glyph
        && has_glyph_level(confirmed.glyph_level)
        && cache.is_some()
}
