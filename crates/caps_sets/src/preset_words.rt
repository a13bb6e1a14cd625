//! The words that say what a script's viewer confirmed (profile): a preset, and then overrides.
//!
//! | word | what it confirms |
//! |---|---|
//! | `plain` | opaque rectangles alone, and no caches |
//! | `bare` | all orders, and caches without an entry |
//! | `full` | all orders, and all caches |
//! | `marked` | what `full` does, and frame markers |
//!
//! | override | what it changes |
//! |---|---|
//! | `bcK=E,C` | bitmap cache K, 0 to 2, has E entries of at most C bytes |
//! | `gcK=E,C` | glyph cache K, 0 to 9, likewise |
//! | `cautious` | drawings are cut before they are sent |
//! | `fast` | updates go in packets of the fast path |
//! | `bpp=16` | pixels are shown at 16 bits; a preset's own 24 have no word |
//! | `pointer=N` | N shapes of pointers are kept, 0 to 25; a preset itself keeps none |

ghost use Rattle.std.specs.Prelude.{◌≡◌};
ghost use Rattle.line_text.specs.Words.{parts_at, words_of};
ghost use Rattle.caps_sets.specs.Confirmed.{sized, plain, bare, full, marked, with_bitmap_cache, with_glyph_cache};
ghost use Rattle.caps_sets.specs.Presets.{presets, preset_named, size_by, with_cache, overridden, is_pointer_word, with_pointers, overridden_word};
ghost use Rattle.caps_sets.specs.Presets.{confirmed_by};

use crate::pointer_set::MOST_POINTERS;
use crate::{BITMAP_CACHES, CacheSize, Caches, Confirmed, GLYPH_CACHES};
use line_text::{Parts, is_same_word, read_number};
use px_core::Depth;

/// What separates entries and cell.
const COMMA: u8 = b',';

/// The greatest number of entries, and the greatest cell in bytes.
const CACHE_LIMIT: u64 = 65_535;

/// What an override of the number of pointers begins with.
const POINTER: &[u8] = b"pointer=";

/// The glyphs' support level of a viewer that takes them whole ([MS-RDPBCGR] 2.2.7.1.8).
const GLYPH_SUPPORT_FULL: u16 = 2;

/// A cache without an entry.
const NO_CACHE: CacheSize = CacheSize {
    entries: 0,
    cell: 0,
};

/// What preset words confirm, with single spaces between them; later overrides count. `None` where they are no such words.
pub fn preset(words: &[u8]) -> Option<Confirmed>
    ensures { result ≡ confirmed_by presets (words_of words.now) }
{
    let mut left = Parts::words(words);
    let mut confirmed = preset_named(left.next_part()?)?;
    while let Some(word) = left.next_part() {
        confirmed = overridden_word(confirmed, word)?;
    }
    Some(confirmed)
}

/// What a preset confirms, by its name.
fn preset_named(word: &[u8]) -> Option<Confirmed>
    ensures { result ≡ preset_named presets word.now }
{
    if is_same_word(word, b"plain") {
        Some(plain())
    } else if is_same_word(word, b"full") {
        Some(full())
    } else if is_same_word(word, b"marked") {
        Some(marked())
    } else if is_same_word(word, b"bare") {
        Some(bare())
    } else {
        None
    }
}

/// The same with what an override changes.
fn overridden_word(confirmed: Confirmed, word: &[u8]) -> Option<Confirmed>
    ensures { result ≡ overridden_word confirmed word.now }
{
    if is_same_word(word, b"cautious") {
        Some(Confirmed {
            cautious: true,
            ..confirmed
        })
    } else if is_same_word(word, b"fast") {
        Some(Confirmed {
            fast: true,
            ..confirmed
        })
    } else if is_same_word(word, b"bpp=16") {
        Some(Confirmed {
            depth: Depth::Bits16,
            ..confirmed
        })
    } else if is_pointer_word(word) {
        with_pointers(confirmed, &word[POINTER.len()..])
    } else {
        overridden(confirmed, word)
    }
}

/// Whether a word begins as one that says how many shapes of pointers are kept, whatever stands behind that.
pub fn is_pointer_word(word: &[u8]) -> bool
    ensures { result ≡ is_pointer_word word.now }
{
    word.starts_with(POINTER)
}

/// The same with another number of pointers, by its digits.
fn with_pointers(confirmed: Confirmed, number: &[u8]) -> Option<Confirmed>
    ensures { result ≡ with_pointers confirmed number.now }
{
    Some(Confirmed {
        pointers: read_number(number, u64::from(MOST_POINTERS))? as u16,
        ..confirmed
    })
}

/// The same with a cache of another size: two letters, the cache, an equals sign, and the size.
fn overridden(confirmed: Confirmed, word: &[u8]) -> Option<Confirmed>
    ensures { result ≡ overridden confirmed word.now }
{
    match word {
        [first, second, cache @ b'0'..=b'9', b'=', size @ ..] => {
            with_cache(confirmed, &[*first, *second], *cache - b'0', size_by(size)?)
        }
        _ => None,
    }
}

/// The same with a cache of another size, by its kind's two letters and its number.
fn with_cache(confirmed: Confirmed, kind: &[u8], cache: u8, size: CacheSize) -> Option<Confirmed>
    ensures { result ≡ with_cache confirmed kind.now cache size }
{
    let mut changed = confirmed;
    if is_same_word(kind, b"bc") && (cache as usize) < BITMAP_CACHES {
        changed.bitmaps.set(cache as usize, size);
        Some(changed)
    } else if is_same_word(kind, b"gc") && (cache as usize) < GLYPH_CACHES {
        changed.glyphs.set(cache as usize, size);
        Some(changed)
    } else {
        None
    }
}

/// A size: entries and cell, with a comma between.
fn size_by(text: &[u8]) -> Option<CacheSize>
    ensures { result ≡ size_by (parts_at 44 text.now) }
{
    let mut parts = Parts::new(text, COMMA);
    let entries = parts.next_part()?;
    let cell = parts.next_part()?;
    match parts.next_part() {
        Some(_) => None,
        None => Some(sized(
            read_number(entries, CACHE_LIMIT)? as u16,
            read_number(cell, CACHE_LIMIT)? as u16,
        )),
    }
}

/// What the preset `plain` confirms.
fn plain() -> Confirmed
    ensures { result ≡ plain }
{
    Confirmed {
        dst: false,
        pat: true,
        scr: false,
        mem: false,
        mem3: false,
        save: false,
        glyph: false,
        zero_bounds: false,
        marker: false,
        no_header: false,
        brush: false,
        glyph_level: 0,
        bitmaps: Caches::new([NO_CACHE; BITMAP_CACHES]),
        glyphs: Caches::new([NO_CACHE; GLYPH_CACHES]),
        cautious: false,
        depth: Depth::Bits24,
        fast: false,
        pointers: 0,
    }
}

/// What the preset `bare` confirms.
fn bare() -> Confirmed
    ensures { result ≡ bare }
{
    Confirmed {
        dst: true,
        pat: true,
        scr: true,
        mem: true,
        mem3: true,
        save: true,
        glyph: true,
        zero_bounds: true,
        marker: false,
        no_header: true,
        brush: true,
        glyph_level: GLYPH_SUPPORT_FULL,
        bitmaps: Caches::new([NO_CACHE; BITMAP_CACHES]),
        glyphs: Caches::new([NO_CACHE; GLYPH_CACHES]),
        cautious: false,
        depth: Depth::Bits24,
        fast: false,
        pointers: 0,
    }
}

/// What the preset `full` confirms.
fn full() -> Confirmed
    ensures { result ≡ full }
{
    Confirmed {
        bitmaps: Caches::new([sized(120, 768), sized(120, 3072), sized(336, 12288)]),
        glyphs: Caches::new([
            sized(254, 4),
            sized(254, 4),
            sized(254, 8),
            sized(254, 8),
            sized(254, 16),
            sized(254, 32),
            sized(254, 64),
            sized(254, 128),
            sized(254, 256),
            sized(64, 2048),
        ]),
        ..bare()
    }
}

/// What the preset `marked` confirms.
fn marked() -> Confirmed
    ensures { result ≡ marked }
{
    Confirmed {
        marker: true,
        ..full()
    }
}

/// A cache of so many entries, whose greatest cell has so many bytes.
fn sized(entries: u16, cell: u16) -> CacheSize
    ensures { result ≡ sized entries cell }
{
    CacheSize { entries, cell }
}
