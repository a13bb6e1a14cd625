//! The Confirm Active PDU ([MS-RDPBCGR] 2.2.1.13.2.1), behind its share control header.
//!
//! | size | field | value |
//! |---|---|---|
//! | 4 | shareId | not read |
//! | 2 | originatorId | not read |
//! | 2 | lengthSourceDescriptor | n |
//! | 2 | lengthCombinedCapabilities | not read |
//! | n | sourceDescriptor | not read |
//! | 2 | numberCapabilities | how many sets there are |
//! | 2 | pad2Octets | not read |
//! | | capabilitySets | in any order; the last one of a kind counts, and a missing one confirms nothing |
//!
//! What follows the sets isn't read.

ghost use Rattle.std.specs.Prelude.{◌≡◌, ◌↔◌, ◌≤◌, ◌+◌, ◌∷◌, [], List, ℕ, length, Ok, Err};
ghost use Rattle.wire_num.specs.Layout.{fields_at};
ghost use Rattle.wire_num.specs.Cursor.{rest, ReadsFields, ReadsFieldsAs};
ghost use Rattle.px_core.specs.declared.depth.Depth.{Depth};
ghost use Rattle.caps_sets.specs.CapabilitySets.{kind_of, least_length, with_set, with_general, nothing, before_sets, confirmed_together};
ghost use Rattle.caps_sets.specs.ConfirmActive.{confirm_lengths, confirm_counts, set_header, set_at, sets_at, confirm_at, confirmed_of};
ghost use Rattle.caps_sets.specs.Grammar.{IsConfirmActive};
ghost use Rattle.caps_sets.specs.Faults.{IsFirstFault};

use crate::bitmap_cache_set::says_bitmaps;
use crate::brush_set::{says_brush_level, takes_brushes};
use crate::caps_fault::CapsFault;
use crate::general_set::{says_cautious, says_fast, says_no_header};
use crate::glyph_cache_set::{says_glyph_level, says_glyphs};
use crate::order_set::with_orders;
use crate::pointer_set::says_pointers;
use crate::set_kind::{HEADER_SIZE, SetKind, kind_of, least_length};
use crate::sets_so_far::SetsSoFar;
use crate::{BITMAP_CACHES, CacheSize, Caches, Confirmed, GLYPH_CACHES};
use px_core::Depth;
use wire_num::{Cursor, Short};

/// The bytes of shareId.
const SHARE_ID_SIZE: usize = 4;

/// The bytes of originatorId, of lengthCombinedCapabilities, and of pad2Octets.
const FIELD_SIZE: usize = 2;

/// A cache without an entry.
const NO_CACHE: CacheSize = CacheSize {
    entries: 0,
    cell: 0,
};

/// Reads what a Confirm Active PDU of a viewer of this depth confirms, from behind its share control header on ([MS-RDPBCGR]
/// 2.2.1.13.2.1).
pub fn read_confirm(body: &[u8], depth: Depth) -> Result<Confirmed, CapsFault>
    ensures { result ≡ confirmed_of depth body.now }
{
    let mut cursor = Cursor::new(body);
    match read_confirm_active(depth, &mut cursor) {
        Ok(confirmed) => Ok(confirmed),
        Err(_) => Err(CapsFault::BadCaps { at: cursor.at() }),
    }
}

/// The law of Confirm Active PDUs: one is read exactly where its fields and as many sets as they count stand there, and then
/// confirms what the last set of each kind says, at the viewer's depth. It is refused exactly for the first fault there, at its place.
pub fn confirms_are_read_exactly()
    ensures exact { (depth : Depth) (bytes : List ℕ) (confirmed : Confirmed) → (confirmed_of depth bytes ≡ Ok confirmed) ↔ IsConfirmActive depth bytes confirmed }
    ensures refused { (depth : Depth) (bytes : List ℕ) (fault : CapsFault) → (confirmed_of depth bytes ≡ Err fault) ↔ IsFirstFault bytes fault }
{}

/// Reads what stands before the sets, and these.
#[tactic(auto, unfolding(crate::specs::ConfirmActive::confirm_at))]
fn read_confirm_active(depth: Depth, cursor: &mut Cursor<'_>) -> Result<Confirmed, Short>
    ensures { ReadsFields (confirm_at depth) result cursor.old cursor.new }
{
    let source = read_lengths(cursor)?;
    let count = read_counts(source, cursor)?;
    let sets = read_sets(depth, count, cursor)?;
    Ok(confirmed_together(sets))
}

/// Reads how many bytes the source descriptor has.
#[tactic(auto, unfolding(crate::specs::ConfirmActive::confirm_lengths, wire_num::specs::FieldValue::passing_at))]
fn read_lengths(cursor: &mut Cursor<'_>) -> Result<u16, Short>
    ensures { ReadsFieldsAs (λ source. source ∷ []) (fields_at confirm_lengths) result cursor.old cursor.new }
{
    cursor.bytes(SHARE_ID_SIZE)?;
    cursor.bytes(FIELD_SIZE)?;
    let source = cursor.u16_le()?;
    cursor.bytes(FIELD_SIZE)?;
    Ok(source)
}

/// Reads how many sets there are, behind a source descriptor of so many bytes.
#[tactic(auto, unfolding(crate::specs::ConfirmActive::confirm_counts, wire_num::specs::FieldValue::passing_at))]
fn read_counts(source: u16, cursor: &mut Cursor<'_>) -> Result<u16, Short>
    ensures { ReadsFieldsAs (λ count. count ∷ []) (fields_at (confirm_counts source)) result cursor.old cursor.new }
{
    cursor.bytes(source as usize)?;
    let count = cursor.u16_le()?;
    cursor.bytes(FIELD_SIZE)?;
    Ok(count)
}

/// Reads so many sets of a viewer of this depth.
fn read_sets(depth: Depth, count: u16, cursor: &mut Cursor<'_>) -> Result<SetsSoFar, Short>
    ensures { ReadsFields (sets_at count (before_sets depth)) result cursor.old cursor.new }
{
    let mut sets = before_sets(depth);
    for _ in 0..count {
        sets = read_set(sets, cursor)?;
    }
    Ok(sets)
}

/// Reads the next set, and gives the sets so far with it.
#[tactic(auto, unfolding(crate::specs::ConfirmActive::set_at, crate::specs::ConfirmActive::with_content_of))]
fn read_set(sets: SetsSoFar, cursor: &mut Cursor<'_>) -> Result<SetsSoFar, Short>
    ensures { ReadsFields (set_at sets) result cursor.old cursor.new }
{
    let at = cursor.at();
    let (set_type, length) = read_header(cursor)?;
    let kind = kind_of(set_type);
    if length < least_length(kind) || (length - HEADER_SIZE) as usize > cursor.left() {
        cursor.go_to(at);
        return Err(Short { at });
    }
    let content = cursor.bytes((length - HEADER_SIZE) as usize)?;
    Ok(with_set(sets, kind, content))
}

/// Reads a set's type and length.
#[tactic(auto, unfolding(crate::specs::ConfirmActive::set_header, wire_num::specs::FieldValue::passing_at))]
fn read_header(cursor: &mut Cursor<'_>) -> Result<(u16, u16), Short>
    ensures { ReadsFieldsAs (λ header. header.0 ∷ header.1 ∷ []) (fields_at set_header) result cursor.old cursor.new }
{
    let set_type = cursor.u16_le()?;
    let length = cursor.u16_le()?;
    Ok((set_type, length))
}

/// The sets so far with one more, by its content.
fn with_set(sets: SetsSoFar, kind: SetKind, content: &[u8]) -> SetsSoFar
    requires { least_length kind ≤ 4 + length content.now }
    ensures { result ≡ with_set kind content.now sets }
{
    let confirmed = sets.confirmed;
    match kind {
        SetKind::General => SetsSoFar {
            confirmed: with_general(confirmed, content),
            ..sets
        },
        SetKind::Order => SetsSoFar {
            confirmed: with_orders(confirmed, content),
            ..sets
        },
        SetKind::BitmapCache => SetsSoFar {
            confirmed: Confirmed {
                bitmaps: says_bitmaps(content),
                ..confirmed
            },
            ..sets
        },
        SetKind::Pointer => SetsSoFar {
            confirmed: Confirmed {
                pointers: says_pointers(content),
                ..confirmed
            },
            ..sets
        },
        SetKind::Brush => SetsSoFar {
            brush_level: says_brush_level(content),
            ..sets
        },
        SetKind::GlyphCache => SetsSoFar {
            confirmed: Confirmed {
                glyphs: says_glyphs(content),
                glyph_level: says_glyph_level(content),
                ..confirmed
            },
            ..sets
        },
        SetKind::Bitmap | SetKind::Other => sets,
    }
}

/// What is confirmed with the content of a General set.
fn with_general(confirmed: Confirmed, content: &[u8]) -> Confirmed
    requires { 20 ≤ length content.now }
    ensures { result ≡ with_general content.now confirmed }
{
    Confirmed {
        no_header: says_no_header(content),
        cautious: says_cautious(content),
        fast: says_fast(content),
        ..confirmed
    }
}

/// What all sets confirm.
fn confirmed_together(sets: SetsSoFar) -> Confirmed
    ensures { result ≡ confirmed_together sets }
{
    Confirmed {
        brush: takes_brushes(sets.confirmed.cautious, sets.brush_level),
        ..sets.confirmed
    }
}

/// Before the first set of a viewer of this depth.
fn before_sets(depth: Depth) -> SetsSoFar
    ensures { result ≡ before_sets depth }
{
    SetsSoFar {
        confirmed: nothing(depth),
        brush_level: 0,
    }
}

/// What is confirmed without a set, by a viewer of this depth.
fn nothing(depth: Depth) -> Confirmed
    ensures { result ≡ nothing depth }
{
    Confirmed {
        dst: false,
        pat: false,
        scr: false,
        mem: false,
        mem3: false,
        save: false,
        glyph: false,
        zero_bounds: false,
        marker: false,
        no_header: false,
        brush: false,
        glyph_level: 0,
        bitmaps: Caches::new([NO_CACHE; BITMAP_CACHES]),
        glyphs: Caches::new([NO_CACHE; GLYPH_CACHES]),
        cautious: false,
        depth,
        fast: false,
        pointers: 0,
    }
}
