//! The kinds of capability sets ([MS-RDPBCGR] 2.2.1.13.1.1.1 and 2.2.7).
//!
//! | offset | size | field | value |
//! |---|---|---|---|
//! | 0 | 2 | capabilitySetType | 1 General, 2 Bitmap, 3 Order, 4 Bitmap Cache, 8 Pointer, 15 Brush, 16 Glyph Cache; others are skipped |
//! | 2 | 2 | lengthCapability | of the set, this header included |
//! | 4 | | capabilityData | by the type |

ghost use Rattle.std.specs.Prelude.{◌≡◌, ◌≤◌};
ghost use Rattle.caps_sets.specs.CapabilitySets.{kind_of, least_length};

/// The bytes of a set's header.
pub const HEADER_SIZE: u16 = 4;

/// The types of the sets that are looked at.
const CAPSTYPE_GENERAL: u16 = 1;

const CAPSTYPE_BITMAP: u16 = 2;

const CAPSTYPE_ORDER: u16 = 3;

const CAPSTYPE_BITMAPCACHE: u16 = 4;

const CAPSTYPE_POINTER: u16 = 8;

const CAPSTYPE_BRUSH: u16 = 15;

const CAPSTYPE_GLYPHCACHE: u16 = 16;

/// What a capability set is, by its type.
#[derive(Clone, Copy, Debug, PartialEq, Eq)]
pub enum SetKind {
    General,
    /// Its length is looked at, and nothing else.
    Bitmap,
    Order,
    BitmapCache,
    Pointer,
    Brush,
    GlyphCache,
    /// A set that isn't read.
    Other,
}

/// What a set of this type is.
pub fn kind_of(set_type: u16) -> SetKind
    ensures { result ≡ kind_of set_type }
{
    match set_type {
        CAPSTYPE_GENERAL => SetKind::General,
        CAPSTYPE_BITMAP => SetKind::Bitmap,
        CAPSTYPE_ORDER => SetKind::Order,
        CAPSTYPE_BITMAPCACHE => SetKind::BitmapCache,
        CAPSTYPE_POINTER => SetKind::Pointer,
        CAPSTYPE_BRUSH => SetKind::Brush,
        CAPSTYPE_GLYPHCACHE => SetKind::GlyphCache,
        _ => SetKind::Other,
    }
}

/// The least length of a set.
pub fn least_length(kind: SetKind) -> u16
    ensures length { result ≡ least_length kind }
    ensures header { 4 ≤ result }
{
    match kind {
        SetKind::General => 24,
        SetKind::Bitmap => 28,
        SetKind::Order => 88,
        SetKind::BitmapCache => 40,
        SetKind::Pointer => 8,
        SetKind::Brush => 8,
        SetKind::GlyphCache => 52,
        SetKind::Other => HEADER_SIZE,
    }
}
