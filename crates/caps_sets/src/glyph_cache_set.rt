//! The Glyph Cache Capability Set ([MS-RDPBCGR] 2.2.7.1.8).
//!
//! | offset | size | field | read |
//! |---|---|---|---|
//! | 0 | 4 | header | type 16, length at least 52 |
//! | 4 | 40 | GlyphCache | the sizes of caches 0 to 9, four bytes each |
//! | 44 | 4 | FragCache | |
//! | 48 | 2 | GlyphSupportLevel | as it stands there |
//! | 50 | 2 | pad2octets | |

ghost use Rattle.std.specs.Prelude.{◌≡◌, ◌≤◌, length};
ghost use Rattle.caps_sets.specs.CapabilitySets.{says_glyphs, says_glyph_level};

use crate::cache_size::size_at;
use crate::set_kind::HEADER_SIZE;
use crate::{Caches, Caches10};
use byteorder::{ByteOrder, LittleEndian};

/// The offset of GlyphSupportLevel, in the content. The caches stand from its first byte on.
const GLYPH_SUPPORT_LEVEL: usize = 48 - HEADER_SIZE as usize;

/// The sizes of the glyph caches, by the content of a Glyph Cache set.
#[tactic(auto, unfolding(crate::specs::CapabilitySets::says_glyphs))]
pub fn says_glyphs(content: &[u8]) -> Caches10
    requires { 48 ≤ length content.now }
    ensures { result ≡ says_glyphs content.now }
{
    Caches::new([
        size_at(content, 0),
        size_at(content, 4),
        size_at(content, 8),
        size_at(content, 12),
        size_at(content, 16),
        size_at(content, 20),
        size_at(content, 24),
        size_at(content, 28),
        size_at(content, 32),
        size_at(content, 36),
    ])
}

/// The support level of glyphs, by the content of a Glyph Cache set.
pub fn says_glyph_level(content: &[u8]) -> u16
    requires { 48 ≤ length content.now }
    ensures { result ≡ says_glyph_level content.now }
{
    LittleEndian::read_u16(&content[GLYPH_SUPPORT_LEVEL..])
}
