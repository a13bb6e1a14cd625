//! The Brush Capability Set ([MS-RDPBCGR] 2.2.7.1.7).
//!
//! | offset | size | field | read |
//! |---|---|---|---|
//! | 0 | 4 | header | type 15, length at least 8 |
//! | 4 | 4 | brushSupportLevel | 1 BRUSH_COLOR_8x8 and 2 BRUSH_COLOR_FULL take color brushes |

ghost use Rattle.std.specs.Prelude.{◌≡◌, ◌≤◌, length};
ghost use Rattle.caps_sets.specs.CapabilitySets.{says_brush_level, takes_brushes};

use byteorder::{ByteOrder, LittleEndian};

/// The support levels of color brushes.
const BRUSH_COLOR_8X8: u32 = 1;

const BRUSH_COLOR_FULL: u32 = 2;

/// The support level of brushes, by the content of a Brush set.
pub fn says_brush_level(content: &[u8]) -> u32
    requires { 4 ≤ length content.now }
    ensures { result ≡ says_brush_level content.now }
{
    LittleEndian::read_u32(content)
}

/// Whether color brushes are taken by this level; for a client whose drawings are cut, by the second one alone (profile).
pub fn takes_brushes(cautious: bool, level: u32) -> bool
    ensures { result ≡ takes_brushes cautious level }
{
    !cautious && level == BRUSH_COLOR_8X8 || level == BRUSH_COLOR_FULL
}
