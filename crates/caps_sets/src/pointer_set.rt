//! The Pointer Capability Set ([MS-RDPBCGR] 2.2.7.1.5).
//!
//! | offset | size | field | read |
//! |---|---|---|---|
//! | 0 | 4 | header | type 8, length at least 8 |
//! | 4 | 2 | colorPointerFlag | |
//! | 6 | 2 | colorPointerCacheSize | how many shapes of pointers are kept, little-endian; a number above 25 counts as 25 (profile) |
//! | 8 | 2 | pointerCacheSize, where the set has it | |

ghost use Rattle.std.specs.Prelude.{◌≡◌, ◌≤◌, length};
ghost use Rattle.caps_sets.specs.CapabilitySets.{says_pointers};

use crate::set_kind::HEADER_SIZE;
use byteorder::{ByteOrder, LittleEndian};

/// The offset of colorPointerCacheSize, in the content.
const COLOR_POINTER_CACHE_SIZE: usize = 6 - HEADER_SIZE as usize;

/// The most shapes of pointers that a viewer keeps (profile).
pub const MOST_POINTERS: u16 = 25;

/// How many shapes of pointers a viewer keeps, by the content of a Pointer set.
pub fn says_pointers(content: &[u8]) -> u16
    requires { 4 ≤ length content.now }
    ensures { result ≡ says_pointers content.now }
{
    MOST_POINTERS.min(LittleEndian::read_u16(&content[COLOR_POINTER_CACHE_SIZE..]))
}
