//! The Revision 1 Bitmap Cache Capability Set ([MS-RDPBCGR] 2.2.7.1.4.1).
//!
//! | offset | size | field | read |
//! |---|---|---|---|
//! | 0 | 4 | header | type 4, length at least 40 |
//! | 4 | 24 | pad1 to pad6 | |
//! | 28 | 4 | Cache0Entries, Cache0MaximumCellSize | the size of cache 0 |
//! | 32 | 4 | Cache1Entries, Cache1MaximumCellSize | the size of cache 1 |
//! | 36 | 4 | Cache2Entries, Cache2MaximumCellSize | the size of cache 2 |

ghost use Rattle.std.specs.Prelude.{◌≡◌, ◌≤◌, length};
ghost use Rattle.caps_sets.specs.CapabilitySets.{says_bitmaps};

use crate::cache_size::size_at;
use crate::set_kind::HEADER_SIZE;
use crate::{Caches, Caches3};

/// The offsets of the caches, in the content.
const CACHE_0: usize = 28 - HEADER_SIZE as usize;

const CACHE_1: usize = 32 - HEADER_SIZE as usize;

const CACHE_2: usize = 36 - HEADER_SIZE as usize;

/// The sizes of the bitmap caches, by the content of a Bitmap Cache set.
#[tactic(auto, unfolding(crate::specs::CapabilitySets::says_bitmaps))]
pub fn says_bitmaps(content: &[u8]) -> Caches3
    requires { 36 ≤ length content.now }
    ensures { result ≡ says_bitmaps content.now }
{
    Caches::new([
        size_at(content, CACHE_0),
        size_at(content, CACHE_1),
        size_at(content, CACHE_2),
    ])
}
