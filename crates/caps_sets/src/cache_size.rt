//! The size of one cache ([MS-RDPBCGR] 2.2.7.1.4.1 and 2.2.7.1.8.1).
//!
//! | offset | size | field | value |
//! |---|---|---|---|
//! | 0 | 2 | CacheEntries | entries, little-endian |
//! | 2 | 2 | CacheMaximumCellSize | cell, little-endian |
#![tactic(auto)]

ghost use Rattle.std.specs.Prelude.{◌≡◌, ◌+◌, ◌≤◌, length, drop};
ghost use Rattle.byteorder.specs.Endian.{little_number};
ghost use Rattle.caps_sets.specs.Confirmed.{sized};

use byteorder::{ByteOrder, LittleEndian};

/// The bytes of CacheEntries.
const ENTRIES_SIZE: usize = 2;

/// The size of one cache: how many entries it has, and the bytes of its greatest cell.
#[derive(Clone, Copy, Debug, PartialEq, Eq)]
pub struct CacheSize {
    pub entries: u16,
    pub cell: u16,
}

/// The size of a cache that stands at an offset.
pub fn size_at(bytes: &[u8], at: usize) -> CacheSize
    requires near { at ≤ 65535 }
    requires inside { at + 4 ≤ length bytes.now }
    ensures { result ≡ sized (little_number 2 (drop at bytes.now)) (little_number 2 (drop (at + 2) bytes.now)) }
{
    CacheSize {
        entries: LittleEndian::read_u16(&bytes[at..]),
        cell: LittleEndian::read_u16(&bytes[at + ENTRIES_SIZE..]),
    }
}
