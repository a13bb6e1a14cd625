//! The General Capability Set ([MS-RDPBCGR] 2.2.7.1.1).
//!
//! | offset | size | field | read |
//! |---|---|---|---|
//! | 0 | 4 | header | type 1, length at least 24 |
//! | 4 | 4 | osMajorType, osMinorType | |
//! | 8 | 2 | protocolVersion | other than 0: drawings are cut for the client (profile) |
//! | 10 | 4 | pad2octetsA, generalCompressionTypes | |
//! | 14 | 2 | extraFlags | `0001` FASTPATH_OUTPUT_SUPPORTED, `0400` NO_BITMAP_COMPRESSION_HDR |
//! | 16 | 8 | updateCapabilityFlag to suppressOutputSupport | |

ghost use Rattle.std.specs.Prelude.{◌≡◌, ◌≤◌, ◌<◌, length};
ghost use Rattle.wire_num.specs.FieldValue.{has_bits};
ghost use Rattle.caps_sets.specs.CapabilitySets.{number_in, says_cautious, says_no_header, says_fast};

use crate::set_kind::HEADER_SIZE;
use byteorder::{ByteOrder, LittleEndian};

/// The offset of protocolVersion, in the content.
const PROTOCOL_VERSION: usize = 8 - HEADER_SIZE as usize;

/// The offset of extraFlags.
const EXTRA_FLAGS: usize = 14 - HEADER_SIZE as usize;

/// Updates may come in packets of the fast path.
const FASTPATH_OUTPUT_SUPPORTED: u16 = 0x0001;

/// Packed bitmaps may lack the compression header.
const NO_BITMAP_COMPRESSION_HDR: u16 = 0x0400;

/// Whether the content of a General set states a protocol version: drawings are cut for such a client (profile).
pub fn says_cautious(content: &[u8]) -> bool
    requires { 20 ≤ length content.now }
    ensures { result ≡ says_cautious content.now }
{
    LittleEndian::read_u16(&content[PROTOCOL_VERSION..]) != 0
}

/// Whether the content of a General set takes packed bitmaps without the compression header.
pub fn says_no_header(content: &[u8]) -> bool
    requires { 20 ≤ length content.now }
    ensures { result ≡ says_no_header content.now }
{
    has_extra_flag(content, NO_BITMAP_COMPRESSION_HDR)
}

/// Whether the content of a General set takes updates in packets of the fast path.
pub fn says_fast(content: &[u8]) -> bool
    requires { 20 ≤ length content.now }
    ensures { result ≡ says_fast content.now }
{
    has_extra_flag(content, FASTPATH_OUTPUT_SUPPORTED)
}

/// Whether extraFlags has these bits.
fn has_extra_flag(content: &[u8], flag: u16) -> bool
    requires { 20 ≤ length content.now }
    ensures { result ≡ has_bits flag (number_in 2 14 content.now) }
{
    LittleEndian::read_u16(&content[EXTRA_FLAGS..]) & flag == flag
}
