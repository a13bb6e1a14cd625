//! What a viewer of 16 bits is sent: colours that are cut, run-length bitmaps, tiles and cache orders of two bytes a pixel, and the style of their brushes
//! ([MS-RDPBCGR] 2.2.9.1.1.3.1.2, [MS-RDPEGDI] 2.2.2.2.1.1.2 and 2.2.2.2.1.2).
//!
//! The calls that write are those of any depth, at 16 bits.
#![tactic(auto)]

mod colors;
mod style;
mod updates;

pub use colors::{cut, wide, wire_color};
pub use rle_dec::RleFault;
pub use rle_enc::Packed;
pub use style::style16;
pub use updates::{cache_bitmap16, cache_brush16, pack16, unpack16, write_tile16};
pub use wire_num::OutOfMemory;
