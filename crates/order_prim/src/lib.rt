//! The eight primary drawing orders as their fields ([MS-RDPEGDI] 2.2.2.2.1.1.2): each call gives the whole list, which `order_fields` writes against its
//! registers.
//!
//! Rectangles, places and sources are in pixels. A colour is below 2^24, `65536 * red + 256 * green + blue`. The condition of each call
//! is that each value fits its field: corners, sources and edges have two bytes each, signed.
#![tactic(auto)]

mod cached;
mod glyphs;
mod saved;
mod screen;

pub use cached::{mem_blt, mem3_blt, pat_blt};
pub use glyphs::{glyph_index, glyph_index_of};
pub use saved::save_bitmap;
pub use screen::{dst_blt, opaque_rect, scr_blt};
pub use wire_num::OutOfMemory;
