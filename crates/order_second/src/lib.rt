//! The secondary orders that fill a viewer's caches, and the frame marker ([MS-RDPEGDI] 2.2.2.2.1.2 and 2.2.2.2.1.3.7).
#![tactic(auto)]

mod brush;
mod glyph;
mod image;
mod marker;

pub use brush::{cache_brush, cache_brush_at};
pub use glyph::cache_glyph;
pub use image::{cache_bitmap, cache_bitmap_at};
pub use marker::frame_marker;
pub use wire_num::OutOfMemory;
