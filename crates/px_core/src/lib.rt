//! Rectangles and sizes of pictures, as sets of pixels, and the pictures, rectangles and tiles that every contract speaks of.
//!
//! A pixel (x, y) stands in column x, counted from the left, and row y, counted from the top.
#![tactic(auto)]

mod color_bits;
mod depth;
pub mod laws;
mod rectangle;
mod surface;
mod tile;
mod tile_set;
mod tile_stretch;

pub use color_bits::{cut_color, wide_color};
pub use depth::{Depth, bits_in, brush_bytes, brush_format, bytes_in, cached_brush_style, white};
pub use rectangle::{Rect, clipped, common, has_pixel, is_inside, meet, whole};
pub use surface::{Size, is_session_size};
pub use tile::{TILE_SIDE, TILES, TILES_IN_ROW, tile_on, tile_rect};
pub use tile_set::TileSet;
pub use tile_stretch::{TileStretch, touched_columns, touched_rows};
