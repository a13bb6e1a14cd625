//! The bytes that pixels go as: rows from the bottom up, padded, of a viewer's depth, packed as run-length bitmaps where that is shorter
//! ([MS-RDPBCGR] 2.2.9.1.1.3.1.2.4 and 3.1.9; which orders are written is this project's profile).
#![tactic(auto)]

mod bitmap;
mod counts;
mod data;
mod front;
mod orders;
mod rows;
mod shown;
mod stretch;
mod tile;
mod words;

pub use bitmap::{Packed, pack, pack_at};
pub use data::{PixelBytes, pixel_data, put_turned, raw_bytes};
pub use front::put_both;
pub use rows::{pad_rows, padded_width, turn_over};
pub use shown::show_all;
pub use tile::packed_tile;
pub use wire_num::OutOfMemory;
