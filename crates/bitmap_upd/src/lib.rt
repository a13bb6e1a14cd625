//! A bitmap update of one rectangle ([MS-RDPBCGR] 2.2.9.1.1.3.1.2).
#![tactic(auto)]

mod head;
mod tile;

pub use tile::{TileBody, write_tile, write_tile_at};
pub use wire_num::OutOfMemory;
