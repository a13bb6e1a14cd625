//! Where the host has a client keep saved blocks: the least free position, and no two blocks in
//! common (profile, over the positions of [MS-RDPEGDI] 2.2.2.2.1.1.2.12, SaveBitmap).
#![tactic(auto)]

mod blocks;
mod place;
mod room;

pub use blocks::{Blocks, PlaceFault};
pub use place::Place;
pub use wire_num::OutOfMemory;
