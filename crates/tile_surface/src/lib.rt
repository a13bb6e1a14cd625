//! The session's surface with its picture kept as tiles of 64 by 64 pixels, which takes may share, and the slots that its drawings fill and
//! read (profile).
//!
//! A drawing first makes the tiles that it touches the surface's own, and then writes into them in place, which takes no memory.
#![tactic(auto)]

mod cell;
mod copies;
mod cuts;
mod draw;
mod draw_all;
mod fills;
mod inks;
mod lent;
mod lines;
mod mixes;
mod own;
mod own_all;
mod packed;
mod paint;
mod pastes;
mod rects;
mod rows;
mod saves;
mod texts;
mod tile;
mod tiles;
mod walk;

pub use lent::LentTile;
pub use packed::PackedTile;
pub use surface_parts::{DrawFault, LoadedBrush, LoadedGlyph, LoadedImage};
pub use tile::Tile;
pub use tiles::Tiles;
pub use wire_num::OutOfMemory;
