//! The plan of a frame: which pending drawings of a session go to a viewer as orders, and which tiles go as bitmaps (profile).
#![tactic(auto)]

mod cached;
mod cut;
mod desk;
mod frame;
pub mod laws;
mod needs;
mod orders;
mod quiet;
mod support;
mod take;
mod taken;
mod tile;
mod tiles;
mod walk;

pub use cached::Cached;
pub use desk::Desk;
pub use frame::plan;
pub use orders::{Orders, Planned};
pub use session_core::Pending;
pub use take::Take;
pub use taken::Taken;
pub use tile::TakenTile;
pub use wire_num::OutOfMemory;
