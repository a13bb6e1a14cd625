//! The board, a small whiteboard that turns input events into drawings by a table of which the first row that fits is done
//! (profile).
#![tactic(auto)]

mod before;
mod board;
mod keys;
mod mouse;
mod patterns;
mod reaction;
mod shapes;
mod signs;
mod writing;

pub use before::BoardBefore;
pub use board::{Board, Point};
pub use draw_ops::OutOfMemory;
