//! Sixteen pixels at once: raster operations of rows ([MS-RDPEGDI] 2.2.2.2.1.1.1.7), and how long runs of pixels are.
//!
//! Sixteen lanes of 32 bits as far as a row has so many pixels, and a plain loop for the rest. Nothing takes memory.
#![tactic(auto)]

mod fills;
mod lanes;
mod rows;
mod runs;
mod sums;

pub use fills::{copy_lanes, fill_lanes};
pub use rows::rop_lanes;
pub use runs::{back_run, equal_word, same_run, zero_run};
