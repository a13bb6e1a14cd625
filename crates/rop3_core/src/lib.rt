//! Ternary raster operations over whole words, [MS-RDPEGDI] 2.2.2.2.1.1.1.7.
#![tactic(auto)]

mod masks;
mod needs;
mod raster;
mod row;

pub use needs::{needs_destination, needs_pattern, needs_source};
pub use raster::rop3;
pub use row::rop_row;
