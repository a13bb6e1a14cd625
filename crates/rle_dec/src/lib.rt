//! Reads run-length bitmaps: the pixels of a stream of orders ([MS-RDPBCGR] 2.2.9.1.1.3.1.2.4 and 3.1.9).
#![tactic(auto)]

mod bitmap;
mod codes;
mod copies;
mod draw;
mod fault;
mod orders;
mod reads;
mod short;

pub use bitmap::{unpack, unpack_at};
pub use fault::RleFault;
