//! A client's cache: which uses of a key miss, and at which index, by the history of its uses, and in code ([MS-RDPEGDI]
//! 2.2.2.2.1.2, cache orders).
#![tactic(auto)]

mod cache;
mod fault;
mod uses;

pub use cache::Cache;
pub use fault::CacheFault;
pub use uses::Use;
pub use wire_num::OutOfMemory;
