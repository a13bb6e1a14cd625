//! A script's run whose journal is written as a record, entry by entry, and what a record shows after so many of its entries: a picture in
//! portable pixel format, or why there is none (all profile).
#![tactic(auto)]

mod entries;
mod picture;
mod read;
mod record;
mod recorder;
mod replay;
mod text;

pub use record::record_script;
pub use replay::replay_record;
pub use script_run::ScriptFault;
pub use wire_num::OutOfMemory;
