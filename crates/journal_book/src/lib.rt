//! The book of a session's journal: it keeps the journal's entries in a store, as a record, behind a lock of its own, and
//! what it says is kept outlasts a crash at any moment (profile).
#![tactic(auto)]

mod book;
mod keeping;
mod piece;
mod places;

pub use book::{Behind, Book};
pub use edge_io::{Store, Wrote};
pub use keeping::{keep, keep_to_end};
pub use places::{end_book, keep_all, keep_up};
pub use wire_num::OutOfMemory;
