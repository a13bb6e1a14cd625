//! A session's record (profile): its bytes as tables of fields, how they are read, and laws about both.
#![tactic(auto)]

mod field;
pub mod laws;

pub use field::Field;
