//! The session's lock: threads take turns at one value whose list only grows, and each of their passes keeps what it has seen of that list.
//!
//! `docs/threads.md` says what the lock promises and what it does not.
#![tactic(auto)]

mod bell;
mod grows;
mod lock;
mod notes;
mod pass;
mod rule;
mod steps;
mod turn;

pub use grows::Grows;
pub use lock::GrowLock;
pub use pass::Pass;
pub use turn::Turn;
pub use wire_num::OutOfMemory;
