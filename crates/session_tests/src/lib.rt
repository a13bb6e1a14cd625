//! Tests of two threads that share a session by the lock, of a take that goes to another thread or waits while the session goes on, of a surface of
//! tiles beside one of a whole picture, and of a session whose store crashes.
//!
//! They use public calls alone, so they stand apart: a crate with tests of its own is proved a second time for them.
#![tactic(auto)]

#[cfg(test)]
mod alike;
#[cfg(test)]
mod handed;
#[cfg(test)]
mod lent;
#[cfg(test)]
mod room;
#[cfg(test)]
mod stored;
#[cfg(test)]
mod turns;
