//! Tests of what the system gives as sources, sinks and links: standard input and output that come torn, and clients over the loopback interface.
//!
//! They use public calls alone, so they stand apart: a crate with tests of its own is proved a second time for them.
#![tactic(auto)]

#[cfg(test)]
mod crowd;
#[cfg(test)]
mod files;
#[cfg(test)]
mod sockets;
#[cfg(test)]
mod standard;
