//! Tests of serving a gate: links in memory whose readers wait for what others are shown, links with planned faults, one in each call in turn, and clients over the loopback interface.
//!
//! They use public calls alone, so they stand apart: a crate with tests of its own is proved a second time for them.
#![tactic(auto)]

#[cfg(test)]
mod checks;
#[cfg(test)]
mod client;
#[cfg(test)]
mod cue_gate;
#[cfg(test)]
mod cues;
#[cfg(test)]
mod failing;
#[cfg(test)]
mod gates;
#[cfg(test)]
mod planned;
#[cfg(test)]
mod sockets;
