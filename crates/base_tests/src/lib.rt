//! Tests of single calls on worked values: rows of pixels, run lengths, entries of caches, saved blocks, orders against what the registers hold, calls that no program makes, and threads at the lock.
//!
//! They use public calls alone, so they stand apart: a crate with tests of its own is proved a second time for them.
#![tactic(auto)]

#[cfg(test)]
mod bells;
#[cfg(test)]
mod cached_entries;
#[cfg(test)]
mod checks;
#[cfg(test)]
mod depths;
#[cfg(test)]
mod fast_packets;
#[cfg(test)]
mod lanes;
#[cfg(test)]
mod last_values;
#[cfg(test)]
mod packing;
#[cfg(test)]
mod saved_places;
#[cfg(test)]
mod sixteen;
#[cfg(test)]
mod turns;
#[cfg(test)]
mod unpacking;
#[cfg(test)]
mod written;
