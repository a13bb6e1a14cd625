//! The host's work for one connection: its client's connection sequence, its time as a viewer, whose two sides work over one session behind its
//! lock, and the last word to it (profile).
//!
//! docs/threads.md says what is promised and what isn't.
#![tactic(auto)]

mod arriving;
mod ending;
mod frames;
mod guest;
mod host;
mod last_words;
mod links;
mod reading;
mod sends;
mod sides;
mod steps;
mod turns;
mod viewing;
mod visits;

pub use arriving::{Visit, serve_arrival, serve_guest};
pub use ending::{put_last, size_of};
pub use frames::send_first;
pub use guest::{Guest, greet};
pub use host::{Ends, Halves, Host, Stay};
pub use links::{serve_pair, serve_viewer};
pub use reading::{NO_MEMORY, feed, new_buffer, read_side};
pub use sends::{Due, send_frame, send_side, send_taken, take_once};
pub use serve_rules::{ConnEnd, ConnReport, Noted, Noted as Told, Places, SideEnd};
pub use sides::run_sides;
pub use steps::do_steps;
pub use turns::{handle_event, refresh, suppress};
pub use viewing::{attend, attend_whole, send_last};
pub use visits::{Arrival, FirstFrame, arrive, depart};
pub use wire_num::OutOfMemory;
