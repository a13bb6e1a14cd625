//! What a viewer is shown, but for the `main` of the program: its words, and its statuses.
#![tactic(auto)]

mod ending;
mod entry;
mod top;

pub use capture_show::{ShowFault, show_capture};
pub use ending::Ending;
pub use entry::run_look;
pub use top::look_top;
