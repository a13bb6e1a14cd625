//! The words that a program was run with, as each program's command line reads them.
#![tactic(auto)]

mod given;
mod host_request;
mod look_request;
mod presets;
mod refused;
pub mod status;
mod view_request;

pub use given::words_given;
pub use host_request::Request;
pub use look_request::viewer_of_words;
pub use view_request::{Viewing, view_of_words};
pub use wire_num::OutOfMemory;
