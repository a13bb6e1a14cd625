//! A capture (profile) read as a stream, line by line, for one of its viewers; and what it is shown, as a text: a picture in portable pixel format, or why there is none.
#![tactic(auto)]

mod capture_reader;
mod digits;
mod joined;
mod long_lines;
mod picture;
mod read;
mod refusals;
mod said;
mod show;
mod show_fault;
mod stage;
mod text;
mod writing;

pub use capture_reader::{CaptureReader, Told};
pub use show::{show_capture, write_client, write_no_mark, write_refused};
pub use show_fault::ShowFault;
pub use wire_num::OutOfMemory;
pub use writing::put;
