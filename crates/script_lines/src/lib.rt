//! The lines of a script by their forms, and the lines of a capture by their answers (both profile).
#![tactic(auto)]

mod answer;
mod area;
mod event;
mod field;
mod form;
mod hexadecimal;
mod keyword;
mod load;
mod name;
mod opening;
mod raster;
mod rule;
mod slot;
mod step;
mod text;
mod words;

pub use answer::{AnswerLine, Cause, begin_frame, write_answer, write_broken};
pub use form::{LineForm, line_form};
pub use hexadecimal::{append_hexadecimals, write_digits};
pub use name::is_name;
pub use opening::{is_invite, size_of_line};
pub use rule::LineRule;
pub use step::ViewerStep;
pub use wire_num::OutOfMemory;
pub use words::is_text_line;
