//! Lines, words and numbers of ASCII text, as scripts and captures write them (profile).
#![tactic(auto)]

mod hexadecimal;
mod number;
mod parts;
mod word;

pub use hexadecimal::{read_hexadecimal, read_hexadecimals};
pub use number::{read_coordinate, read_number, write_decimal};
pub use parts::Parts;
pub use wire_num::OutOfMemory;
pub use word::{find_byte, is_same_word};
