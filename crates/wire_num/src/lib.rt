//! Bytes and their fields: reading them from the front, numbers and pixels in them, lengths (X.690, 8.1.3; X.691, 10.9), a cursor that
//! reads and the calls that write; and the answer for want of memory, one type for every crate (profile).
#![tactic(auto)]

mod cursor;
mod laws;
mod layout;
mod length;
mod number;
mod out_of_memory;
mod range;
mod short;

pub use cursor::Cursor;
pub use laws::{fields_are_tests_of_the_length, numbers_are_read_back, pixels_are_read_back};
pub use layout::layouts_are_read_exactly;
pub use length::{put_ber_len, put_per_len};
pub use number::{put_u16_be, put_u16_le, put_u32_le};
pub use out_of_memory::OutOfMemory;
pub use range::Range;
pub use short::Short;
