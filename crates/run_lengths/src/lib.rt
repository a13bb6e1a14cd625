//! Run-length bitmaps: what a byte stream of drawing orders means in pixels, and the bytes that this project's packer writes
//! ([MS-RDPBCGR] 2.2.9.1.1.3.1.2.4 and 3.1.9), at a depth; and which bytes pixels go as. Definitions and their laws alone.
//!
//! | code | order | length |
//! |---|---|---|
//! | 00 to 1F, F0 | background run | run |
//! | 20 to 3F, F1 | foreground run | run |
//! | 40 to 5F, F2 | mask image | mask |
//! | 60 to 7F, F3 | colour run: one pixel follows | run |
//! | 80 to 9F, F4 | colour image: that many pixels follow | run |
//! | C0 to CF, F6 | foreground pixel follows, then a foreground run | lite run |
//! | D0 to DF, F7 | foreground pixel follows, then a mask image | lite mask |
//! | E0 to EF, F8 | dithered run: two pixels follow, repeated in turn | lite run |
//! | F9, FA | mask image of 8 pixels with the mask 03, 05 | |
//! | FD, FE | one white, one black pixel | |
//!
//! A length "run" is the low five bits of the code, or, where they are 0, the next byte and 32. "Mask" is the low five bits times 8, or
//! the next byte and 1. "Lite" is the same with the low four bits, and 16 for runs. From F0 to F8 the length is the next two bytes, the
//! low one first.
//! A pixel has as many bytes as the depth has, the lowest of its number first: of 24 bits blue, green, red, and the number 65536 * red +
//! 256 * green + blue here. The bottom row comes first.
#![tactic(auto)]

mod codes;
pub mod stream_laws;
mod strokes;

pub use codes::{Before, Length, Row, RunKind};
pub use strokes::Stroke;
