//! A client's picture, whose pixels may be unknown, and what drawing orders make of it: each pixel is a colour or unknown, in four bytes
//! ([MS-RDPEGDI] 2.2.2.2.1.1.2).
//!
//! The picture at the last mark is kept beside it. Each call is given what an order names; whether it may be obeyed is tested before.
#![tactic(auto)]

mod color;
mod copies;
mod corner;
mod frame;
mod glyphs;
mod known;
mod mix;
mod part;
mod picture;
mod pixel;
mod rects;
mod rows;
mod source;
mod touched;

pub use color::Color;
pub use known::Pixel;
pub use picture::ClientPicture;
pub use source::Source;
pub use wire_num::OutOfMemory;
