//! The session's drawings: their shapes, what they hold, what they mean, and which of them are refused (profile).
//!
//! A colour is a number below 2^24, `65536 * red + 256 * green + blue`. Every list of pixels goes row by row from the top.
#![tactic(auto)]

mod brush;
pub mod depth_laws;
mod fault;
mod glyph;
mod image;
pub mod laws;
mod least_rule;
mod rect_rule;
mod rules;
mod run;
mod shape;
mod shared_brush;

pub use brush::Brush;
pub use fault::BadDrawing;
pub use glyph::Glyph;
pub use image::Image;
pub use least_rule::valid;
pub use rect_rule::keeps_rect_rule;
pub use run::Run;
pub use shape::{Drawing, Shape};
pub use shared_brush::SharedBrush;
pub use wire_num::OutOfMemory;
