//! The session's surface: one picture and the slots that its drawings fill and read (profile).
//!
//! Copies within the picture work by rows; what else is painted stands in `surface_parts`.
#![tactic(auto)]

mod copies;
mod paint;
mod surface;

pub use surface::Surface;
pub use surface_parts::{DrawFault, LoadedBrush, LoadedGlyph, LoadedImage};
pub use wire_num::OutOfMemory;
