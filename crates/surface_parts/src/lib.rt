//! The parts of a session's surface: what its slots hold, which drawings they refuse, and how drawings are painted on a picture (profile).
//!
//! Drawings work by rows. Each keeps the meaning that `draw_ops` gives it: every new pixel is a formula of the picture before it.
#![tactic(auto)]

mod block;
mod fault;
mod fits;
mod glyphs;
mod line;
mod loaded_brush;
mod loaded_glyph;
mod loaded_image;
mod mix;
mod part;
mod picture_copy;
mod rects;
mod room;
mod rows;
mod slots;
mod text;
mod texture;
mod window;

pub use block::{Block, black_pixels};
pub use fault::DrawFault;
pub use glyphs::{Bits, cell_of, draw_bit_row, draw_bits, draw_glyph};
pub use line::{
    Course, Dot, Ends, Steps, course_of, distance, draw_course, draw_line, risen, steps_in, towards,
};
pub use loaded_brush::LoadedBrush;
pub use loaded_glyph::LoadedGlyph;
pub use loaded_image::LoadedImage;
pub use mix::{Mix, mix_part, ready_pattern, ready_source, set_pattern, set_source};
pub use part::{Part, part_of, visible};
pub use picture_copy::PictureCopy;
pub use rects::{Blend, fill_rect, mix_rect, paste_block, restore_block, source_texture};
pub use room::{Room, take_rooms};
pub use rows::{cut_pixels, cut_rect, fill_part, paste_part};
pub use slots::Slots;
pub use text::{Script, write_run};
pub use texture::{Texture, source_place, texture_of};
pub use window::Window;
pub use wire_num::OutOfMemory;
