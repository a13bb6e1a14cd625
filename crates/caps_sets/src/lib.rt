//! What a viewer confirmed: the capability sets of its Confirm Active PDU ([MS-RDPBCGR] 2.2.1.13.2 and 2.2.7).
#![tactic(auto)]

mod bitmap_cache_set;
mod brush_set;
mod cache_size;
mod caches;
mod caps_fault;
mod confirm_active;
mod confirmed;
mod demand_active;
mod general_set;
mod glyph_cache_set;
mod order_set;
mod pointer_set;
mod preset_words;
mod set_kind;
mod sets_so_far;

pub use cache_size::CacheSize;
pub use caches::{BITMAP_CACHES, Caches, Caches3, Caches10, GLYPH_CACHES};
pub use caps_fault::CapsFault;
pub use confirm_active::{confirms_are_read_exactly, read_confirm};
pub use confirmed::Confirmed;
pub use demand_active::{write_demand, write_demand_with};
pub use preset_words::{is_pointer_word, preset};
pub use wire_num::OutOfMemory;
