//! The caches of a client and what its orders name: images, glyphs and brushes of the confirmed sizes, and drawings by their fields ([MS-RDPEGDI] 2.2.2.2.1.1 and 2.2.2.2.1.2).
#![tactic(auto)]

mod blocks;
mod cached_bitmap;
mod caches;
mod drawings;
mod glyph_cache;
mod image_cache;
mod kept_image;
mod named;
mod obey_fault;
mod run;
mod sizes;
mod slots;
mod values;
mod wire;

pub use blocks::{ClientBlocks, KeptBlock, ends_before};
pub use cached_bitmap::{CachedBitmap, is_bitmap};
pub use caches::ClientCaches;
pub use drawings::{drawing_of, fill_of};
pub use kept_image::KeptImage;
pub use named::Named;
pub use obey_fault::ObeyFault;
pub use run::check_run;
pub use wire::upright_pixels;
pub use wire_num::OutOfMemory;
