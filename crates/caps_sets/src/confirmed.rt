//! What a viewer confirmed, as far as frames depend on it ([MS-RDPBCGR] 2.2.7).
#![tactic(auto)]

ghost use Rattle.std.specs.Prelude.{◌≡◌};
ghost use Rattle.caps_sets.specs.Confirmed.{pointer_cells};

use crate::pointer_set::MOST_POINTERS;
use crate::{Caches3, Caches10};
use px_core::Depth;

/// What a viewer confirmed, as far as frames depend on it.
#[derive(Clone, Copy, PartialEq, Eq)]
pub struct Confirmed {
    /// DstBlt orders ([MS-RDPBCGR] 2.2.7.1.3).
    pub dst: bool,
    /// PatBlt and OpaqueRect orders.
    pub pat: bool,
    /// ScrBlt orders.
    pub scr: bool,
    /// MemBlt orders.
    pub mem: bool,
    /// Mem3Blt orders.
    pub mem3: bool,
    /// SaveBitmap orders.
    pub save: bool,
    /// GlyphIndex orders.
    pub glyph: bool,
    /// Zero bounds deltas in primary orders.
    pub zero_bounds: bool,
    /// Frame markers ([MS-RDPBCGR] 2.2.7.1.3, orderSupportExFlags).
    pub marker: bool,
    /// Packed bitmaps without the compression header ([MS-RDPBCGR] 2.2.7.1.1).
    pub no_header: bool,
    /// Color brushes ([MS-RDPBCGR] 2.2.7.1.7).
    pub brush: bool,
    /// The support level of glyphs ([MS-RDPBCGR] 2.2.7.1.8).
    pub glyph_level: u16,
    /// The sizes of the bitmap caches.
    pub bitmaps: Caches3,
    /// The sizes of the glyph caches.
    pub glyphs: Caches10,
    /// Whether drawings are cut before they are sent, as for a client that states a protocol version (profile; [MS-RDPBCGR]
    /// 2.2.7.1.1).
    pub cautious: bool,
    /// The bits of a pixel that it is shown.
    pub depth: Depth,
    /// Whether its updates go in packets of the fast path ([MS-RDPBCGR] 2.2.9.1.2).
    pub fast: bool,
    /// How many shapes of pointers it keeps, at most 25 ([MS-RDPBCGR] 2.2.7.1.5).
    pub pointers: u16,
}

impl Confirmed {
    /// How many shapes of pointers the viewer is told to keep; one that keeps none is told no pointer.
    pub fn pointer_cells(&self) -> u16
        ensures { result ≡ pointer_cells self.now }
    {
        MOST_POINTERS.min(self.pointers)
    }
}
