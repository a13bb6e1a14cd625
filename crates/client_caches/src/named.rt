use client_picture::Color;
use px_core::Rect;

/// A drawing as a client sees it: rectangles, codes of raster operations, sources, and entries of caches. A run of glyphs is the counted bytes of its order.
#[derive(Clone, Copy, Debug)]
pub enum Named {
    /// DstBlt.
    Dst {
        rect: Rect,
        rop: u8,
    },
    /// PatBlt with a cached brush.
    Pat {
        rect: Rect,
        rop: u8,
        entry: u8,
    },
    /// ScrBlt.
    Scr {
        rect: Rect,
        rop: u8,
        sx: i32,
        sy: i32,
    },
    /// OpaqueRect.
    Opaque {
        rect: Rect,
        color: Color,
    },
    /// SaveBitmap that saves.
    Save {
        position: u32,
        rect: Rect,
    },
    /// SaveBitmap that restores.
    Restore {
        position: u32,
        rect: Rect,
    },
    /// MemBlt.
    Mem {
        cache: u16,
        index: u16,
        rect: Rect,
        rop: u8,
        sx: i32,
        sy: i32,
    },
    /// Mem3Blt with a cached brush.
    Mem3 {
        cache: u16,
        index: u16,
        rect: Rect,
        rop: u8,
        sx: i32,
        sy: i32,
        entry: u8,
    },
    /// GlyphIndex.
    Glyphs {
        cache: u8,
        x: i32,
        y: i32,
        color: Color,
    },
}
