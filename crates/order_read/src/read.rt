use draw_ops::{Brush, Glyph};
use order_fields::Fields;
use px_core::Rect;
use wire_num::Range;

/// What an order says.
#[derive(Drop)]
pub enum Read {
    /// A drawing: its complete field list, and the rectangle of its bounds, which has no pixel where an edge lies before its opposite.
    Primary {
        fields: Fields,
        bounds: Option<Rect>,
    },
    /// A bitmap for a cache: its pixels, raw or packed, are the bytes of that part of the body. Its bits per pixel and its flags aren't looked at.
    Bitmap {
        cache: u8,
        index: u16,
        w: u8,
        h: u8,
        depth: u8,
        flags: u16,
        packed: bool,
        at: Range,
    },
    /// A glyph for a cache; an order of several glyphs says one of these each.
    Glyph {
        cache: u8,
        index: u16,
        glyph: Glyph,
    },
    /// A brush for the cache.
    Brush {
        entry: u8,
        brush: Brush,
    },
    /// A frame begins, or ends.
    Marker {
        end: bool,
    },
}
