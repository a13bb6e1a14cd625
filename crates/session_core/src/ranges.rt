//! Numbers are in the ranges of their types.

ghost use Rattle.std.specs.Prelude.{◌≡◌, true};
ghost use Rattle.session_rules.specs.Journal.{is_event_in_range};
ghost use Rattle.draw_ops.specs.Ranges.{is_u8, is_u16, is_point_in_range, is_rect_in_range, is_glyph_in_range, are_bytes, are_byte_pairs};

use draw_ops::Glyph;
use input_pdu::Event;
use px_core::Rect;

/// The numbers of an event are in range. It does nothing.
pub fn recall_event_range(e: Event)
    ensures { is_event_in_range e ≡ true }
{
    match e {
        Event::Scan { code, .. } => recall_side_range(code),
        Event::Unicode { code, .. } => recall_side_range(code),
        Event::Mouse { flags, x, y } => {
            recall_side_range(flags);
            recall_side_range(x);
            recall_side_range(y);
        }
        Event::Sync | Event::MouseX => {}
    }
}

/// A byte is in range.
pub fn byte_is_in_range(n: u8)
    ensures { is_u8 n ≡ true }
{
    let _ = n;
}

/// A side is in range.
pub fn recall_side_range(n: u16)
    ensures { is_u16 n ≡ true }
{
    let _ = n;
}

/// A point is in range.
pub fn point_is_in_range(x: i32, y: i32)
    ensures { is_point_in_range x y ≡ true }
{
    let _ = (x, y);
}

/// A rectangle is in range.
pub fn recall_rect_range(r: Rect)
    ensures { is_rect_in_range r ≡ true }
{
    let _ = r;
}

/// The numbers of a glyph are in range.
pub fn glyph_is_in_range(glyph: &Glyph)
    ensures { is_glyph_in_range glyph.now ≡ true }
{
    point_is_in_range(glyph.x(), glyph.y());
    recall_side_range(glyph.cx());
    recall_side_range(glyph.cy());
    bytes_are_in_range(glyph.bits());
}

/// Bytes are in range.
fn bytes_are_in_range(bytes: &[u8])
    ensures { are_bytes bytes.now ≡ true }
{
    for byte in bytes {
        byte_is_in_range(*byte);
    }
}

/// The bytes of a run are in range.
pub fn pairs_are_in_range(pairs: &[(u8, u8)])
    ensures { are_byte_pairs pairs.now ≡ true }
{
    for pair in pairs {
        byte_is_in_range(pair.0);
        byte_is_in_range(pair.1);
    }
}
