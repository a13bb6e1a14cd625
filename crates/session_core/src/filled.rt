//! Which slots drawings fill.

ghost use Rattle.std.specs.Prelude.{◌≡◌, ◌<◌, length, IfSome};
ghost use Rattle.draw_ops.specs.Slots.{glyph_slot};
ghost use Rattle.session_core.specs.declared.filled.Slot.TheVariants.{Glyph};
ghost use Rattle.session_core.specs.Filled.{filled_by, is_same_slot, fills, last_filling};

use draw_ops::{Drawing, Shape};

/// A slot of a surface.
#[derive(Clone, Copy)]
pub enum Slot {
    Image(u8),
    Brush(u8),
    /// 256 times the font, and the code.
    Glyph(u32),
    Block(u8),
}

/// The slot that a shape loads or saves into.
fn filled_by(shape: &Shape) -> Option<Slot>
    ensures { result ≡ filled_by shape.now }
{
    match shape {
        Shape::Save { slot, .. } => Some(Slot::Block(*slot)),
        Shape::LoadImage { slot, .. } => Some(Slot::Image(*slot)),
        Shape::LoadBrush { slot, .. } => Some(Slot::Brush(*slot)),
        Shape::LoadGlyph { font, code, .. } => Some(glyph_slot(*font, *code)),
        _ => None,
    }
}

/// The slot of a font's glyph.
pub fn glyph_slot(font: u8, code: u8) -> Slot
    ensures { result ≡ Glyph (glyph_slot font code) }
{
    Slot::Glyph(256 * u32::from(font) + u32::from(code))
}

/// Whether two slots are the same.
fn is_same_slot(a: Slot, b: Slot) -> bool
    ensures { result ≡ is_same_slot a b }
{
    match (a, b) {
        (Slot::Image(a), Slot::Image(b)) => a == b,
        (Slot::Brush(a), Slot::Brush(b)) => a == b,
        (Slot::Glyph(a), Slot::Glyph(b)) => a == b,
        (Slot::Block(a), Slot::Block(b)) => a == b,
        (_, _) => false,
    }
}

/// Whether a shape fills a slot.
fn fills(wanted: Slot, shape: &Shape) -> bool
    ensures { result ≡ fills wanted shape.now }
{
    match filled_by(shape) {
        Some(slot) => is_same_slot(wanted, slot),
        None => false,
    }
}

/// The place of the last drawing that fills a slot.
pub fn last_filling(wanted: Slot, ds: &[Drawing]) -> Option<usize>
    ensures place { result ≡ last_filling wanted ds.now }
    ensures within { IfSome result (λ i. i < length ds.now) }
{
    let mut last = None;
    for i in 0..ds.len() {
        if fills(wanted, &ds[i].shape) {
            last = Some(i);
        }
    }
    last
}
