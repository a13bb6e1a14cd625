ghost use Rattle.std.specs.Prelude.{◌≡◌, IfOk, option_copied};
ghost use Rattle.draw_ops.specs.Slots.{empty_slots, filled_slot, lookup};

use crate::slots::{no_slots, set_slot};
use draw_ops::Glyph;
use std::alloc::Global;
use std::marker::Model;
use wire_num::OutOfMemory;

/// The entries of one glyph cache, by their indices.
#[derive(Drop)]
pub(crate) struct GlyphCache {
    slots: Vec<Option<Glyph>>,
}

impl Model for GlyphCache {
    ghost use Rattle.draw_ops.specs.Content.{GlyphOf};
    ghost use Rattle.draw_ops.specs.Slots.{Slots};

    ghost Value = { Slots GlyphOf };

    ghost view = { λ s. s.slots.items };
}

impl GlyphCache {
    /// A cache of so many entries that hold nothing.
    pub(crate) fn new(alloc: Global, entries: usize) -> Result<GlyphCache, OutOfMemory>
        ensures { IfOk result (λ cache. cache ≡ empty_slots entries) }
    {
        let slots = no_slots(alloc, entries)?;
        Ok(GlyphCache { slots })
    }

    /// Keeps a glyph at an index; there is none past the last.
    pub(crate) fn put(&mut self, index: usize, glyph: Glyph)
        ensures { self.new ≡ filled_slot index glyph self.old }
    {
        set_slot(&mut self.slots, index, glyph);
    }

    /// The glyph at an index.
    pub(crate) fn at(&self, index: usize) -> Option<&Glyph>
        ensures { option_copied result ≡ lookup index self.now }
    {
        self.slots.get(index)?.as_ref()
    }

    /// What each index holds.
    pub(crate) fn slots(&self) -> &[Option<Glyph>]
        ensures { result.now ≡ self.now }
    {
        self.slots.as_slice()
    }
}
