ghost use Rattle.std.specs.Prelude.{◌≡◌, IfOk, option_copied};
ghost use Rattle.draw_ops.specs.Slots.{empty_slots, filled_slot, lookup};

use crate::KeptImage;
use crate::slots::{no_slots, set_slot};
use std::alloc::Global;
use std::marker::Model;
use wire_num::OutOfMemory;

/// The entries of one bitmap cache, by their indices.
#[derive(Drop)]
pub(crate) struct ImageCache {
    slots: Vec<Option<KeptImage>>,
}

impl Model for ImageCache {
    ghost use Rattle.draw_ops.specs.Content.{ImageOf};
    ghost use Rattle.draw_ops.specs.Slots.{Slots};

    ghost Value = { Slots ImageOf };

    ghost view = { λ s. s.slots.items };
}

impl ImageCache {
    /// A cache of so many entries that hold nothing.
    pub(crate) fn new(alloc: Global, entries: usize) -> Result<ImageCache, OutOfMemory>
        ensures { IfOk result (λ cache. cache ≡ empty_slots entries) }
    {
        let slots = no_slots(alloc, entries)?;
        Ok(ImageCache { slots })
    }

    /// Keeps an image at an index; there is none past the last.
    pub(crate) fn put(&mut self, index: usize, image: KeptImage)
        ensures { self.new ≡ filled_slot index image self.old }
    {
        set_slot(&mut self.slots, index, image);
    }

    /// The image at an index.
    pub(crate) fn at(&self, index: usize) -> Option<&KeptImage>
        ensures { option_copied result ≡ lookup index self.now }
    {
        self.slots.get(index)?.as_ref()
    }
}
