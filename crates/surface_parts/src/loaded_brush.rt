ghost use Rattle.std.specs.Prelude.{◌≡◌, IfOk};

use crate::OutOfMemory;
use draw_ops::{Brush, SharedBrush};
use std::marker::Model;

/// A brush in its slot, with the number of the drawing that loaded it.
///
/// Several handles may share the brush.
#[derive(Debug, Drop)]
pub struct LoadedBrush {
    number: u64,
    content: SharedBrush,
}

impl Model for LoadedBrush {
    ghost use Rattle.std.specs.Prelude.{ℕ, List};
    ghost use Rattle.draw_ops.specs.Slots.{Loaded};

    ghost Value = { Loaded (List ℕ) };

    ghost view = { λ s. record { number = s.number; content = s.content } };
}

impl LoadedBrush {
    /// What a drawing of this number loads.
    pub fn new(number: u64, content: SharedBrush) -> LoadedBrush
        ensures { result ≡ record { number = number; content = content } }
    {
        LoadedBrush { number, content }
    }

    /// The number of the drawing that loaded it, counted from 1.
    pub fn number(&self) -> u64
        ensures { result ≡ self.now.number }
    {
        self.number
    }

    /// One more handle of it; no colour is copied.
    pub fn share(&self) -> Result<LoadedBrush, OutOfMemory>
        ensures { IfOk result (λ brush. brush ≡ self.now) }
    {
        let content = self.content.share()?;
        Ok(LoadedBrush {
            number: self.number,
            content,
        })
    }

    /// The brush.
    pub fn content(&self) -> &Brush
        ensures { result.now ≡ self.now.content }
    {
        self.content.brush()
    }
}
