ghost use Rattle.std.specs.Prelude.{◌≡◌, ℕ, List, IfOk};

use crate::OutOfMemory;
use std::alloc::Global;
use std::marker::Model;

/// The glyphs of a text: each one's code, and how far the pen moves to the right before it is drawn, in pixels.
#[derive(Debug, Drop)]
pub struct Run {
    pairs: Vec<(u8, u8)>,
}

impl Model for Run {
    ghost Value = { List (ℕ × ℕ) };

    ghost view = { λ s. s.pairs.items };
}

impl Run {
    /// Makes a run of pairs of code and delta.
    pub fn new(alloc: Global, pairs: &[(u8, u8)]) -> Result<Run, OutOfMemory>
        ensures { IfOk result (λ run. run ≡ pairs.now) }
    {
        let pairs = Vec::from_slice(alloc, pairs)?;
        Ok(Run { pairs })
    }

    /// The pairs of code and delta, in their order.
    pub fn pairs(&self) -> &[(u8, u8)]
        ensures { result.now ≡ self.now }
    {
        self.pairs.as_slice()
    }
}
