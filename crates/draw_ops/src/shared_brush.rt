ghost use Rattle.std.specs.Prelude.{◌≡◌, IfOk};

use crate::OutOfMemory;
use crate::brush::Brush;
use std::alloc::Global;
use std::marker::Model;
use std::sync::Arc;

/// A handle of a brush, to be loaded into a slot.
///
/// Several handles may share the colours; a handle is as small as a pointer.
#[derive(Debug, Drop)]
pub struct SharedBrush {
    brush: Arc<Brush>,
}

impl Model for SharedBrush {
    ghost use Rattle.std.specs.Prelude.{ℕ, List};
    ghost use Rattle.std.specs.Arc.{arc_value};

    ghost Value = { List ℕ };

    ghost view = { λ s. arc_value s.brush };
}

impl SharedBrush {
    /// Makes the first handle of a brush.
    pub fn new(alloc: Global, brush: Brush) -> Result<SharedBrush, OutOfMemory>
        ensures { IfOk result (λ shared. shared ≡ brush) }
    {
        let brush = Arc::new(alloc, brush)?;
        Ok(SharedBrush { brush })
    }

    /// One more handle of the same brush; no colour is copied.
    pub fn share(&self) -> Result<SharedBrush, OutOfMemory>
        ensures { IfOk result (λ shared. shared ≡ self.now) }
    {
        let brush = Arc::try_clone(&self.brush)?;
        Ok(SharedBrush { brush })
    }

    /// The brush.
    pub fn brush(&self) -> &Brush
        ensures { result.now ≡ self.now }
    {
        &self.brush
    }
}
