use crate::{Cached, OutOfMemory, Pending};
use std::alloc::Global;
use std::marker::Model;

/// A drawing that goes as an order, and what was decided of it.
#[derive(Drop)]
pub struct Planned {
    /// The drawing, with what its slots held.
    pub pending: Pending,
    /// The position of its block, or 0 where it has none.
    pub position: u32,
    /// What it takes from the viewer's caches.
    pub cached: Cached,
}

/// Drawings that go as orders, in their order.
#[derive(Drop)]
pub struct Orders {
    planned: Vec<Planned>,
}

impl Model for Orders {
    ghost use Rattle.std.specs.Prelude.{List};
    ghost use Rattle.frame_plan.specs.declared.orders.Planned.{Planned};

    ghost Value = { List Planned };

    ghost view = { λ s. s.planned.items };
}

impl Orders {
    ghost use Rattle.std.specs.Prelude.{◌≡◌, [], ◌∷◌, ◌++◌, IfOk, OnOk, OnErr};

    /// No drawings, with room for so many at once.
    pub(crate) fn with_room(alloc: Global, count: usize) -> Result<Orders, OutOfMemory>
        ensures { IfOk result (λ orders. orders ≡ []) }
    {
        let planned = Vec::with_capacity(alloc, count)?;
        Ok(Orders { planned })
    }

    /// No drawings.
    pub(crate) fn none(alloc: Global) -> Orders
        ensures { result ≡ [] }
    {
        Orders {
            planned: Vec::new(alloc),
        }
    }

    /// Appends a drawing. An `Err` changes nothing.
    pub(crate) fn push(&mut self, planned: Planned) -> Result<(), OutOfMemory>
        ensures ok { OnOk result (self.new ≡ self.old ++ planned ∷ []) }
        ensures unchanged { OnErr result (self.new ≡ self.old) }
    {
        self.planned.push(planned)?;
        Ok(())
    }

    /// The drawings.
    pub fn planned(&self) -> &[Planned]
        ensures { result.now ≡ self.now }
    {
        &self.planned
    }
}
