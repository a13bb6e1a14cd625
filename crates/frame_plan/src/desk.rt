//! What is kept of a viewer between its takes.
ghost use Rattle.std.specs.Prelude.{◌≡◌, Ok};
ghost use Rattle.save_plan.specs.Blocks.{AreApart};
ghost use Rattle.frame_plan.specs.Takes.{first_desk};

use crate::OutOfMemory;
use caps_sets::Confirmed;
use save_plan::Blocks;
use std::alloc::Global;
use std::marker::Model;

/// What is kept of one viewer between its takes: what it confirmed, the number of its last frame, the blocks that it holds, and how many
/// frames it was given.
#[derive(Drop)]
pub struct Desk {
    pub(crate) v: u32,
    pub(crate) confirmed: Confirmed,
    pub(crate) number: u64,
    pub(crate) held: Blocks,
    pub(crate) taken: u64,
}

impl Model for Desk {
    ghost use Rattle.frame_plan.specs.Takes.{DeskModel};

    ghost Value = { DeskModel };

    ghost view = { λ s. record { v = s.v; confirmed = s.confirmed; number = s.number; held = s.held; taken = s.taken } };
}

impl Desk {
    /// The desk of a viewer who was given no frame.
    pub fn new(alloc: Global, v: u32, confirmed: Confirmed) -> Result<Desk, OutOfMemory>
        ensures { result ≡ Ok (first_desk v confirmed) }
    {
        Ok(Desk {
            v,
            confirmed,
            number: 0,
            held: Blocks::new(alloc),
            taken: 0,
        })
    }

    /// The viewer's number.
    pub fn viewer(&self) -> u32
        ensures { result ≡ self.now.v }
    {
        self.v
    }

    /// What the viewer confirmed.
    pub fn confirmed(&self) -> &Confirmed
        ensures { result.now ≡ self.now.confirmed }
    {
        &self.confirmed
    }

    /// The number of its last frame; 0 before the first.
    pub fn number(&self) -> u64
        ensures { result ≡ self.now.number }
    {
        self.number
    }

    /// What holds of the blocks of every desk; it does nothing.
    pub fn recall_apart(&self)
        ensures { AreApart self.now.held }
    {
        self.held.recall_apart();
    }

    /// How many frames it was given.
    pub fn taken(&self) -> u64
        ensures { result ≡ self.now.taken }
    {
        self.taken
    }
}
