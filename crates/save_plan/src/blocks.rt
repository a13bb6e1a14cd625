//! The blocks that a client holds for the host, by their slots.

ghost use Rattle.std.specs.Prelude.{◌≡◌, ℕ, [], ◌∷◌, IfOk, OnErr};
ghost use Rattle.save_plan.specs.Blocks.{placed, positions_of, place_of, without_slot, IsFree, IsLeastFree, AreApart};

use crate::room::room_for;
use crate::{OutOfMemory, Place};
use std::alloc::Global;
use std::marker::Model;

/// Why a block isn't placed.
#[derive(Clone, Copy, Debug, PartialEq, Eq)]
pub enum PlaceFault {
    /// No row of positions that is long enough is free.
    NoRoom,
    /// No memory was left.
    OutOfMemory,
}

/// The blocks held, each by its slot: the one placed last first.
#[derive(Drop)]
pub struct Blocks {
    held: Vec<(u8, Place)>,
}

impl Model for Blocks {
    ghost use Rattle.save_plan.specs.Blocks.{Held, AreApart};

    ghost Value = { Held };

    ghost view = { λ b. b.held.items };

    ghost invariant = { λ b. AreApart b.held.items };
}

impl Blocks {
    /// No blocks.
    pub fn new(alloc: Global) -> Blocks
        ensures { result ≡ [] }
    {
        Blocks {
            held: Vec::new(alloc),
        }
    }

    /// Places a block of these sides, in pixels, for a slot that holds none, at the least position
    /// from which enough are free; answers that position.
    ///
    /// After an `Err` the blocks are as before.
    pub fn place(&mut self, slot: u8, w: u32, h: u32) -> Result<u32, PlaceFault>
        requires { place_of slot self.old ≡ None }
        ensures least { IfOk result (λ position. IsLeastFree (positions_of w h) self.old position) }
        ensures held { IfOk result (λ position. self.new ≡ (slot, placed position w h) ∷ self.old) }
        ensures full { ((from : ℕ) → IsFree (positions_of w h) self.old from → ⊥) → result ≡ Err PlaceFault.NoRoom }
        ensures no_room { result ≡ Err PlaceFault.NoRoom → (from : ℕ) → IsFree (positions_of w h) self.old from → ⊥ }
        ensures unchanged { OnErr result (self.new ≡ self.old) }
        ensures apart { AreApart self.new }
    {
        let Some(position) = room_for(&self.held, w, h) else {
            return Err(PlaceFault::NoRoom);
        };
        match self.held.insert(0, (slot, Place { position, w, h })) {
            Ok(()) => Ok(position),
            Err(_) => Err(PlaceFault::OutOfMemory),
        }
    }

    /// Where a slot's block stands, where the slot holds one.
    pub fn get(&self, slot: u8) -> Option<Place>
        ensures { result ≡ place_of slot self.now }
    {
        for (held, place) in &self.held {
            if *held == slot {
                return Some(*place);
            }
        }
        None
    }

    /// What holds of all blocks; it does nothing.
    pub fn recall_apart(&self)
        ensures { AreApart self.now }
    {
        let _ = &self.held;
    }

    /// The same blocks once more.
    pub fn copy(&self, alloc: Global) -> Result<Blocks, OutOfMemory>
        ensures { IfOk result (λ blocks. blocks ≡ self.now) }
    {
        let held = Vec::from_slice(alloc, &self.held)?;
        Ok(Blocks { held })
    }

    /// Gives up a slot's block; a slot that holds none stays so. Takes no memory.
    pub fn free(&mut self, slot: u8)
        ensures given_up { self.new ≡ without_slot slot self.old }
        ensures none { place_of slot self.new ≡ None }
        ensures nothing { place_of slot self.old ≡ None → self.new ≡ self.old }
        ensures apart { AreApart self.new }
    {
        self.held.retain(|(held, _)| *held != slot);
    }
}
