//! Drawings one after another: all memory is taken before the first, then nothing can fail.
ghost use Rattle.std.specs.Prelude.{◌≡◌, ◌+◌, ◌<◌, ◌≤◌, ◌^◌, IfOk, OnOk, OnErr, All, length};
ghost use Rattle.draw_ops.specs.Drawing.{state_after_drawings};
ghost use Rattle.draw_ops.specs.Fits.{AllFitState};
ghost use Rattle.draw_ops.specs.Ranges.{HasColors};
ghost use Rattle.surface_parts.specs.Held.{state_of, AreRooms};
ghost use Rattle.surface_parts.specs.Surfaces.{IsSoundSurface};
ghost use Rattle.tile_surface.specs.Cells.{picture_of, IsTiled};
ghost use Rattle.tile_surface.specs.Later.{OwnsAll};
ghost use Rattle.tile_surface.specs.Ownership.{KeepsRest};

use crate::cell::Cell;
use crate::draw::draw_owned;
use crate::own_all::own_all;
use crate::tiles::Tiles;
use draw_ops::Drawing;
use px_core::Size;
use std::collections::VecDeque;
use surface_parts::{Room, Slots, take_rooms};
use wire_num::OutOfMemory;

impl Tiles {
    /// Draws drawings of which each fits what those before it leave. An `Err` leaves the surface as it was.
    ///
    /// All memory is taken before the first drawing; then nothing can fail.
    pub fn draw_all(&mut self, ds: &[Drawing]) -> Result<(), OutOfMemory>
        requires fit { AllFitState self.old.size self.old.state ds.now }
        requires colors { All HasColors ds.now }
        ensures drawn { OnOk result (self.new ≡ record { size = self.old.size; state = state_after_drawings self.old.size self.old.state ds.now }) }
        ensures unchanged { OnErr result (self.new ≡ self.old) }
    {
        let rooms = self.rooms_for(ds)?;
        self.draw_with(ds, rooms)
    }

    /// The memory that drawings take for their slots, in their order, where so many more can be counted.
    fn rooms_for(&self, ds: &[Drawing]) -> Result<VecDeque<Room>, OutOfMemory>
        requires { AllFitState self.now.size self.now.state ds.now }
        ensures rooms { IfOk result (λ rooms. AreRooms self.now.state.count ds.now rooms.items) }
        ensures count { OnOk result (self.now.state.count + length ds.now < 2 ^ 64) }
    {
        if u64::MAX - self.count < ds.len() as u64 {
            return Err(OutOfMemory);
        }
        take_rooms(self.alloc, self.count, ds)
    }

    /// Draws drawings that fit, each with its memory, where memory was left for the tiles that they paint on.
    fn draw_with(&mut self, ds: &[Drawing], rooms: VecDeque<Room>) -> Result<(), OutOfMemory>
        requires fit { AllFitState self.old.size self.old.state ds.now }
        requires colors { All HasColors ds.now }
        requires rooms { AreRooms self.old.state.count ds.now rooms.items }
        requires count { self.old.state.count + length ds.now < 2 ^ 64 }
        ensures drawn { OnOk result (self.new ≡ record { size = self.old.size; state = state_after_drawings self.old.size self.old.state ds.now }) }
        ensures unchanged { OnErr result (self.new ≡ self.old) }
    {
        own_all(
            self.cells.as_mut_slice(),
            self.alloc,
            self.size,
            &self.slots,
            ds,
        )?;
        draw_each(
            self.cells.as_mut_slice(),
            &mut self.slots,
            self.count,
            self.size,
            ds,
            rooms,
            self.pattern.as_mut_slice(),
            self.source.as_mut_slice(),
        );
        self.count += ds.len() as u64;
        Ok(())
    }
}

/// Draws drawings that fit as the next ones, each with its memory, on tiles that are the surface's own. The two rows are for the operands of
/// one row.
fn draw_each(
    cells: &mut [Cell],
    slots: &mut Slots,
    count: u64,
    size: Size,
    ds: &[Drawing],
    rooms: VecDeque<Room>,
    pattern: &mut [u32],
    source: &mut [u32],
)
    requires tiled { IsTiled size cells.old }
    requires sound { IsSoundSurface size (state_of (picture_of size cells.old) slots.old count) }
    requires fit { AllFitState size (state_of (picture_of size cells.old) slots.old count) ds.now }
    requires colors { All HasColors ds.now }
    requires rooms { AreRooms count ds.now rooms.items }
    requires own { OwnsAll size slots.old cells.old ds.now }
    requires count { count + length ds.now < 2 ^ 64 }
    requires pattern { 2048 ≤ length pattern.old }
    requires source { 2048 ≤ length source.old }
    ensures drawn { state_of (picture_of size cells.new) slots.new (count + length ds.now)
        ≡ state_after_drawings size (state_of (picture_of size cells.old) slots.old count) ds.now }
    ensures sound { IsSoundSurface size (state_of (picture_of size cells.new) slots.new (count + length ds.now)) }
    ensures kept { KeepsRest size cells.old cells.new }
{
    let mut rooms = rooms;
    let mut drawn = count;
    for d in ds {
        let Some(room) = rooms.pop_front() else {
            return;
        };
        draw_owned(cells, slots, drawn, size, d, room, pattern, source);
        drawn += 1;
    }
}
