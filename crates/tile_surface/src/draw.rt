//! Drawings on the surface: all memory is taken first, then nothing can fail.
ghost use Rattle.std.specs.Prelude.{◌≡◌, ◌+◌, ◌-◌, ◌<◌, ◌≤◌, ◌^◌, None, IfOk, IfErr, OnOk, OnErr, length};
ghost use Rattle.draw_ops.specs.Drawing.{state_after_drawing};
ghost use Rattle.draw_ops.specs.Fits.{broken_rule, slot_misfit};
ghost use Rattle.draw_ops.specs.Ranges.{HasColors};
ghost use Rattle.surface_parts.specs.Surfaces.{IsSoundSurface};
ghost use Rattle.surface_parts.specs.Held.{state_of, IsRoomFor};
ghost use Rattle.surface_parts.specs.Refused.{SaysMisfit};
ghost use Rattle.tile_surface.specs.Cells.{picture_of, IsTiled};
ghost use Rattle.tile_surface.specs.Ownership.{KeepsRest};
ghost use Rattle.tile_surface.specs.Touched.{OwnsShape};

use crate::cell::Cell;
use crate::paint::{own_shape, paint};
use crate::saves::fill_slot;
use crate::tiles::Tiles;
use draw_ops::Drawing;
use px_core::Size;
use surface_parts::{DrawFault, Room, Slots, Window};
use wire_num::OutOfMemory;

impl Tiles {
    /// Draws a drawing that keeps all rules. An `Err` leaves the surface as it was.
    ///
    /// It answers want of memory also after 2^64 - 1 drawings, which can't be counted further.
    pub fn draw(&mut self, d: &Drawing) -> Result<(), DrawFault>
        requires rules { broken_rule self.old.size d.now ≡ None }
        requires colors { HasColors d.now }
        ensures fits { OnOk result (slot_misfit self.old.size self.old.state d.now.shape ≡ None) }
        ensures drawn { OnOk result (self.new ≡ record { size = self.old.size; state = state_after_drawing self.old.size self.old.state d.now }) }
        ensures refused { IfErr result (λ fault. SaysMisfit fault (slot_misfit self.old.size self.old.state d.now.shape)) }
        ensures unchanged { OnErr result (self.new ≡ self.old) }
    {
        self.fit(d)?;
        self.draw_fit(d)?;
        Ok(())
    }

    /// Draws a drawing that keeps all rules and fits the slots, for whoever has asked already. An `Err` leaves the surface as it was.
    ///
    /// It answers want of memory also after 2^64 - 1 drawings, which can't be counted further.
    pub fn draw_fit(&mut self, d: &Drawing) -> Result<(), OutOfMemory>
        requires rules { broken_rule self.old.size d.now ≡ None }
        requires slots { slot_misfit self.old.size self.old.state d.now.shape ≡ None }
        requires colors { HasColors d.now }
        ensures drawn { OnOk result (self.new ≡ record { size = self.old.size; state = state_after_drawing self.old.size self.old.state d.now }) }
        ensures unchanged { OnErr result (self.new ≡ self.old) }
    {
        let room = self.room_for(d)?;
        self.draw_fitting(d, room)
    }

    /// The memory that a drawing takes for its slot, where one more can be counted.
    fn room_for(&self, d: &Drawing) -> Result<Room, OutOfMemory>
        requires { broken_rule self.now.size d.now ≡ None }
        ensures room { IfOk result (λ room. IsRoomFor self.now.state.count d.now.shape room) }
        ensures count { OnOk result (self.now.state.count < 2 ^ 64 - 1) }
    {
        if self.count == u64::MAX {
            return Err(OutOfMemory);
        }
        Room::new(self.alloc, self.count + 1, &d.shape)
    }

    /// Draws a drawing that fits, with its memory, where memory was left for the tiles that it paints on.
    fn draw_fitting(&mut self, d: &Drawing, room: Room) -> Result<(), OutOfMemory>
        requires rules { broken_rule self.old.size d.now ≡ None }
        requires slots { slot_misfit self.old.size self.old.state d.now.shape ≡ None }
        requires colors { HasColors d.now }
        requires room { IsRoomFor self.old.state.count d.now.shape room }
        requires count { self.old.state.count < 2 ^ 64 - 1 }
        ensures drawn { OnOk result (self.new ≡ record { size = self.old.size; state = state_after_drawing self.old.size self.old.state d.now }) }
        ensures unchanged { OnErr result (self.new ≡ self.old) }
    {
        own_shape(
            self.cells.as_mut_slice(),
            self.alloc,
            Window {
                size: self.size,
                clip: d.clip,
            },
            &self.slots,
            &d.shape,
        )?;
        draw_owned(
            self.cells.as_mut_slice(),
            &mut self.slots,
            self.count,
            self.size,
            d,
            room,
            self.pattern.as_mut_slice(),
            self.source.as_mut_slice(),
        );
        self.count += 1;
        Ok(())
    }
}

/// Draws a drawing that fits as the next one, with its memory, on tiles that are the surface's own. The two rows are for the operands of
/// one row.
pub(crate) fn draw_owned(
    cells: &mut [Cell],
    slots: &mut Slots,
    count: u64,
    size: Size,
    d: &Drawing,
    room: Room,
    pattern: &mut [u32],
    source: &mut [u32],
)
    requires tiled { IsTiled size cells.old }
    requires sound { IsSoundSurface size (state_of (picture_of size cells.old) slots.old count) }
    requires rules { broken_rule size d.now ≡ None }
    requires fits { slot_misfit size (state_of (picture_of size cells.old) slots.old count) d.now.shape ≡ None }
    requires colors { HasColors d.now }
    requires room { IsRoomFor count d.now.shape room }
    requires own { OwnsShape size slots.old cells.old d.now.clip d.now.shape }
    requires count { count < 2 ^ 64 - 1 }
    requires pattern { 2048 ≤ length pattern.old }
    requires source { 2048 ≤ length source.old }
    ensures drawn { state_of (picture_of size cells.new) slots.new (count + 1)
        ≡ state_after_drawing size (state_of (picture_of size cells.old) slots.old count) d.now }
    ensures kept { KeepsRest size cells.old cells.new }
{
    fill_slot(slots, count, room, cells, size);
    paint(
        cells,
        Window { size, clip: d.clip },
        slots,
        &d.shape,
        pattern,
        source,
    );
}
