//! The surface: its picture, its slots, and the number of its drawings.
ghost use Rattle.std.specs.Prelude.{◌≡◌, ◌+◌, ◌-◌, ◌<◌, ◌^◌, None, IfOk, IfErr, OnOk, OnErr, IsTrue, All, length, option_copied, option_map};
ghost use Rattle.px_core.specs.Colors.{are_colors};
ghost use Rattle.px_core.specs.Picture.{pixel_at};
ghost use Rattle.px_core.specs.Rectangle.{is_inside, is_session_size, cut_out};
ghost use Rattle.draw_ops.specs.Slots.{opening_surface, lookup, glyph_slot};
ghost use Rattle.draw_ops.specs.Drawing.{state_after_drawing, state_after_drawings};
ghost use Rattle.draw_ops.specs.Fits.{broken_rule, slot_misfit, AllFitState};
ghost use Rattle.draw_ops.specs.Ranges.{HasColors};
ghost use Rattle.surface_parts.specs.Surfaces.{IsSoundSurface};
ghost use Rattle.surface_parts.specs.Held.{AreRooms, IsRoomFor};
ghost use Rattle.surface_parts.specs.Refused.{SaysMisfit, misfit_said};

use crate::paint::paint;
use draw_ops::Drawing;
use px_core::{Rect, Size};
use std::alloc::Global;
use std::collections::VecDeque;
use std::marker::Model;
use surface_parts::{
    DrawFault, LoadedBrush, LoadedGlyph, LoadedImage, Room, Slots, Window, black_pixels,
    cut_pixels, take_rooms,
};
use wire_num::OutOfMemory;

/// The most columns of a session's picture.
const WIDEST: usize = 2_048;

/// The picture of a session with its slots: 256 of images, 64 of brushes, 4 fonts of 256 glyphs, 16 of saved blocks.
#[derive(Drop)]
pub struct Surface {
    alloc: Global,
    size: Size,
    pixels: Vec<u32>,
    slots: Slots,
    /// How many drawings were drawn.
    count: u64,
    /// One row for the pattern of a raster operation.
    pattern: Vec<u32>,
    /// One row for its source.
    source: Vec<u32>,
}

impl Model for Surface {
    ghost use Rattle.std.specs.Prelude.{◌≡◌, ◌≤◌, length};
    ghost use Rattle.surface_parts.specs.Surfaces.{SurfaceOf, IsSoundSurface};
    ghost use Rattle.surface_parts.specs.Held.{state_of};

    ghost Value = { SurfaceOf };

    ghost view = { λ s. record { size = s.size; state = state_of s.pixels.items s.slots s.count } };

    ghost invariant = { λ s. IsSoundSurface s.size (state_of s.pixels.items s.slots s.count) × (2048 ≤ length s.pattern.items) × (2048 ≤ length s.source.items) };
}

impl Surface {
    /// A black surface of this size with all slots empty.
    pub fn new(alloc: Global, size: Size) -> Result<Surface, OutOfMemory>
        requires { IsTrue (is_session_size size.w size.h) }
        ensures size { IfOk result (λ surface. surface.size ≡ size) }
        ensures state { IfOk result (λ surface. surface.state ≡ opening_surface size) }
    {
        let pixels = black_pixels(alloc, size.w as usize * size.h as usize)?;
        let slots = Slots::new(alloc)?;
        let pattern = black_pixels(alloc, WIDEST)?;
        let source = black_pixels(alloc, WIDEST)?;
        Ok(Surface {
            alloc,
            size,
            pixels,
            slots,
            count: 0,
            pattern,
            source,
        })
    }

    /// Draws a drawing that keeps all rules. An `Err` leaves the surface as it was.
    ///
    /// It answers want of memory also after 2^64 - 1 drawings, which can't be counted further.
    pub fn draw(&mut self, d: &Drawing) -> Result<(), DrawFault>
        requires rules { broken_rule self.old.size d.now ≡ None }
        requires colors { HasColors d.now }
        ensures fits { OnOk result (slot_misfit self.old.size self.old.state d.now.shape ≡ None) }
        ensures drawn { OnOk result (self.new ≡ record { size = self.old.size; state = state_after_drawing self.old.size self.old.state d.now }) }
        ensures refused { IfErr result (λ fault. SaysMisfit fault (slot_misfit self.old.size self.old.state d.now.shape)) }
        ensures unchanged { OnErr result (self.new ≡ self.old) }
    {
        self.fit(d)?;
        let room = self.room_for(d)?;
        self.draw_ready(d, room);
        Ok(())
    }

    /// Whether the slots hold what a drawing names to read; else the first refusal, which is never want of memory.
    pub fn fit(&self, d: &Drawing) -> Result<(), DrawFault>
        ensures { misfit_said result ≡ slot_misfit self.now.size self.now.state d.now.shape }
    {
        self.slots.fit(self.size, &d.shape)
    }

    /// Draws drawings of which each fits what those before it leave. An `Err` leaves the surface as it was.
    ///
    /// All memory is taken before the first drawing; then nothing can fail.
    pub fn draw_all(&mut self, ds: &[Drawing]) -> Result<(), OutOfMemory>
        requires fit { AllFitState self.old.size self.old.state ds.now }
        requires colors { All HasColors ds.now }
        ensures drawn { OnOk result (self.new ≡ record { size = self.old.size; state = state_after_drawings self.old.size self.old.state ds.now }) }
        ensures unchanged { OnErr result (self.new ≡ self.old) }
    {
        let rooms = self.rooms_for(ds)?;
        self.draw_each(ds, rooms);
        Ok(())
    }

    /// The memory that drawings take, in their order, where so many more can be counted.
    fn rooms_for(&self, ds: &[Drawing]) -> Result<VecDeque<Room>, OutOfMemory>
        requires { AllFitState self.now.size self.now.state ds.now }
        ensures rooms { IfOk result (λ rooms. AreRooms self.now.state.count ds.now rooms.items) }
        ensures count { OnOk result (self.now.state.count + length ds.now < 2 ^ 64) }
    {
        if u64::MAX - self.count < ds.len() as u64 {
            return Err(OutOfMemory);
        }
        take_rooms(self.alloc, self.count, ds)
    }

    /// Draws drawings that fit, each with its memory.
    fn draw_each(&mut self, ds: &[Drawing], rooms: VecDeque<Room>)
        requires fit { AllFitState self.old.size self.old.state ds.now }
        requires colors { All HasColors ds.now }
        requires rooms { AreRooms self.old.state.count ds.now rooms.items }
        requires count { self.old.state.count + length ds.now < 2 ^ 64 }
        ensures { self.new ≡ record { size = self.old.size; state = state_after_drawings self.old.size self.old.state ds.now } }
    {
        let mut rooms = rooms;
        for d in ds {
            let Some(room) = rooms.pop_front() else {
                return;
            };
            self.draw_ready(d, room);
        }
    }

    /// The memory that a drawing takes, where one more can be counted.
    fn room_for(&self, d: &Drawing) -> Result<Room, OutOfMemory>
        requires { broken_rule self.now.size d.now ≡ None }
        ensures room { IfOk result (λ room. IsRoomFor self.now.state.count d.now.shape room) }
        ensures count { OnOk result (self.now.state.count < 2 ^ 64 - 1) }
    {
        if self.count == u64::MAX {
            return Err(OutOfMemory);
        }
        Room::new(self.alloc, self.count + 1, &d.shape)
    }

    /// Draws a drawing that fits, with its memory.
    fn draw_ready(&mut self, d: &Drawing, room: Room)
        requires rules { broken_rule self.old.size d.now ≡ None }
        requires slots { slot_misfit self.old.size self.old.state d.now.shape ≡ None }
        requires colors { HasColors d.now }
        requires room { IsRoomFor self.old.state.count d.now.shape room }
        requires count { self.old.state.count < 2 ^ 64 - 1 }
        ensures { self.new ≡ record { size = self.old.size; state = state_after_drawing self.old.size self.old.state d.now } }
    {
        self.slots
            .fill(self.count, room, self.pixels.as_slice(), self.size);
        paint(
            self.pixels.as_mut_slice(),
            Window {
                size: self.size,
                clip: d.clip,
            },
            &self.slots,
            &d.shape,
            self.pattern.as_mut_slice(),
            self.source.as_mut_slice(),
        );
        self.count += 1;
    }

    /// The colour of pixel (x, y), which lies on the surface.
    pub fn pixel(&self, x: u32, y: u32) -> u32
        requires column { x < self.now.size.w }
        requires row { y < self.now.size.h }
        ensures pixel { result ≡ pixel_at self.now.size self.now.state.picture 0 x y }
        ensures color { result < 2 ^ 24 }
    {
        self.pixels[self.size.w as usize * y as usize + x as usize]
    }

    /// The colours of a rectangle inside the surface, row by row from the top.
    pub fn pixels_of(&self, r: Rect) -> Result<Vec<u32>, OutOfMemory>
        requires { IsTrue (is_inside self.now.size r) }
        ensures pixels { IfOk result (λ pixels. pixels.items ≡ cut_out self.now.size self.now.state.picture 0 r) }
        ensures colors { IfOk result (λ pixels. IsTrue (are_colors pixels.items)) }
    {
        cut_pixels(self.alloc, self.pixels.as_slice(), self.size, r)
    }

    /// The sides in pixels.
    pub fn size(&self) -> Size
        ensures { result ≡ self.now.size }
    {
        self.size
    }

    /// How many drawings were drawn.
    pub fn count(&self) -> u64
        ensures { result ≡ self.now.state.count }
    {
        self.count
    }

    /// The image in a slot.
    pub fn image(&self, slot: u8) -> Option<&LoadedImage>
        ensures { option_copied result ≡ lookup slot self.now.state.images }
    {
        self.slots.image(slot)
    }

    /// The brush in a slot; `None` also past the last slot.
    pub fn brush(&self, slot: u8) -> Option<&LoadedBrush>
        ensures { option_copied result ≡ lookup slot self.now.state.brushes }
    {
        self.slots.brush(slot)
    }

    /// The glyph of a font and a code; `None` also past the last font.
    pub fn glyph(&self, font: u8, code: u8) -> Option<&LoadedGlyph>
        ensures { option_copied result ≡ lookup (glyph_slot font code) self.now.state.glyphs }
    {
        self.slots.glyph(font, code)
    }

    /// The sides of the block in a slot; `None` also past the last slot.
    pub fn block_sides(&self, slot: u8) -> Option<Size>
        ensures { result ≡ option_map (λ block. record { w = block.w; h = block.h }) (lookup slot self.now.state.blocks) }
    {
        let block = self.slots.block(slot)?;
        Some(Size {
            w: block.w,
            h: block.h,
        })
    }

    /// What holds of every surface; it does nothing.
    pub fn recall_sound(&self)
        ensures { IsSoundSurface self.now.size self.now.state }
    {
        let _ = &self.size;
    }
}
