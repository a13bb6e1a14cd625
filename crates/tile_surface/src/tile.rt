//! A tile: 64 by 64 pixels of a picture.
ghost use Rattle.std.specs.Prelude.{◌≡◌, ℕ, ◌+◌, ◌*◌, ◌-◌, ◌≤◌, ◌<◌, IfOk, length, get_or, replicate, option_copied};
ghost use Rattle.px_core.specs.Picture.{pixel_at};
ghost use Rattle.surface_parts.specs.Bits.{ink_color, HasBits};
ghost use Rattle.surface_parts.specs.Parts.{in_part, part_at, IsCanvas, IsInside, IsRepainted};
ghost use Rattle.surface_parts.specs.Textures.{texture_color, CoversPart};
ghost use Rattle.tile_surface.specs.Blended.{blended_color};
ghost use Rattle.tile_surface.specs.Cells.{tile_sides};
ghost use Rattle.tile_surface.specs.Rows.{row_mixed};

use draw_ops::Brush;
use lane_rop::{copy_lanes, fill_lanes, rop_lanes};
use px_core::Size;
use std::alloc::Global;
use std::marker::Model;
use surface_parts::{Bits, Mix, Part, Texture, draw_bits, mix_part, paste_part};
use wire_num::OutOfMemory;

/// The columns, and the rows, of a tile.
pub(crate) const TILE_SIDE: usize = px_core::TILE_SIDE as usize;

/// The pixels of a tile.
const TILE_PIXELS: usize = 4_096;

/// The sides of a tile as a picture of its own.
const SIDES: Size = Size {
    w: px_core::TILE_SIDE,
    h: px_core::TILE_SIDE,
};

/// The colours of 64 by 64 pixels, row by row from the top; those that lie past the surface are black.
#[derive(Drop)]
pub struct Tile {
    pixels: Box<[u32; TILE_PIXELS]>,
}

impl Model for Tile {
    ghost use Rattle.std.specs.Prelude.{◌≡◌, ℕ, List, length};
    ghost use Rattle.std.specs.Box.{box_value};

    ghost Value = { List ℕ };

    ghost view = { λ s. box_value s.pixels };

    ghost invariant = { λ s. length (box_value s.pixels) ≡ 4096 };
}

impl Tile {
    /// A black tile.
    pub(crate) fn black(alloc: Global) -> Result<Tile, OutOfMemory>
        ensures { IfOk result (λ tile. tile ≡ replicate 4096 0) }
    {
        let pixels = Box::new(alloc, [0; TILE_PIXELS])?;
        Ok(Tile { pixels })
    }

    /// Another tile of the same colours.
    pub(crate) fn copy(&self, alloc: Global) -> Result<Tile, OutOfMemory>
        ensures { IfOk result (λ tile. tile ≡ self.now) }
    {
        let pixels = Box::new(alloc, *self.pixels)?;
        Ok(Tile { pixels })
    }

    /// The colours, row by row from the top.
    pub fn pixels(&self) -> &[u32]
        ensures pixels { result.now ≡ self.now }
        ensures sized { length result.now ≡ 4096 }
    {
        self.pixels.as_slice()
    }

    /// A tile has a colour for each of its pixels; it does nothing.
    pub(crate) fn recall_sized(&self)
        ensures { length self.now ≡ 4096 }
    {
        let _ = &self.pixels;
    }

    /// Copies the pixels of row y from column x on, as many as `out` has room for.
    #[inline(always)]
    pub(crate) fn read(&self, x: usize, y: usize, out: &mut [u32])
        requires columns { x + length out.old ≤ 64 }
        requires row { y < 64 }
        ensures { (k : ℕ) → k < length out.old → get_or out.new k 0 ≡ pixel_at tile_sides self.now 0 (x + k) y }
    {
        let at = TILE_SIDE * y + x;
        copy_lanes(&self.pixels[at..at + out.len()], out);
    }

    /// Copies the pixels from column x and row y of the tile on to a spot of a picture of these sides.
    #[inline(always)]
    pub(crate) fn cut(&self, x: usize, y: usize, spot: Part, sides: Size, out: &mut [u32])
        requires columns { x + spot.w ≤ 64 }
        requires rows { y + spot.h ≤ 64 }
        requires canvas { IsCanvas sides out.old }
        requires inside { IsInside sides spot }
        ensures { IsRepainted sides (in_part spot) (λ u v. pixel_at tile_sides self.now 0 (x + (u - spot.x)) (y + (v - spot.y))) out.old out.new }
    {
        let texture = Texture {
            pixels: self.pixels(),
            w: TILE_SIDE,
            x,
            y,
        };
        paste_part(out, sides, spot, texture);
    }

    /// Gives the pixels of row y from column x on the colours of `row`.
    #[inline(always)]
    pub(crate) fn write(&mut self, x: usize, y: usize, row: &[u32])
        requires columns { x + length row.now ≤ 64 }
        requires row { y < 64 }
        ensures { IsRepainted tile_sides (in_part (part_at x y (length row.now) 1)) (λ u v. get_or row.now (u - x) 0) self.old self.new }
    {
        let at = TILE_SIDE * y + x;
        copy_lanes(row, &mut self.pixels[at..at + row.len()]);
    }

    /// Gives the pixels of a piece of the tile one colour.
    #[inline(always)]
    pub(crate) fn fill(&mut self, piece: Part, color: u32)
        requires { IsInside tile_sides piece }
        ensures { IsRepainted tile_sides (in_part piece) (λ u v. color) self.old self.new }
    {
        if piece.w == TILE_SIDE {
            fill_whole_rows(self.pixels.as_mut_slice(), piece.y, piece.h, color);
        } else {
            fill_stretches(self.pixels.as_mut_slice(), piece, color);
        }
    }

    /// Gives the pixels of a piece of the tile the colours that a texture has for them.
    #[inline(always)]
    pub(crate) fn paste(&mut self, piece: Part, texture: Texture)
        requires inside { IsInside tile_sides piece }
        requires texture { CoversPart piece texture }
        ensures { IsRepainted tile_sides (in_part piece) (texture_color piece texture.entry) self.old self.new }
    {
        paste_part(self.pixels.as_mut_slice(), SIDES, piece, texture);
    }

    /// Makes each pixel of a piece of the tile what the raster operation of a code makes of it and of a texture. Two rows of the
    /// piece's width are for the operands of one row.
    #[inline(always)]
    pub(crate) fn blend(
        &mut self,
        piece: Part,
        rop: u8,
        brush: Option<&Brush>,
        texture: Texture,
        pattern: &mut [u32],
        source: &mut [u32],
    )
        requires inside { IsInside tile_sides piece }
        requires texture { CoversPart piece texture }
        requires pattern { length pattern.old ≡ piece.w }
        requires source { length source.old ≡ piece.w }
        ensures { IsRepainted tile_sides (in_part piece) (blended_color tile_sides self.old piece rop (option_copied brush.entry) texture.entry)
            self.old self.new }
    {
        let mix = Mix {
            rop,
            brush,
            texture: Some(texture),
        };
        mix_part(
            self.pixels.as_mut_slice(),
            SIDES,
            piece,
            mix,
            pattern,
            source,
        );
    }

    /// The raster operation of a code on the pixels of row y from column x on, as many as the rows of its operands have.
    #[inline(always)]
    pub(crate) fn mix(&mut self, x: usize, y: usize, rop: u8, pattern: &[u32], source: &[u32])
        requires columns { x + length pattern.now ≤ 64 }
        requires row { y < 64 }
        requires source { length source.now ≡ length pattern.now }
        ensures { IsRepainted tile_sides (in_part (part_at x y (length pattern.now) 1)) (row_mixed tile_sides self.old rop pattern.now source.now x)
            self.old self.new }
    {
        let at = TILE_SIDE * y + x;
        let pixels = &mut self.pixels[at..at + pattern.len()];
        rop_lanes(rop, pattern, source, pixels);
    }

    /// Gives the pixels of a piece of the tile one colour whose bit is one.
    #[inline(always)]
    pub(crate) fn ink(&mut self, piece: Part, bits: Bits, color: u32)
        requires inside { IsInside tile_sides piece }
        requires bits { HasBits piece bits }
        ensures { IsRepainted tile_sides (in_part piece) (ink_color tile_sides self.old piece bits.entry color) self.old self.new }
    {
        draw_bits(self.pixels.as_mut_slice(), SIDES, piece, bits, color);
    }
}

/// Gives the pixels of whole rows of a tile, from row y on, one colour.
#[inline(always)]
fn fill_whole_rows(pixels: &mut [u32], y: usize, h: usize, color: u32)
    requires pixels { length pixels.old ≡ 4096 }
    requires rows { y + h ≤ 64 }
    ensures { IsRepainted tile_sides (in_part (part_at 0 y 64 h)) (λ u v. color) pixels.old pixels.new }
{
    let at = TILE_SIDE * y;
    fill_lanes(&mut pixels[at..at + TILE_SIDE * h], color);
}

/// Gives the pixels of a piece of a tile one colour, row by row.
#[inline(always)]
fn fill_stretches(pixels: &mut [u32], piece: Part, color: u32)
    requires pixels { length pixels.old ≡ 4096 }
    requires inside { IsInside tile_sides piece }
    ensures { IsRepainted tile_sides (in_part piece) (λ u v. color) pixels.old pixels.new }
{
    for y in piece.y..piece.y + piece.h {
        let at = TILE_SIDE * y + piece.x;
        fill_lanes(&mut pixels[at..at + piece.w], color);
    }
}
