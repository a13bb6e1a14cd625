//! Parts that get the colours of a texture.
ghost use Rattle.std.specs.Prelude.{◌≡◌, ℕ, ◌+◌, ◌-◌};
ghost use Rattle.surface_parts.specs.Parts.{in_part, IsInside, IsRepainted};
ghost use Rattle.surface_parts.specs.Textures.{texture_color, CoversPart};
ghost use Rattle.tile_surface.specs.Cells.{picture_of, IsTiled};
ghost use Rattle.tile_surface.specs.Ownership.{KeepsRest, OwnsPart};
ghost use Rattle.tile_surface.specs.Dyes.{IsPieceOf};

use crate::cell::Cell;
use crate::walk::{Dye, Piece, dye_part};
use px_core::Size;
use surface_parts::{Part, Texture};

/// The colours of a texture.
#[derive(Drop)]
struct Paste<'a> {
    texture: Texture<'a>,
}

impl<'a> Dye for Paste<'a> {
    ghost use Rattle.surface_parts.specs.Textures.{texture_color, CoversPart};

    ghost fits = { λ p part. CoversPart part p.texture };

    ghost color = { λ p part x y old. texture_color part p.texture x y };

    #[inline(always)]
    fn dye(&self, cell: &mut Cell, part: Part, piece: Piece) {
        cell.paste(piece.spot, texture_there(self.texture, part, piece));
    }
}

/// The texture of a piece of a part.
#[inline(always)]
pub(crate) fn texture_there<'a>(texture: Texture<'a>, part: Part, piece: Piece) -> Texture<'a>
    requires covers { CoversPart part texture }
    requires piece { IsPieceOf part piece }
    ensures covers { CoversPart piece.spot result }
    ensures colors { (u v : ℕ) → texture_color piece.spot result u v
        ≡ texture_color part texture.entry (piece.x + (u - piece.spot.x)) (piece.y + (v - piece.spot.y)) }
{
    Texture {
        x: texture.x + (piece.x - part.x),
        y: texture.y + (piece.y - part.y),
        ..texture
    }
}

/// Gives every pixel of a part the colour that a texture has for it.
pub(crate) fn paste_part(cells: &mut [Cell], size: Size, part: Part, texture: Texture)
    requires tiled { IsTiled size cells.old }
    requires inside { IsInside size part }
    requires own { OwnsPart cells.old part }
    requires texture { CoversPart part texture }
    ensures painted { IsRepainted size (in_part part) (texture_color part texture.entry) (picture_of size cells.old) (picture_of size cells.new) }
    ensures kept { KeepsRest size cells.old cells.new }
{
    dye_part(cells, size, part, &Paste { texture });
}
