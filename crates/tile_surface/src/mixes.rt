//! Parts that are mixed with a texture.
ghost use Rattle.std.specs.Prelude.{◌≡◌, option_copied};
ghost use Rattle.surface_parts.specs.Parts.{in_part, IsInside, IsRepainted};
ghost use Rattle.surface_parts.specs.Textures.{CoversPart};
ghost use Rattle.tile_surface.specs.Blended.{blended_color};
ghost use Rattle.tile_surface.specs.Cells.{picture_of, IsTiled};
ghost use Rattle.tile_surface.specs.Ownership.{KeepsRest, OwnsPart};

use crate::cell::Cell;
use crate::pastes::texture_there;
use crate::tile::TILE_SIDE;
use crate::walk::{Dye, Piece, dye_part};
use draw_ops::Brush;
use px_core::Size;
use surface_parts::{Part, Texture};

/// What the raster operation of a code makes of a pixel and of a texture.
#[derive(Drop)]
struct Blend<'a> {
    rop: u8,
    brush: Option<&'a Brush>,
    texture: Texture<'a>,
}

impl<'a> Dye for Blend<'a> {
    ghost use Rattle.std.specs.Prelude.{pos, option_copied};
    ghost use Rattle.rop3_core.specs.Rop3.{ternary_raster};
    ghost use Rattle.draw_ops.specs.Drawing.{pattern_of};
    ghost use Rattle.surface_parts.specs.Textures.{texture_color, CoversPart};

    ghost fits = { λ b part. CoversPart part b.texture };

    ghost color = { λ b part x y old.
        ternary_raster b.rop (pattern_of (option_copied b.brush) (pos x) (pos y)) (texture_color part b.texture x y) old };

    #[inline(always)]
    fn dye(&self, cell: &mut Cell, part: Part, piece: Piece) {
        let texture = texture_there(self.texture, part, piece);
        let mut pattern = [0; TILE_SIDE];
        let mut source = [0; TILE_SIDE];
        let w = piece.spot.w;
        cell.blend(
            piece.spot,
            self.rop,
            self.brush,
            texture,
            &mut pattern[..w],
            &mut source[..w],
        );
    }
}

/// Makes each pixel of a part what the raster operation of a code makes of it and of a texture.
pub(crate) fn blend_part(
    cells: &mut [Cell],
    size: Size,
    part: Part,
    rop: u8,
    brush: Option<&Brush>,
    texture: Texture,
)
    requires tiled { IsTiled size cells.old }
    requires inside { IsInside size part }
    requires own { OwnsPart cells.old part }
    requires texture { CoversPart part texture }
    ensures painted { IsRepainted size (in_part part)
        (blended_color size (picture_of size cells.old) part rop (option_copied brush.entry) texture.entry) (picture_of size cells.old)
        (picture_of size cells.new) }
    ensures kept { KeepsRest size cells.old cells.new }
{
    let blend = Blend {
        rop,
        brush,
        texture,
    };
    dye_part(cells, size, part, &blend);
}
