//! Parts of one colour.
ghost use Rattle.std.specs.Prelude.{◌≡◌};
ghost use Rattle.surface_parts.specs.Parts.{in_part, IsInside, IsRepainted};
ghost use Rattle.tile_surface.specs.Cells.{picture_of, IsTiled};
ghost use Rattle.tile_surface.specs.Ownership.{KeepsRest, OwnsPart};

use crate::cell::Cell;
use crate::walk::{Dye, Piece, dye_part};
use px_core::Size;
use surface_parts::Part;

/// One colour for every pixel.
#[derive(Drop)]
struct Fill {
    color: u32,
}

impl Dye for Fill {
    ghost use Rattle.std.specs.Prelude.{⊤};

    ghost fits = { λ f part. ⊤ };

    ghost color = { λ f part x y old. f.color };

    #[inline(always)]
    fn dye(&self, cell: &mut Cell, part: Part, piece: Piece) {
        cell.fill(piece.spot, self.color);
    }
}

/// Gives every pixel of a part one colour.
pub(crate) fn fill_part(cells: &mut [Cell], size: Size, part: Part, color: u32)
    requires tiled { IsTiled size cells.old }
    requires inside { IsInside size part }
    requires own { OwnsPart cells.old part }
    ensures painted { IsRepainted size (in_part part) (λ x y. color) (picture_of size cells.old) (picture_of size cells.new) }
    ensures kept { KeepsRest size cells.old cells.new }
{
    dye_part(cells, size, part, &Fill { color });
}
