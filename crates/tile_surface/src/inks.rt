//! Parts of glyphs.
ghost use Rattle.std.specs.Prelude.{◌≡◌};
ghost use Rattle.surface_parts.specs.Bits.{ink_color, HasBits};
ghost use Rattle.surface_parts.specs.Parts.{in_part, IsInside, IsRepainted};
ghost use Rattle.tile_surface.specs.Cells.{picture_of, IsTiled};
ghost use Rattle.tile_surface.specs.Ownership.{KeepsRest, OwnsPart};

use crate::cell::Cell;
use crate::walk::{Dye, Piece, dye_part};
use px_core::Size;
use surface_parts::{Bits, Part};

/// One colour for the pixels whose bit is one.
#[derive(Drop)]
struct Ink<'a> {
    bits: Bits<'a>,
    color: u32,
}

impl<'a> Dye for Ink<'a> {
    ghost use Rattle.std.specs.Prelude.{◌+◌, ◌-◌, if◌then◌else◌};
    ghost use Rattle.surface_parts.specs.Bits.{is_ink, HasBits};

    ghost fits = { λ i part. HasBits part i.bits };

    ghost color = { λ i part x y old.
        if is_ink i.bits.bytes.now i.bits.row_bytes (i.bits.column + (x - part.x)) (i.bits.row + (y - part.y)) then i.color else old };

    #[inline(always)]
    fn dye(&self, cell: &mut Cell, part: Part, piece: Piece) {
        let bits = Bits {
            column: self.bits.column + (piece.x - part.x),
            row: self.bits.row + (piece.y - part.y),
            ..self.bits
        };
        cell.ink(piece.spot, bits, self.color);
    }
}

/// Gives the pixels of a part one colour whose bit is one.
pub(crate) fn ink_part(cells: &mut [Cell], size: Size, part: Part, bits: Bits, color: u32)
    requires tiled { IsTiled size cells.old }
    requires inside { IsInside size part }
    requires bits { HasBits part bits }
    requires own { OwnsPart cells.old part }
    ensures painted { IsRepainted size (in_part part) (ink_color size (picture_of size cells.old) part bits.entry color)
        (picture_of size cells.old) (picture_of size cells.new) }
    ensures kept { KeepsRest size cells.old cells.new }
{
    dye_part(cells, size, part, &Ink { bits, color });
}
