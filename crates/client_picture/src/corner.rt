//! Places in a source.
ghost use Rattle.std.specs.Prelude.{◌≡◌, ◌≤◌, pos, ◌+ℤ◌, ◌-ℤ◌, ◌≤ℤ◌, negsuc};
ghost use Rattle.client_picture.specs.Sources.{IsCorner};

use crate::part::Part;
use px_core::Rect;

/// The column and the row of a source's pixel that belongs to the upper left one of a part.
#[derive(Clone, Copy)]
pub(crate) struct Corner {
    pub(crate) x: usize,
    pub(crate) y: usize,
}

/// The place in a source that is as far from (sx, sy) as the upper left pixel of a part is from a rectangle's.
pub(crate) fn corner_of(rect: Rect, sx: i32, sy: i32, part: Part) -> Corner
    requires left { rect.x ≤ℤ pos part.x }
    requires above { rect.y ≤ℤ pos part.y }
    requires columns { part.x ≤ 65535 }
    requires rows { part.y ≤ 65535 }
    requires sx { pos 0 ≤ℤ sx }
    requires sy { pos 0 ≤ℤ sy }
    ensures { IsCorner rect sx sy part result }
{
    Corner {
        x: place(part.x, i64::from(rect.x), i64::from(sx)),
        y: place(part.y, i64::from(rect.y), i64::from(sy)),
    }
}

/// The upper left pixel of a rectangle that lies on a picture.
pub(crate) fn first_corner(rect: Rect) -> Corner
    requires left { pos 0 ≤ℤ rect.x }
    requires above { pos 0 ≤ℤ rect.y }
    ensures x { pos result.x ≡ rect.x }
    ensures y { pos result.y ≡ rect.y }
{
    Corner {
        x: rect.x as usize,
        y: rect.y as usize,
    }
}

/// The place in a source that is as far from its start as a place of the picture is from a rectangle's edge.
pub(crate) fn place(at: usize, edge: i64, start: i64) -> usize
    requires low { negsuc 8589934591 ≤ℤ edge }
    requires after { edge ≤ℤ pos at }
    requires small { at ≤ 65535 }
    requires start { pos 0 ≤ℤ start }
    requires near { start ≤ℤ pos 4294967296 }
    ensures { pos result ≡ (pos at -ℤ edge) +ℤ start }
{
    (at as i64 - edge + start) as usize
}
