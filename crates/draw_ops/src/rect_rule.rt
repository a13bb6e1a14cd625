//! The first rule of drawings, which a rectangle's sides and corner keep (profile).
ghost use Rattle.std.specs.Prelude.{◌≡◌, ◌&&◌};
ghost use Rattle.draw_ops.specs.Fits.{is_side, is_corner};

use px_core::Rect;

/// The most columns, and the most rows, of a rectangle that is drawn.
const SIDE_LIMIT: u32 = 2_048;

/// The least coordinate of its corner.
const LEAST_CORNER: i32 = -4_096;

/// The greatest coordinate of its corner.
const GREATEST_CORNER: i32 = 4_095;

/// Whether a rectangle keeps the rule of its sides and its corner.
pub fn keeps_rect_rule(rect: Rect) -> bool
    ensures { result ≡ ((is_side rect.w && is_side rect.h) && (is_corner rect.x && is_corner rect.y)) }
{
    (is_drawn_side(rect.w) && is_drawn_side(rect.h))
        && (is_drawn_corner(rect.x) && is_drawn_corner(rect.y))
}

/// Whether a rectangle may have so many columns or rows.
fn is_drawn_side(side: u32) -> bool
    ensures { result ≡ is_side side }
{
    1 <= side && side <= SIDE_LIMIT
}

/// Whether a rectangle's corner may have this coordinate.
pub(crate) fn is_drawn_corner(at: i32) -> bool
    ensures { result ≡ is_corner at }
{
    LEAST_CORNER <= at && at <= GREATEST_CORNER
}
