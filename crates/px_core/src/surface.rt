//! The sizes of pictures, and which a session may have.

ghost use Rattle.std.specs.Prelude.{◌≡◌};
ghost use Rattle.px_core.specs.Rectangle.{is_session_size};

/// The most columns, and the most rows, of a session's picture.
const SIDE_LIMIT: u32 = 2_048;

/// The number of columns of a session's picture is a multiple of this one.
const COLUMN_UNIT: u32 = 4;

/// The sides of a picture, in pixels.
#[derive(Clone, Copy, Debug, PartialEq, Eq)]
pub struct Size {
    pub w: u32,
    pub h: u32,
}

/// Whether a session may have a picture of so many columns and rows: a multiple of 4 from 4 to 2,048 columns, and 1 to 2,048 rows
/// (profile).
pub fn is_session_size(w: u32, h: u32) -> bool
    ensures { result ≡ is_session_size w h }
{
    let is_wide = COLUMN_UNIT <= w && w <= SIDE_LIMIT;
    let is_high = 0 < h && h <= SIDE_LIMIT;
    is_wide && is_high && w % COLUMN_UNIT == 0
}
