//! Where on a picture is drawn.

use px_core::{Rect, Size};

/// The size of a picture, and the clip that a drawing on it keeps within, if it has one.
#[derive(Clone, Copy, Debug)]
pub struct Window {
    pub size: Size,
    pub clip: Option<Rect>,
}
