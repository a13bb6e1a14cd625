//! How a pixel of a run-length bitmap is drawn ([MS-RDPBCGR] 3.1.9).

/// How one pixel is drawn.
#[derive(Clone, Copy, Debug, PartialEq, Eq)]
pub enum Stroke {
    /// In this colour.
    Plain(u32),
    /// As the pixel one row earlier.
    Above,
    /// As the pixel one row earlier exclusive-or this foreground.
    Crossed(u32),
}
