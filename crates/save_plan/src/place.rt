//! Where a client's saved blocks stand, and the least free position for one more: profile, over the
//! positions of SaveBitmap orders ([MS-RDPEGDI] 2.2.2.2.1.1.2.12).

/// Where a saved block stands: its first position, and its sides in pixels.
#[derive(Clone, Copy, Debug, PartialEq, Eq)]
pub struct Place {
    pub position: u32,
    pub w: u32,
    pub h: u32,
}
