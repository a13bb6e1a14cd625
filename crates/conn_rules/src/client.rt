//! What is remembered of a client's data.

use px_core::Depth;

/// What is remembered of a client from its Connect-Initial on: how many static virtual channels it has, the size of the desktop that it
/// asks for, in pixels, its build number ([MS-RDPBCGR] 2.2.1.3.2), and the bits of a pixel that it is shown.
#[derive(Clone, Copy, Debug, PartialEq, Eq)]
pub struct Client {
    pub channels: u8,
    pub width: u16,
    pub height: u16,
    pub build: u32,
    pub depth: Depth,
}
