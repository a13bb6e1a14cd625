/// An image as the source of a raster operation: its colours row by row from the top, its sides in pixels, and which of its pixels belongs
/// to the upper left one of what is drawn.
#[derive(Clone, Copy)]
pub struct Source<'a> {
    pub pixels: &'a [u32],
    pub w: u16,
    pub h: u16,
    pub sx: i32,
    pub sy: i32,
}
