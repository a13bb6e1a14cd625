/// A raster operation by its code, with the picture itself as its source: the pixel at column x and row y belongs to the upper left one of
/// what is drawn.
#[derive(Clone, Copy)]
pub struct PictureCopy {
    pub rop: u8,
    pub x: usize,
    pub y: usize,
}
