/// Why a host's bytes are refused, or no more of them are read.
///
/// `at` is the place in bytes from the stream's first one, at most 2^64 - 1: that of the first field that breaks its rule, or, where the fault is in what orders and rectangles mean, that of their update's body.
#[derive(Clone, Copy, Debug, PartialEq, Eq)]
pub enum ClientFault {
    /// A field breaks its rule, or what an order or a rectangle says can't be done.
    Refused {
        at: u64,
    },
    /// An order names an entry of a cache that holds nothing or, where `oversized`, an index or a cell past the confirmed size. The caches are numbered 0 to 2
    /// (bitmaps), 3 to 12 (glyphs) and 13 (brushes).
    Named {
        at: u64,
        oversized: bool,
        cache: u8,
        index: u16,
    },
    /// No memory was left.
    OutOfMemory,
}
