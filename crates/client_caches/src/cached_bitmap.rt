//! A bitmap for a cache, as its order says it.

ghost use Rattle.std.specs.Prelude.{◌≡◌, true};
ghost use Rattle.order_means.specs.ClientState.{is_bitmap, is_side, bitmap_flags};
ghost use Rattle.client_caches.specs.Answers.{Gives};
ghost use Rattle.client_caches.specs.Caches.{kept_image};
ghost use Rattle.client_caches.specs.Stored.{is_cached_bitmap};

use crate::wire::upright_pixels;
use crate::{KeptImage, ObeyFault};
use px_core::{Depth, bits_in};
use std::alloc::Global;

/// The most pixels of a side.
const MOST_SIDE: u16 = 64;

/// The width is a multiple of this.
const WIDTH_UNIT: u16 = 4;

/// How many bitmap caches there are.
const BITMAP_CACHES: u8 = 3;

/// Set in the flags of a packed cached bitmap: it has no compression header.
const NO_BITMAP_COMPRESSION_HDR: u16 = 0x0400;

/// What an order says of a bitmap for a cache, beside its bytes: the cache and the index, its sides in pixels, its bits per pixel, its flags, and whether it is packed.
#[derive(Clone, Copy, Debug)]
pub struct CachedBitmap {
    pub cache: u8,
    pub index: u16,
    pub w: u8,
    pub h: u8,
    pub depth: u8,
    pub flags: u16,
    pub packed: bool,
}

/// Whether a bitmap of the wire has sides of 1 to 64, a width of a multiple of four, and as many bits a pixel as the depth has.
pub fn is_bitmap(w: u16, h: u16, bits: u16, depth: Depth) -> bool
    ensures { result ≡ is_bitmap depth w h bits }
{
    is_side(w) && is_side(h) && w % WIDTH_UNIT == 0 && bits == bits_in(depth)
}

/// Whether a bitmap may have a side of so many pixels.
fn is_side(n: u16) -> bool
    ensures { result ≡ is_side n }
{
    0 < n && n <= MOST_SIDE
}

/// The flags of a cached bitmap.
fn bitmap_flags(packed: bool) -> u16
    ensures { result ≡ bitmap_flags packed }
{
    if packed { NO_BITMAP_COMPRESSION_HDR } else { 0 }
}

/// Whether its sides, its bits per pixel, its cache and its flags are those that a client of this depth takes.
pub(crate) fn is_cached_bitmap(b: &CachedBitmap, depth: Depth) -> bool
    ensures { result ≡ is_cached_bitmap depth b.now }
{
    is_bitmap(u16::from(b.w), u16::from(b.h), u16::from(b.depth), depth)
        && b.cache < BITMAP_CACHES
        && b.flags == bitmap_flags(b.packed)
}

/// The image of a bitmap's bytes.
pub(crate) fn image_of(
    alloc: Global,
    b: &CachedBitmap,
    bytes: &[u8],
    depth: Depth,
) -> Result<KeptImage, ObeyFault>
    requires { is_cached_bitmap depth b.now ≡ true }
    ensures { Gives (λ image. image) result (kept_image depth b.now.packed b.now.w b.now.h bytes.now) }
{
    let pixels = upright_pixels(
        alloc,
        b.packed,
        usize::from(b.w),
        usize::from(b.h),
        bytes,
        depth,
    )?;
    Ok(KeptImage::new(u16::from(b.w), u16::from(b.h), pixels))
}
