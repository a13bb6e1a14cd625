//! Packs the pixels of a bitmap.
ghost use Rattle.std.specs.Prelude.{◌≡◌, ◌+◌, ◌*◌, ◌/◌, ◌%◌, ◌<◌, ◌≤◌, IfOk, IsTrue, length};
ghost use Rattle.px_core.specs.declared.depth.Depth.TheVariants.{Bits24};
ghost use Rattle.px_core.specs.Colors.{are_colors};
ghost use Rattle.px_core.specs.Pixels.{are_pixels};
ghost use Rattle.rle_enc.specs.Result.{IsPacked, IsBounded, ReadsBack};

use crate::OutOfMemory;
use crate::stretch::pack_stretch;
use px_core::{Depth, bytes_in};
use std::alloc::Global;

/// A packed bitmap, or that it isn't shorter than its pixels.
#[derive(Drop)]
pub enum Packed {
    /// The packer's bytes, fewer than those of the pixels.
    Packed(Vec<u8>),
    /// The packer's bytes are no fewer than those of the pixels.
    Raw,
}

/// The most bytes that are written behind an order and dropped.
const BEHIND: usize = 12;

/// Packs pixels in rows of `w`, the bottom row first, each below 2^24 as 65536 * red + 256 * green + blue (profile).
pub fn pack(alloc: Global, pixels: &[u32], w: usize) -> Result<Packed, OutOfMemory>
    requires wide { 1 ≤ w }
    requires rows { length pixels.now % w ≡ 0 }
    requires some { 1 ≤ length pixels.now }
    requires few { length pixels.now ≤ 4096 }
    requires colors { IsTrue (are_colors pixels.now) }
    ensures packed { IfOk result (IsPacked Bits24 w pixels.now) }
    ensures reads_back { IfOk result (ReadsBack Bits24 w pixels.now) }
    ensures bound { IfOk result (IsBounded Bits24 w pixels.now) }
{
    pack_at(alloc, pixels, w, Depth::Bits24)
}

/// Packs pixels of a depth in rows of `w`, the bottom row first, each below 2 to the number of its bits (profile).
pub fn pack_at(alloc: Global, pixels: &[u32], w: usize, depth: Depth) -> Result<Packed, OutOfMemory>
    requires wide { 1 ≤ w }
    requires rows { length pixels.now % w ≡ 0 }
    requires some { 1 ≤ length pixels.now }
    requires few { length pixels.now ≤ 4096 }
    requires pixels { IsTrue (are_pixels depth pixels.now) }
    ensures packed { IfOk result (IsPacked depth w pixels.now) }
    ensures reads_back { IfOk result (ReadsBack depth w pixels.now) }
    ensures bound { IfOk result (IsBounded depth w pixels.now) }
{
    let raw = bytes_in(depth) * pixels.len();
    // What is packed finds room there, with what is written behind it and dropped; only pixels that go raw may ask for more.
    let mut out = Vec::with_capacity(alloc, raw + BEHIND)?;
    let (first, rest) = pixels.split_at(w);
    pack_stretch(&mut out, first, None, depth)?;
    pack_stretch(&mut out, rest, Some(pixels), depth)?;
    if out.len() < raw {
        Ok(Packed::Packed(out))
    } else {
        Ok(Packed::Raw)
    }
}
