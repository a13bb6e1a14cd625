//! Pixels as they go over the wire: rows from the bottom up, as many bytes a pixel as the depth has, or packed.

ghost use Rattle.std.specs.Prelude.{◌≡◌, ◌≤◌, ◌*◌, ℕ, false, true, length, IfOk, IsTrue};
ghost use Rattle.px_core.specs.Colors.{are_colors};
ghost use Rattle.order_means.specs.ClientState.{wire_pixels};
ghost use Rattle.client_caches.specs.Answers.{Gives};
ghost use Rattle.client_caches.specs.Caches.{upright_pixels};

use crate::ObeyFault;
use order_read::{pixels_of, turned_over};
use px_core::{Depth, bytes_in};
use rle_dec::{RleFault, unpack_at};
use std::alloc::Global;

/// The pixels of as many bytes each as the depth has, which must be so many.
fn raw_pixels(
    alloc: Global,
    count: usize,
    bytes: &[u8],
    depth: Depth,
) -> Result<Vec<u32>, ObeyFault>
    requires { count ≤ 4096 }
    ensures value { (w h : ℕ) → count ≡ w * h → Gives (λ pixels. pixels.items) result (wire_pixels depth false w h bytes.now) }
    ensures number { IfOk result (λ pixels. length pixels.items ≡ count) }
    ensures colors { IfOk result (λ pixels. IsTrue (are_colors pixels.items)) }
{
    if bytes.len() != bytes_in(depth) * count {
        return Err(ObeyFault::Broken);
    }
    let pixels = pixels_of(alloc, bytes, depth)?;
    Ok(pixels)
}

/// The pixels of a run-length stream.
fn packed_pixels(
    alloc: Global,
    w: usize,
    h: usize,
    bytes: &[u8],
    depth: Depth,
) -> Result<Vec<u32>, ObeyFault>
    requires width { (1 ≤ w) × (w ≤ 64) }
    requires height { (1 ≤ h) × (h ≤ 64) }
    ensures value { Gives (λ pixels. pixels.items) result (wire_pixels depth true w h bytes.now) }
    ensures number { IfOk result (λ pixels. length pixels.items ≡ w * h) }
    ensures colors { IfOk result (λ pixels. IsTrue (are_colors pixels.items)) }
{
    match unpack_at(alloc, bytes, w, h, depth) {
        Ok(pixels) => Ok(pixels),
        Err(RleFault::BadRle { .. }) => Err(ObeyFault::Broken),
        Err(RleFault::OutOfMemory) => Err(ObeyFault::OutOfMemory),
    }
}

/// The pixels of raw or packed bytes, rows from the top.
pub fn upright_pixels(
    alloc: Global,
    packed: bool,
    w: usize,
    h: usize,
    bytes: &[u8],
    depth: Depth,
) -> Result<Vec<u32>, ObeyFault>
    requires width { (1 ≤ w) × (w ≤ 64) }
    requires height { (1 ≤ h) × (h ≤ 64) }
    ensures value { Gives (λ pixels. pixels.items) result (upright_pixels depth packed w h bytes.now) }
    ensures number { IfOk result (λ pixels. length pixels.items ≡ w * h) }
    ensures colors { IfOk result (λ pixels. IsTrue (are_colors pixels.items)) }
{
    let pixels = if packed {
        packed_pixels(alloc, w, h, bytes, depth)?
    } else {
        raw_pixels(alloc, w * h, bytes, depth)?
    };
    let upright = turned_over(alloc, &pixels, w, h)?;
    Ok(upright)
}
