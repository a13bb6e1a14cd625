//! Tiles and what they pack into, by hand.
ghost use Rattle.std.specs.Prelude.{IsTrue};
ghost use Rattle.px_core.specs.Colors.{are_colors};

use rle_enc::{Packed, pack};
use std::alloc::Global;
use std::process::Abort;
use std::test::Fail;

/// Whether all are below 2^24.
#[tactic(auto, using(px_core::proofs::Colors::all_are_colors))]
fn have_only_colors(colors: &[u32]) -> bool
    ensures { IsTrue result → IsTrue (are_colors colors.now) }
{
    colors.iter().all(|color| *color < 0x100_0000)
}

/// Packs pixels in rows of a width.
fn pack_rows(rt: &impl Abort, alloc: Global, pixels: &[u32], w: usize) -> Result<Packed, Fail> {
    assert!(rt; 1 <= w);
    assert!(rt; pixels.len() % w == 0);
    assert!(rt; 1 <= pixels.len());
    assert!(rt; pixels.len() <= 4096);
    assert!(rt; have_only_colors(pixels));
    Ok(pack(alloc, pixels, w)?)
}

/// Asserts the bytes that pixels pack into, which are fewer than three for each.
fn packs_into(
    rt: &impl Abort,
    alloc: Global,
    pixels: &[u32],
    w: usize,
    wanted: &[u8],
) -> Result<(), Fail> {
    match pack_rows(rt, alloc, pixels, w)? {
        Packed::Packed(bytes) => assert_eq!(rt; bytes.as_slice(), wanted, "rows of {w}"),
        Packed::Raw => panic!(rt; "raw rows of {w}"),
    }
    Ok(())
}

#[test]
fn a_tile_of_one_color_takes_eight_bytes(rt: HostRuntime) -> Result<(), Fail> {
    let tile = vec![in rt.alloc(); 0xFF0000u32; 4096]?;
    // A colour run of the first row, then background to the end.
    let wanted = [0x60, 0x20, 0x00, 0x00, 0xFF, 0xF0, 0xC0, 0x0F];
    packs_into(&rt, rt.alloc(), tile.as_slice(), 64, &wanted)
}

#[test]
fn pixels_that_pack_into_no_fewer_bytes_are_raw(rt: HostRuntime) -> Result<(), Fail> {
    // One image of one pixel; an image of two pixels in each of two rows.
    let one = pack_rows(&rt, rt.alloc(), &[0x123456], 1)?;
    assert!(rt; matches!(one, Packed::Raw));
    let four = pack_rows(&rt, rt.alloc(), &[1, 2, 3, 4], 2)?;
    assert!(rt; matches!(four, Packed::Raw));
    Ok(())
}
