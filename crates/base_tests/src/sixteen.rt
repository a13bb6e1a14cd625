//! Calls of 16 bits, by hand: cut colours, packed pixels, a tile, and the order of a brush's entry.

use crate::checks::are_written;
use depth_cut::{Packed, cut, pack16, style16, unpack16, wide, wire_color, write_tile16};
use order_prim::{mem3_blt, pat_blt};
use px_core::{Depth, Rect};
use std::process::Abort;
use std::test::Fail;

/// A colour run of the first row, then background to the end.
const ONE_COLOR: [u8; 7] = [0x60, 0x20, 0x00, 0xF8, 0xF0, 0xC0, 0x0F];

#[test]
fn a_color_is_cut_and_widened(rt: HostRuntime) -> Result<(), Fail> {
    assert_eq!(rt; cut(0x123456), 0x11AA);
    assert_eq!(rt; cut(0xFFFFFF), 0xFFFF);
    assert_eq!(rt; cut(0xFF0000), 0xF800);
    assert_eq!(rt; wide(0x11AA), 0x103450);
    assert_eq!(rt; wide(0xFFFF), 0xF8FCF8);
    Ok(())
}

#[test]
fn a_color_stands_in_a_field_by_its_depth(rt: HostRuntime) -> Result<(), Fail> {
    assert_eq!(rt; wire_color(0x123456, Depth::Bits24), 0x123456);
    assert_eq!(rt; wire_color(0x123456, Depth::Bits16), 0xAA1100);
    Ok(())
}

#[test]
#[tactic(auto, using(crate::proofs::Pixels::replicated_are_pixels))]
fn a_tile_of_one_color_takes_seven_bytes(rt: HostRuntime) -> Result<(), Fail> {
    let tile = vec![in rt.alloc(); 0xF800u32; 4096]?;
    match pack16(rt.alloc(), tile.as_slice(), 64)? {
        Packed::Packed(bytes) => are_written(&rt, bytes.as_slice(), &ONE_COLOR),
        Packed::Raw => panic!(&rt; "raw"),
    }
    match unpack16(rt.alloc(), &ONE_COLOR, 64, 64) {
        Ok(pixels) => assert_eq!(rt; pixels.as_slice(), tile.as_slice()),
        Err(_) => panic!(&rt; "refused"),
    }
    Ok(())
}

#[test]
fn a_pixel_that_packs_into_no_fewer_bytes_is_raw(rt: HostRuntime) -> Result<(), Fail> {
    // Three bytes against two.
    let one = pack16(rt.alloc(), &[0x11AA], 1)?;
    assert!(rt; matches!(one, Packed::Raw));
    Ok(())
}

#[test]
#[tactic(auto, using(px_core::proofs::Colors::replicated_are_colors))]
fn a_tile_is_cut(rt: HostRuntime) -> Result<(), Fail> {
    let pixels = vec![in rt.alloc(); 0xFF0000u32; 4096]?;
    let tile = Rect {
        x: 0,
        y: 0,
        w: 64,
        h: 64,
    };
    let mut out = Vec::new(rt.alloc());
    write_tile16(rt.alloc(), &mut out, tile, pixels.as_slice(), true)?;
    let wanted: &[u8] = &[
        0x01, 0x00, 0x01, 0x00, // updateType, numberRectangles
        0x00, 0x00, 0x00, 0x00, 0x3F, 0x00, 0x3F, 0x00, // the edges
        0x40, 0x00, 0x40, 0x00, 0x10, 0x00, // width, height, bitsPerPixel
        0x01, 0x04, 0x07, 0x00, // flags, bitmapLength
        0x60, 0x20, 0x00, 0xF8, 0xF0, 0xC0, 0x0F, // the packed pixels
    ];
    are_written(&rt, out.as_slice(), wanted);
    Ok(())
}

#[test]
fn a_row_that_isnt_packed_is_cut(rt: HostRuntime) -> Result<(), Fail> {
    let row = Rect {
        x: 8,
        y: 2,
        w: 4,
        h: 1,
    };
    let mut out = Vec::new(rt.alloc());
    write_tile16(
        rt.alloc(),
        &mut out,
        row,
        &[0x123456, 0xFF0000, 0x00FF00, 0x0000FF],
        false,
    )?;
    let wanted: &[u8] = &[
        0x01, 0x00, 0x01, 0x00, // updateType, numberRectangles
        0x08, 0x00, 0x02, 0x00, 0x0B, 0x00, 0x02, 0x00, // the edges
        0x04, 0x00, 0x01, 0x00, 0x10, 0x00, // width, height, bitsPerPixel
        0x00, 0x00, 0x08, 0x00, // flags, bitmapLength
        0xAA, 0x11, 0x00, 0xF8, 0xE0, 0x07, 0x1F, 0x00, // the pixels
    ];
    are_written(&rt, out.as_slice(), wanted);
    Ok(())
}

#[test]
fn brushes_have_the_style_of_16_bits(rt: HostRuntime) -> Result<(), Fail> {
    let area = Rect {
        x: 0,
        y: 0,
        w: 8,
        h: 8,
    };
    let pattern = style16(pat_blt(area, 0xF0, 3));
    assert_eq!(rt; pattern.value(9), 0x84);
    assert_eq!(rt; pattern.value(10), 3);
    let both = style16(mem3_blt(1, 2, area, 0xB8, 0, 0, 3));
    assert_eq!(rt; both.value(12), 0x84);
    assert_eq!(rt; both.value(13), 3);
    Ok(())
}
