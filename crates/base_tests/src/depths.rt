//! The orders of an image's and of a brush's entry at both depths, by hand: calls that no program makes.

use crate::checks::are_written;
use depth_cut::{cache_bitmap16, cache_brush16};
use draw_ops::{Brush, Image};
use order_second::{cache_bitmap, cache_brush};
use std::alloc::Global;
use std::test::Fail;
use wire_num::OutOfMemory;

/// Four colours in a row.
const FOUR: [u32; 4] = [0x123456, 0xFF0000, 0x00FF00, 0x0000FF];

/// The pixels of a red brush.
const RED: [u32; 64] = [0xFF0000; 64];

/// Writes four pixels as entry 0 of the first bitmap cache, at 16 bits and at 24.
fn put_images(alloc: Global, out: &mut Vec<u8>) -> Result<(), OutOfMemory> {
    let image = Image::new(alloc, 4, 1, &FOUR)?;
    cache_bitmap16(alloc, out, 0, 0, &image, true)?;
    cache_bitmap(alloc, out, 0, 0, &image, true)
}

#[test]
fn an_image_is_written_at_both_depths(rt: HostRuntime) -> Result<(), Fail> {
    let mut out = Vec::new(rt.alloc());
    put_images(rt.alloc(), &mut out)?;
    let wanted: &[u8] = &[
        0x03, 0x0A, 0x00, 0x00, 0x00, 0x00, // the order's length, flags and type: raw
        0x00, 0x00, 0x04, 0x01, 0x10, 0x08, 0x00, 0x00, 0x00, // cache, sides, bits, length, index
        0xAA, 0x11, 0x00, 0xF8, 0xE0, 0x07, 0x1F, 0x00, // the pixels
        0x03, 0x0E, 0x00, 0x00, 0x00, 0x00, // the same in twelve bytes: packed they are thirteen
        0x00, 0x00, 0x04, 0x01, 0x18, 0x0C, 0x00, 0x00, 0x00, //
        0x56, 0x34, 0x12, 0x00, 0x00, 0xFF, 0x00, 0xFF, 0x00, 0xFF, 0x00, 0x00, //
    ];
    are_written(&rt, out.as_slice(), wanted);
    Ok(())
}

/// Writes a red brush as entry 3 of the brush cache, at 16 bits and at 24.
fn put_brushes(alloc: Global, out: &mut Vec<u8>) -> Result<(), OutOfMemory> {
    let brush = Brush::new(&RED);
    cache_brush16(alloc, out, 3, &brush)?;
    cache_brush(alloc, out, 3, &brush)
}

#[test]
fn a_brush_is_written_at_both_depths(rt: HostRuntime) -> Result<(), Fail> {
    let mut out = Vec::new(rt.alloc());
    put_brushes(rt.alloc(), &mut out)?;
    let mut wanted = Vec::new(rt.alloc());
    wanted.extend_from_slice(&[0x03, 0x7F, 0x00, 0x00, 0x00, 0x07])?;
    wanted.extend_from_slice(&[0x03, 0x04, 0x08, 0x08, 0x00, 0x80])?; // entry, format, sides, style, length
    for _ in 0..64 {
        wanted.extend_from_slice(&[0x00, 0xF8])?;
    }
    wanted.extend_from_slice(&[0x03, 0xBF, 0x00, 0x00, 0x00, 0x07])?;
    wanted.extend_from_slice(&[0x03, 0x05, 0x08, 0x08, 0x00, 0xC0])?;
    for _ in 0..64 {
        wanted.extend_from_slice(&[0x00, 0x00, 0xFF])?;
    }
    are_written(&rt, out.as_slice(), wanted.as_slice());
    Ok(())
}
