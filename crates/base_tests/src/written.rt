//! Calls that no program makes, which write numbers and lengths (X.690, 8.1.3; X.691, 10.9), bounds, a run of glyphs and a tile.

use crate::checks::are_written;
use bitmap_upd::write_tile;
use order_fields::{Fields, GLYPH_INDEX, Regs, write_bounds};
use order_prim::glyph_index;
use px_core::Rect;
use std::alloc::Global;
use std::process::Abort;
use std::test::Fail;
use wire_num::{OutOfMemory, put_per_len, put_u16_be, put_u32_le};

/// Pairs of an entry and a delta.
const PAIRS: [u8; 6] = [0, 0, 1, 8, 2, 8];

/// The fields of these pairs in white at (4, 5), from entries of the first glyph cache: cacheId, flAccel, ulCharInc, fOpRedundant, both
/// colours, the edges bk and op, the brush, x and y.
const RUN: [i64; 21] = [
    0, 3, 0, 1, 0xFFFFFF, 0, 4, 5, 28, 6, 0, 0, 0, 0, 0, 0, 0, 0, 0, 4, 5,
];

/// Writes numbers, each behind what was written before it.
fn put_numbers(out: &mut Vec<u8>) -> Result<(), OutOfMemory> {
    put_u16_be(out, 0x1234)?;
    put_u32_le(out, 0x0102_0304)
}

/// Writes packed lengths of one byte and of two.
fn put_lengths(out: &mut Vec<u8>) -> Result<(), OutOfMemory> {
    put_per_len(out, 127)?;
    put_per_len(out, 128)?;
    put_per_len(out, 286)
}

/// Writes the same bounds twice: left and right moved, top and bottom absolute; then nothing.
fn put_the_bounds(out: &mut Vec<u8>) -> Result<(), OutOfMemory> {
    let mut regs = Regs::new();
    let clip = Rect {
        x: 8,
        y: 200,
        w: 16,
        h: 300,
    };
    write_bounds(out, &mut regs, clip, true)?;
    write_bounds(out, &mut regs, clip, true)
}

#[test]
fn numbers_lengths_and_bounds_are_written(rt: HostRuntime) -> Result<(), Fail> {
    let mut out = Vec::new(rt.alloc());
    put_numbers(&mut out)?;
    put_lengths(&mut out)?;
    put_the_bounds(&mut out)?;
    let wanted: &[u8] = &[
        0x12, 0x34, 4, 3, 2, 1, // the numbers
        0x7F, 0x80, 0x80, 0x81, 0x1E, // the lengths
        0x5A, 0x08, 0xC8, 0x00, 0x17, 0xF3, 0x01, // the bounds
    ];
    are_written(&rt, out.as_slice(), wanted);
    Ok(())
}

/// The run of glyphs by what it draws.
fn run_by_its_glyphs(alloc: Global) -> Result<Fields, OutOfMemory> {
    let area = Rect {
        x: 4,
        y: 5,
        w: 24,
        h: 1,
    };
    glyph_index(alloc, 0, 4, 5, 0xFFFFFF, area, &PAIRS)
}

/// Both have the same values and the same bytes.
fn are_same(rt: &impl Abort, one: &Fields, other: &Fields) {
    assert_eq!(rt; one.values(), other.values());
    are_written(rt, one.bytes(), other.bytes());
}

#[test]
#[tactic(auto, using(px_core::proofs::Colors::replicated_are_colors))]
fn a_run_and_a_tile_are_made(rt: HostRuntime) -> Result<(), Fail> {
    let run = Fields::new(rt.alloc(), GLYPH_INDEX, &RUN, &PAIRS)?;
    are_same(&rt, &run_by_its_glyphs(rt.alloc())?, &run);
    let pixels = vec![in rt.alloc(); 0xFF0000u32; 4096]?;
    let tile = Rect {
        x: 0,
        y: 0,
        w: 64,
        h: 64,
    };
    let mut out = Vec::new(rt.alloc());
    write_tile(rt.alloc(), &mut out, tile, pixels.as_slice(), true)?;
    let wanted: &[u8] = &[
        0x01, 0x00, 0x01, 0x00, // updateType, numberRectangles
        0x00, 0x00, 0x00, 0x00, 0x3F, 0x00, 0x3F, 0x00, // the edges
        0x40, 0x00, 0x40, 0x00, 0x18, 0x00, // width, height, bitsPerPixel
        0x01, 0x04, 0x08, 0x00, // flags, bitmapLength
        0x60, 0x20, 0x00, 0x00, 0xFF, 0xF0, 0xC0, 0x0F, // the packed pixels
    ];
    are_written(&rt, out.as_slice(), wanted);
    Ok(())
}
