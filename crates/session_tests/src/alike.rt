//! The surface of one picture and the one of tiles, which draw the same.
ghost use Rattle.std.specs.Prelude.{◌≡◌, ◌<◌, ◌^◌, true, None, IsTrue, IfOk};
ghost use Rattle.px_core.specs.Colors.{is_color, are_colors};
ghost use Rattle.px_core.specs.Rectangle.{is_session_size, whole};
ghost use Rattle.px_core.specs.Tiles.{tiles_of};
ghost use Rattle.draw_ops.specs.Fits.{broken_rule};
ghost use Rattle.draw_ops.specs.Ranges.{HasColors, colors_of};

use draw_ops::{Brush, Drawing, Glyph, Image, OutOfMemory, Run, Shape, SharedBrush, valid};
use px_core::{Rect, Size, TileSet, is_inside, is_session_size};
use std::alloc::Global;
use std::process::Abort;
use std::slice;
use std::test::Fail;
use surface_flat::Surface;
use surface_parts::DrawFault;
use tile_surface::{LentTile, Tiles};

const SIZE: Size = Size { w: 200, h: 130 };

const WHOLE: Rect = Rect {
    x: 0,
    y: 0,
    w: 200,
    h: 130,
};

/// The tiles of the picture: three rows of four.
const TILES: [u32; 12] = [0, 1, 2, 3, 32, 33, 34, 35, 64, 65, 66, 67];

/// A clip that cuts each of the paintings.
const CLIP: Rect = Rect {
    x: 45,
    y: 20,
    w: 90,
    h: 80,
};

/// How many colours there are, and a factor by which those of neighbours lie apart.
const COLORS: u32 = 0x0100_0000;

const FACTOR: u32 = 0x0001_0307;

/// The sides of the image, and how many pixels it and the brush have.
const SIDE: u16 = 24;

const IMAGE_PIXELS: u32 = 576;

const BRUSH_PIXELS: u32 = 64;

/// Where the loads go, and what is read: the image, the brush, the glyph's font and code, and the saved block.
const IMAGE: u8 = 1;

const BRUSH: u8 = 2;

const FONT: u8 = 1;

const CODE: u8 = 65;

const BLOCK: u8 = 3;

/// The glyph's rows of eight bits.
const ROWS: [u8; 10] = [0x18, 0x24, 0x42, 0x81, 0xFF, 0x81, 0x81, 0xC3, 0x00, 0xAA];

/// Raster operations: the picture inverted, the pattern mixed with it, the source mixed with it and alone, and all three mixed.
const DSTINVERT: u8 = 0x55;

const PATINVERT: u8 = 0x5A;

const SRCINVERT: u8 = 0x66;

const SRCCOPY: u8 = 0xCC;

const ALL_MIXED: u8 = 0xCA;

/// How many paintings there are beside the text.
const PAINTINGS: u8 = 9;

/// The painting that saves a block, which has no clip, as the one behind it, which puts it back.
const SAVE: u8 = 7;

/// The colour of a number.
fn color(number: u32) -> u32
    ensures color { is_color result ≡ true }
    ensures below { result < 2 ^ 24 }
{
    number.wrapping_mul(FACTOR) % COLORS
}

/// The colours of so many numbers.
#[tactic(auto, using(px_core::proofs::Colors::pushed_are_colors))]
fn colors(alloc: Global, n: u32) -> Result<Vec<u32>, OutOfMemory>
    ensures { IfOk result (λ colors. are_colors colors.items ≡ true) }
{
    let mut colors = Vec::new(alloc);
    for number in 0..n {
        colors.push(color(number))?;
    }
    Ok(colors)
}

fn loaded_image(alloc: Global) -> Result<Shape, OutOfMemory>
    ensures { IfOk result (λ shape. are_colors (colors_of shape) ≡ true) }
{
    let pixels = colors(alloc, IMAGE_PIXELS)?;
    let image = Image::new(alloc, SIDE, SIDE, pixels.as_slice())?;
    Ok(Shape::LoadImage { slot: IMAGE, image })
}

fn loaded_brush(rt: &impl Abort, alloc: Global) -> Result<Shape, OutOfMemory>
    ensures { IfOk result (λ shape. are_colors (colors_of shape) ≡ true) }
{
    let pixels = colors(alloc, BRUSH_PIXELS)?;
    assert!(rt; pixels.as_slice().len() == 64);
    let brush = SharedBrush::new(alloc, Brush::new(pixels.as_slice()))?;
    Ok(Shape::LoadBrush { slot: BRUSH, brush })
}

fn loaded_glyph(alloc: Global) -> Result<Shape, OutOfMemory>
    ensures { IfOk result (λ shape. are_colors (colors_of shape) ≡ true) }
{
    let glyph = Glyph::new(alloc, -1, -2, 8, 10, &ROWS)?;
    Ok(Shape::LoadGlyph {
        font: FONT,
        code: CODE,
        glyph,
    })
}

/// Three signs across a border of tiles.
fn text(alloc: Global) -> Result<Shape, OutOfMemory>
    ensures { IfOk result (λ shape. are_colors (colors_of shape) ≡ true) }
{
    let run = Run::new(alloc, &[(CODE, 0), (CODE, 9), (CODE, 60)])?;
    Ok(Shape::Text {
        x: 56,
        y: 60,
        color: color(1),
        font: FONT,
        run,
    })
}

/// One painting for each way in which pixels are painted or kept, across borders of tiles.
fn painting(kind: u8) -> Shape
    ensures { are_colors (colors_of result) ≡ true }
{
    match kind {
        0 => Shape::Fill {
            rect: rect(40, 30, 100, 70),
            color: color(2),
        },
        1 => Shape::Pat {
            rect: rect(-3, 50, 90, 40),
            rop: PATINVERT,
            brush: BRUSH,
        },
        2 => Shape::Blit {
            rect: rect(55, 57, 20, 19),
            rop: SRCCOPY,
            image: IMAGE,
            sx: 3,
            sy: 5,
        },
        3 => Shape::Blit3 {
            rect: rect(120, 60, 22, 20),
            rop: ALL_MIXED,
            image: IMAGE,
            sx: 1,
            sy: 2,
            brush: BRUSH,
        },
        4 => Shape::Line {
            x0: -7,
            y0: 3,
            x1: 190,
            y1: 129,
            color: color(3),
        },
        5 => Shape::Copy {
            rect: rect(41, 47, 100, 60),
            rop: SRCINVERT,
            sx: 35,
            sy: 40,
        },
        6 => Shape::Dst {
            rect: rect(100, 90, 120, 50),
            rop: DSTINVERT,
        },
        SAVE => Shape::Save {
            slot: BLOCK,
            rect: rect(50, 44, 40, 30),
        },
        _ => Shape::Restore {
            slot: BLOCK,
            x: 101,
            y: 52,
        },
    }
}

/// A rectangle.
fn rect(x: i32, y: i32, w: u32, h: u32) -> Rect {
    Rect { x, y, w, h }
}

/// What a surface answers to drawings of which there is one, that breaks no rule.
fn drawn_at_once(flat: &mut Surface, d: &Drawing) -> Result<(), DrawFault>
    requires rules { broken_rule flat.old.size d.now ≡ None }
    requires colors { HasColors d.now }
{
    flat.fit(d)?;
    match flat.draw_all(slice::from_ref(d)) {
        Ok(()) => Ok(()),
        Err(OutOfMemory) => Err(DrawFault::OutOfMemory),
    }
}

/// What a surface answers to a drawing, and where that has a clip, to the list of it alone; None where it breaks a rule.
fn drawn_flat(flat: &mut Surface, d: &Drawing) -> Option<Result<(), DrawFault>>
    requires { HasColors d.now }
{
    match valid(d, flat.size()) {
        Ok(()) if d.clip.is_some() => Some(drawn_at_once(flat, d)),
        Ok(()) => Some(flat.draw(d)),
        Err(_) => None,
    }
}

/// The same of a surface of tiles.
fn drawn_in_tiles(tiles: &mut Tiles, d: &Drawing) -> Option<Result<(), DrawFault>>
    requires { HasColors d.now }
{
    match valid(d, tiles.size()) {
        Ok(()) => Some(tiles.draw(d)),
        Err(_) => None,
    }
}

/// All pixels of a surface.
fn flat_pixels(rt: &impl Abort, flat: &Surface) -> Result<Vec<u32>, OutOfMemory> {
    assert!(rt; is_inside(flat.size(), WHOLE));
    flat.pixels_of(WHOLE)
}

/// All pixels of a surface of tiles.
fn tile_pixels(rt: &impl Abort, tiles: &Tiles) -> Result<Vec<u32>, OutOfMemory> {
    assert!(rt; is_inside(tiles.size(), WHOLE));
    tiles.pixels_of(WHOLE)
}

/// All pixels of both surfaces are the same.
fn must_look_alike(rt: &impl Abort, flat: &Surface, tiles: &Tiles) -> Result<(), OutOfMemory> {
    let wanted = flat_pixels(rt, flat)?;
    let pixels = tile_pixels(rt, tiles)?;
    assert!(rt; pixels.as_slice() == wanted.as_slice());
    Ok(())
}

/// Whether a tile has a pixel on a picture.
fn is_on(size: Size, tile: u32) -> bool
    requires { IsTrue (is_session_size size.w size.h) }
    ensures { result ≡ tiles_of size (whole size) tile }
{
    let mut all = TileSet::none();
    let rect = Rect {
        x: 0,
        y: 0,
        w: size.w,
        h: size.h,
    };
    all.add(rect, size);
    all.has(tile)
}

/// A handle of a tile that has a pixel on the surface.
fn lent(rt: &impl Abort, tiles: &mut Tiles, tile: u32) -> Result<LentTile, OutOfMemory> {
    let size = tiles.size();
    assert!(rt; is_session_size(size.w, size.h));
    assert!(rt; is_on(size, tile));
    tiles.lend(tile)
}

/// Handles of all tiles.
fn all_lent(
    rt: &impl Abort,
    alloc: Global,
    tiles: &mut Tiles,
) -> Result<Vec<LentTile>, OutOfMemory> {
    let mut held = Vec::new(alloc);
    for tile in TILES {
        held.push(lent(rt, tiles, tile)?)?;
    }
    Ok(held)
}

/// Both surfaces draw a drawing, and look alike behind it.
fn must_draw(
    rt: &impl Abort,
    flat: &mut Surface,
    tiles: &mut Tiles,
    d: &Drawing,
) -> Result<(), OutOfMemory>
    requires { HasColors d.now }
{
    assert!(rt; drawn_flat(flat, d) == Some(Ok(())));
    assert!(rt; drawn_in_tiles(tiles, d) == Some(Ok(())));
    must_look_alike(rt, flat, tiles)
}

/// Both surfaces load what the paintings read.
fn must_load(
    rt: &impl Abort,
    alloc: Global,
    flat: &mut Surface,
    tiles: &mut Tiles,
) -> Result<(), OutOfMemory> {
    let shape = loaded_image(alloc)?;
    must_draw(rt, flat, tiles, &Drawing { shape, clip: None })?;
    let shape = loaded_brush(rt, alloc)?;
    must_draw(rt, flat, tiles, &Drawing { shape, clip: None })?;
    let shape = loaded_glyph(alloc)?;
    must_draw(rt, flat, tiles, &Drawing { shape, clip: None })
}

/// The clip of a painting: this one, but none where a block is saved or put back.
fn clip_of(kind: u8, clip: Option<Rect>) -> Option<Rect> {
    if kind < SAVE { clip } else { None }
}

/// Both surfaces draw each painting, and a text, within a clip.
fn must_paint(
    rt: &impl Abort,
    alloc: Global,
    flat: &mut Surface,
    tiles: &mut Tiles,
    clip: Option<Rect>,
) -> Result<(), OutOfMemory> {
    for kind in 0..PAINTINGS {
        let shape = painting(kind);
        let clip = clip_of(kind, clip);
        must_draw(rt, flat, tiles, &Drawing { shape, clip })?;
    }
    let shape = text(alloc)?;
    must_draw(rt, flat, tiles, &Drawing { shape, clip })
}

/// Ten drawings, and the same once more within a clip, while all tiles are held that were lent behind the first ten.
#[test]
fn a_flat_surface_and_one_of_tiles_draw_alike(rt: HostRuntime) -> Result<(), Fail> {
    let alloc = rt.alloc();
    let mut flat = Surface::new(alloc, SIZE)?;
    let mut tiles = Tiles::new(alloc, SIZE)?;
    must_load(&rt, alloc, &mut flat, &mut tiles)?;
    must_paint(&rt, alloc, &mut flat, &mut tiles, None)?;
    let held = all_lent(&rt, alloc, &mut tiles)?;
    must_paint(&rt, alloc, &mut flat, &mut tiles, Some(CLIP))?;
    drop(held);
    assert_eq!(rt; flat.count(), 23);
    Ok(())
}
