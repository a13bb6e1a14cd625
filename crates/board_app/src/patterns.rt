//! What the board loads (profile).

ghost use Rattle.std.specs.Prelude.{◌≡◌, ◌<◌, ◌≤◌, ◌+◌, ◌*◌, ◌/◌, ◌%◌, pos, IfOk};
ghost use Rattle.session_rules.specs.Board.{checkered, shaded, sign_of};

use crate::OutOfMemory;
use draw_ops::{Brush, Glyph, Image, SharedBrush};
use std::alloc::Global;

/// White, and black.
const W: u32 = 0xFFFFFF;

const B: u32 = 0;
/// White where the sum of column and row is even.
const CHECKERED: [u32; 64] = [
    W, B, W, B, W, B, W, B, //
    B, W, B, W, B, W, B, W, //
    W, B, W, B, W, B, W, B, //
    B, W, B, W, B, W, B, W, //
    W, B, W, B, W, B, W, B, //
    B, W, B, W, B, W, B, W, //
    W, B, W, B, W, B, W, B, //
    B, W, B, W, B, W, B, W,
];
/// The side of the image, and of a sign.
const IMAGE_SIDE: u16 = 16;

const SIGN_SIDE: u16 = 8;

/// The checkered brush.
pub fn checkered(alloc: Global) -> Result<SharedBrush, OutOfMemory>
    ensures { IfOk result (λ brush. brush ≡ checkered) }
{
    SharedBrush::new(alloc, Brush::new(&CHECKERED))
}

/// The image in which red goes up to the right, and green downwards.
pub fn shaded(alloc: Global) -> Result<Image, OutOfMemory>
    ensures { IfOk result (λ image. image ≡ record { w = 16; h = 16; pixels = shaded }) }
{
    let pixels = shades();
    Image::new(alloc, IMAGE_SIDE, IMAGE_SIDE, &pixels)
}

/// The pixels of the image.
fn shades() -> [u32; 256]
    ensures { result ≡ shaded }
{
    let mut pixels = [0; 256];
    for i in 0..256usize {
        pixels[i] = shade(i as u32);
    }
    pixels
}

/// The colour of a pixel of the image.
fn shade(i: u32) -> u32
    requires { i < 256 }
    ensures { result ≡ 65536 * (16 * (i % 16)) + (256 * (16 * (i / 16)) + 255) }
{
    65536 * (16 * (i % 16)) + (256 * (16 * (i / 16)) + 255)
}

/// The sign of a code.
pub fn sign(alloc: Global, code: u8) -> Result<Glyph, OutOfMemory>
    requires { code ≤ 126 }
    ensures { IfOk result (λ glyph. glyph ≡ record { x = pos 0; y = pos 0; cx = 8; cy = 8; bits = sign_of code }) }
{
    let rows = sign_rows(code);
    Glyph::new(alloc, 0, 0, SIGN_SIDE, SIGN_SIDE, &rows)
}

/// The rows of a sign: the code, rotated left bit by bit.
fn sign_rows(code: u8) -> [u8; 8]
    requires { code ≤ 126 }
    ensures { result ≡ sign_of code }
{
    [
        rotated(code, 1),
        rotated(code, 2),
        rotated(code, 4),
        rotated(code, 8),
        rotated(code, 16),
        rotated(code, 32),
        rotated(code, 64),
        rotated(code, 128),
    ]
}

/// A code times a power of two, the bits above the eighth at its end.
fn rotated(code: u8, power: u16) -> u8
    requires small { code * power ≤ 32767 }
    requires fits { (code * power) % 256 + (code * power) / 256 ≤ 255 }
    ensures { result ≡ (code * power) % 256 + (code * power) / 256 }
{
    let n = u16::from(code) * power;
    (n % 256 + n / 256) as u8
}
