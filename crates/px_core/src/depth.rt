//! How many bits a viewer's pixels have, and what follows from that alone ([MS-RDPEGDI] 2.2.2.2.1.1.2.8 and 2.2.2.2.1.2.7).
//!
//! | depth | bits | bytes | white | Style of a cached brush | iBitmapFormat of a brush | iBytes of a brush |
//! |---|---|---|---|---|---|---|
//! | `Bits24` | 24 | 3 | FFFFFF | 85 | 5, BMF_24BPP | 192 |
//! | `Bits16` | 16 | 2 | FFFF | 84 | 4, BMF_16BPP | 128 |

ghost use Rattle.std.specs.Prelude.{◌≡◌};
ghost use Rattle.px_core.specs.Depth.{bits_in, bytes_in, white, brush_style, brush_format, brush_bytes};

/// How many bits a pixel has that a viewer is shown.
#[derive(Clone, Copy, Debug, PartialEq, Eq)]
pub enum Depth {
    Bits24,
    Bits16,
}

/// The bits of a pixel.
pub fn bits_in(depth: Depth) -> u16
    ensures { result ≡ bits_in depth }
{
    match depth {
        Depth::Bits24 => 24,
        Depth::Bits16 => 16,
    }
}

/// The bytes of a pixel.
pub fn bytes_in(depth: Depth) -> usize
    ensures { result ≡ bytes_in depth }
{
    match depth {
        Depth::Bits24 => 3,
        Depth::Bits16 => 2,
    }
}

/// The color whose every bit is 1.
pub fn white(depth: Depth) -> u32
    ensures { result ≡ white depth }
{
    match depth {
        Depth::Bits24 => 0xFFFFFF,
        Depth::Bits16 => 0xFFFF,
    }
}

/// The style of a brush that is an entry of the brush cache: TS_CACHED_BRUSH and the depth.
pub fn cached_brush_style(depth: Depth) -> u8
    ensures { result ≡ brush_style depth }
{
    match depth {
        Depth::Bits24 => 0x85,
        Depth::Bits16 => 0x84,
    }
}

/// The format of the pixels of a brush that goes into the brush cache.
pub fn brush_format(depth: Depth) -> u8
    ensures { result ≡ brush_format depth }
{
    match depth {
        Depth::Bits24 => 0x05,
        Depth::Bits16 => 0x04,
    }
}

/// The bytes of the 64 pixels of a brush.
pub fn brush_bytes(depth: Depth) -> u8
    ensures { result ≡ brush_bytes depth }
{
    match depth {
        Depth::Bits24 => 192,
        Depth::Bits16 => 128,
    }
}
