//! What is seen of a pointer's shape: the blue of its colour, and its top row.

ghost use Rattle.std.specs.Prelude.{◌≡◌, ◌<◌, ◌/◌, ◌%◌, ◌==◌, length};
ghost use Rattle.frame_rules.specs.Told.{xor_size};
ghost use Rattle.pointer_share.specs.Outlines.{pixels, bit_of, mask_place, blue_place, is_set, first_blue, outline};

/// The pixels of a shape of 8 and of 16 columns.
const PIXELS: usize = 64;

const WIDE_PIXELS: usize = 128;

/// The offset of the top row in the mask, whose rows go from the bottom up.
const TOP: usize = 14;

/// The number of a shape's pixels.
fn pixels(wide: bool) -> usize
    ensures { result ≡ pixels wide }
{
    if wide { WIDE_PIXELS } else { PIXELS }
}

/// The bit of a column in its byte of the mask.
fn bit_of(column: usize) -> u8
    requires { column < 8 }
    ensures value { result ≡ bit_of column }
    ensures some { 0 < result }
{
    match column {
        0 => 128,
        1 => 64,
        2 => 32,
        3 => 16,
        4 => 8,
        5 => 4,
        6 => 2,
        _ => 1,
    }
}

/// The offset in the mask of the byte of a pixel, which are counted from the top left.
fn mask_place(wide: bool, k: usize) -> usize
    requires { k < pixels wide }
    ensures value { result ≡ mask_place wide k }
    ensures inside { result < 16 }
{
    if wide {
        2 * (7 - k / 16) + k % 16 / 8
    } else {
        2 * (7 - k / 8)
    }
}

/// The offset in the colours of a pixel's blue byte.
fn blue_place(wide: bool, k: usize) -> usize
    requires { k < pixels wide }
    ensures value { result ≡ blue_place wide k }
    ensures inside { result < xor_size wide }
{
    if wide {
        3 * (16 * (7 - k / 16) + k % 16)
    } else {
        3 * (8 * (7 - k / 8) + k % 8)
    }
}

/// Whether a pixel is set.
fn is_set(wide: bool, mask: &[u8], k: usize) -> bool
    requires size { length mask.now ≡ 16 }
    requires inside { k < pixels wide }
    ensures { result ≡ is_set wide mask.now k }
{
    mask[mask_place(wide, k)] / bit_of(k % 8) % 2 == 0
}

/// The blue byte of the first pixel that is set, from the top left; 0 where none is.
fn first_blue(wide: bool, xor: &[u8], mask: &[u8]) -> u8
    requires xor { length xor.now ≡ xor_size wide }
    requires mask { length mask.now ≡ 16 }
    ensures { result ≡ first_blue wide xor.now mask.now (pixels wide) 0 }
{
    let count = pixels(wide);
    for k in 0..count {
        if is_set(wide, mask, k) {
            return xor[blue_place(wide, k)];
        }
    }
    0
}

/// The outline of a shape with these colours and this mask.
pub fn outline(wide: bool, xor: &[u8], mask: &[u8]) -> (u8, u8)
    requires xor { length xor.now ≡ xor_size wide }
    requires mask { length mask.now ≡ 16 }
    ensures { result ≡ outline wide (record { xor = xor.now; mask = mask.now }) }
{
    (first_blue(wide, xor, mask), 255 - mask[TOP])
}
