//! An operation spread over words.
//!
//! Bit `4p + 2s + d` of a code is the result for the bits p, s and d of pattern, source and
//! destination. Each bit of the code becomes a mask of 24 equal bits, and the bits of destination,
//! source and pattern in turn choose between the masks:
//!
//! | place | 0 | 1 | 2 | 3 | 4 | 5 | 6 | 7 |
//! |---|---|---|---|---|---|---|---|---|
//! | pattern | 0 | 0 | 0 | 0 | 1 | 1 | 1 | 1 |
//! | source | 0 | 0 | 1 | 1 | 0 | 0 | 1 | 1 |
//! | destination | 0 | 1 | 0 | 1 | 0 | 1 | 0 | 1 |

ghost use Rattle.std.specs.Prelude.{◌≡◌, ◌<◌, bit_and, bit_xor};
ghost use Rattle.rop3_core.specs.Masks.{mask, masks_of, chosen};
ghost use Rattle.rop3_core.specs.Rop3.{ternary_raster};

/// The 24 bits of a colour.
pub(crate) const COLOR_BITS: u32 = 0x00FF_FFFF;

/// A code with its masks, by place.
#[derive(Clone, Copy)]
pub(crate) struct Masks {
    code: u8,
    words: [u32; 8],
    ghost of_code: { words ≡ masks_of code },
}

impl Masks {
    pub(crate) fn new(code: u8) -> Self
        ensures { result.code ≡ code }
    {
        let words = [
            mask(code, 0),
            mask(code, 1),
            mask(code, 2),
            mask(code, 3),
            mask(code, 4),
            mask(code, 5),
            mask(code, 6),
            mask(code, 7),
        ];
        Masks { code, words }
    }

    /// The operation's result for one pixel.
    pub(crate) fn mixed(&self, p: u32, s: u32, d: u32) -> u32
        ensures { result ≡ ternary_raster self.now.code p s d }
    {
        let words = &self.words;
        let no_pattern = chosen(
            s,
            chosen(d, words[0], words[1]),
            chosen(d, words[2], words[3]),
        );
        let pattern = chosen(
            s,
            chosen(d, words[4], words[5]),
            chosen(d, words[6], words[7]),
        );
        chosen(p, no_pattern, pattern)
    }
}

/// All ones where the code has a one at the place, else zero.
fn mask(code: u8, place: u32) -> u32
    requires { place < 8 }
    ensures { result ≡ mask code place }
{
    if (code >> place) & 1 == 1 {
        COLOR_BITS
    } else {
        0
    }
}

/// The bits of `one` where `bits` has a one, and else those of `zero`.
fn chosen(bits: u32, zero: u32, one: u32) -> u32
    ensures { result ≡ chosen bits zero one }
{
    zero ^ (bits & (zero ^ one))
}
