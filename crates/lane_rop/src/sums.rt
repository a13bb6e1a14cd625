//! An operation as a sum of products.
//!
//! Bit `4p + 2s + d` of a code is the result for the bits p, s and d of pattern, source and
//! destination. The result is also the exclusive or of some of the eight products of these bits, the
//! code's algebraic normal form. Each product has a word of 24 equal bits that says whether it is one
//! of them:
//!
//! | word | `low[0]` | `low[1]` | `low[2]` | `low[3]` | `high[0]` | `high[1]` | `high[2]` | `high[3]` |
//! |---|---|---|---|---|---|---|---|---|
//! | product | 1 | d | s | s d | p | p d | p s | p s d |

ghost use Rattle.std.specs.Prelude.{◌≡◌, ℕ, ◌<◌};
ghost use Rattle.rop3_core.specs.Rop3.{ternary_raster};
ghost use Rattle.rop3_core.specs.Masks.{mask};
ghost use Rattle.lane_rop.specs.Sums.{IsNormalForm, IsSumOf, added, sum_of_two};

/// The 24 bits of a colour.
const COLOR_BITS: u32 = 0x00FF_FFFF;

/// The places of a code where the destination's bit is 0.
const WITHOUT_DESTINATION: u8 = 0b0101_0101;
/// The places where the source's bit is 0.
const WITHOUT_SOURCE: u8 = 0b0011_0011;
/// The places where the pattern's bit is 0.
const WITHOUT_PATTERN: u8 = 0b0000_1111;

/// A code with the words of its products.
#[derive(Clone, Copy)]
pub(crate) struct Sums {
    pub(crate) code: u8,
    /// Those without the pattern.
    pub(crate) low: [u32; 4],
    /// Those with it.
    pub(crate) high: [u32; 4],
    ghost of_code: { IsSumOf code low high },
}

impl Sums {
    pub(crate) fn new(code: u8) -> Self
        ensures { result.code ≡ code }
    {
        let form = normal_form(code);
        let low = [mask(form, 0), mask(form, 1), mask(form, 2), mask(form, 3)];
        let high = [mask(form, 4), mask(form, 5), mask(form, 6), mask(form, 7)];
        Sums { code, low, high }
    }

    /// The operation's result for one pixel.
    pub(crate) fn mixed(&self, p: u32, s: u32, d: u32) -> u32
        ensures { result ≡ ternary_raster self.now.code p s d }
    {
        added(p, sum(&self.low, s, d), sum(&self.high, s, d))
    }
}

/// Which products are in the sum: the bit at the place of a product is 1.
fn normal_form(code: u8) -> u8
    ensures { IsNormalForm code result }
{
    let by_destination = code ^ ((code & WITHOUT_DESTINATION) << 1);
    let by_source = by_destination ^ ((by_destination & WITHOUT_SOURCE) << 2);
    by_source ^ ((by_source & WITHOUT_PATTERN) << 4)
}

/// All ones where the code has a one at the place, else zero.
fn mask(code: u8, place: u32) -> u32
    requires { place < 8 }
    ensures { result ≡ mask code place }
{
    if (code >> place) & 1 == 1 {
        COLOR_BITS
    } else {
        0
    }
}

/// `one`, and `more` added where `bits` has a one.
fn added(bits: u32, one: u32, more: u32) -> u32
    ensures { result ≡ added bits one more }
{
    one ^ (bits & more)
}

/// The sum of products of two operands.
fn sum(words: &[u32; 4], x: u32, d: u32) -> u32
    ensures { result ≡ sum_of_two words.now x d }
{
    added(
        x,
        added(d, words[0], words[1]),
        added(d, words[2], words[3]),
    )
}
