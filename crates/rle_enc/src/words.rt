//! What two words tell of the next pixels of a stretch: where one is that a row earlier, and where one has the next one's colour.
ghost use Rattle.std.specs.Prelude.{◌≡◌, ℕ, ◌+◌, ◌-◌, ◌<◌, ◌≤◌, IfSome, length, max};
ghost use Rattle.std.specs.Int.{bit_at};
ghost use Rattle.run_lengths.specs.Packer.{chosen_run};
ghost use Rattle.rle_enc.specs.Stretch.{piece_run, piece_size};
ghost use Rattle.rle_enc.specs.Words.{AreCounts, AreWords};

use crate::counts::Piece;
use lane_rop::equal_word;

/// How many pixels a word tells of.
pub const WORD: usize = 64;

/// Two words, and how many pixels they tell of.
#[derive(Clone, Copy)]
pub struct Words {
    /// A one where a pixel is the one a row earlier.
    pub same: u64,
    /// A one where the next pixel has its colour.
    pub next: u64,
    /// How many pixels from the lowest bits on.
    pub left: usize,
}

/// How many pixels come before a run, and how long it is either way.
#[derive(Clone, Copy)]
pub struct Counts {
    /// Neither background nor of the next one's colour.
    pub alone: usize,
    /// Background behind them.
    pub background: usize,
    /// Those behind them that have the next one's colour.
    pub color: usize,
}

impl Words {
    /// The words of the first pixels, by those a row earlier.
    #[inline(always)]
    pub fn new(pixels: &[u32], row: &[u32]) -> Self
        requires pixels { 65 ≤ length pixels.now }
        requires row { 64 ≤ length row.now }
        ensures { AreWords pixels.now row.now 0 result }
    {
        Words {
            same: equal_word(pixels, row),
            next: equal_word(&pixels[1..], pixels),
            left: WORD,
        }
    }

    /// How many pixels come before a run, as far as the words tell.
    #[inline(always)]
    pub fn alone(self) -> usize
        ensures few { result ≤ self.left }
        ensures none { (k : ℕ) → k < result → (bit_at self.same k ≡ 0) × (bit_at self.next k ≡ 0) }
    {
        zeros(self.same | self.next).min(self.left)
    }

    /// What comes first, where the words tell of it to its end.
    #[inline(always)]
    pub fn first(self) -> Option<Counts>
        requires { self.left ≤ 64 }
        ensures { IfSome result (AreCounts self) }
    {
        let alone = zeros(self.same | self.next);
        if alone >= self.left {
            return None;
        }
        let background = ones(self.same >> alone);
        let color = ones(self.next >> alone);
        if alone + background.max(color + 1) >= self.left {
            return None;
        }
        Some(Counts {
            alone,
            background,
            color,
        })
    }

    /// What they tell of the pixels behind so many.
    #[inline(always)]
    pub fn past(self, n: usize) -> Self
        requires within { n < self.left }
        requires few { self.left ≤ 64 }
        ensures same { (k : ℕ) → bit_at result.same k ≡ bit_at self.same (n + k) }
        ensures next { (k : ℕ) → bit_at result.next k ≡ bit_at self.next (n + k) }
        ensures left { result.left ≡ self.left - n }
    {
        Words {
            same: self.same >> n,
            next: self.next >> n,
            left: self.left - n,
        }
    }
}

impl Counts {
    /// The run.
    #[inline(always)]
    pub fn piece(self) -> Piece
        requires some { 1 ≤ self.background + self.color }
        requires few { self.color < 64 }
        ensures run { (color : ℕ) → piece_run color result ≡ chosen_run self.background (self.color + 1) color }
        ensures some { 1 ≤ piece_size result }
        ensures short { piece_size result ≤ max self.background (self.color + 1) }
    {
        if self.background > self.color {
            Piece::Background(self.background)
        } else {
            Piece::Color(self.color + 1)
        }
    }
}

/// How many bits from the lowest on are 1.
#[inline(always)]
fn ones(word: u64) -> usize
    ensures few { result ≤ 64 }
    ensures ones { (k : ℕ) → k < result → bit_at word k ≡ 1 }
    ensures stops { result < 64 → bit_at word result ≡ 0 }
{
    word.trailing_ones() as usize
}

/// How many bits from the lowest on are 0.
#[inline(always)]
fn zeros(word: u64) -> usize
    ensures few { result ≤ 64 }
    ensures zeros { (k : ℕ) → k < result → bit_at word k ≡ 0 }
    ensures stops { result < 64 → bit_at word result ≡ 1 }
{
    word.trailing_zeros() as usize
}
