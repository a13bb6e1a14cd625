//! Pixels that may be unknown.
ghost use Rattle.std.specs.Prelude.{◌≡◌, ◌^◌, ◌<◌, Some, None, IfSome};

use crate::Color;
use std::marker::Model;

/// The word of an unknown pixel: the first number that is no colour.
const UNKNOWN: u32 = 0x100_0000;

/// A colour, or unknown.
#[derive(Clone, Copy, Debug)]
pub struct Pixel {
    word: u32,
}

impl Model for Pixel {
    ghost use Rattle.std.specs.Prelude.{ℕ, Option, ◌^◌, ◌≤◌};
    ghost use Rattle.client_picture.specs.Words.{pixel_of, word_of};

    ghost Value = { Option ℕ };

    ghost view = { λ s. pixel_of s.word };

    ghost invariant = { λ s. s.word ≤ 2 ^ 24 };

    ghost inverse = { λ pixel. record { word = word_of pixel } };
}

impl Pixel {
    /// An unknown pixel.
    #[inline(always)]
    pub fn unknown() -> Pixel
        ensures { result ≡ None }
    {
        Pixel { word: UNKNOWN }
    }

    /// A pixel of this colour.
    #[inline(always)]
    pub fn known(color: Color) -> Pixel
        ensures { result ≡ Some color }
    {
        Pixel {
            word: color.number(),
        }
    }

    /// The colour; `None` where it is unknown.
    #[inline(always)]
    pub fn color(self) -> Option<u32>
        ensures value { result ≡ self }
        ensures bound { IfSome result (λ color. color < 2 ^ 24) }
    {
        if self.word == UNKNOWN {
            None
        } else {
            Some(self.word)
        }
    }
}
