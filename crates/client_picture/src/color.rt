//! Colours.
ghost use Rattle.std.specs.Prelude.{◌≡◌, ◌+◌, ◌*◌, ◌%◌, ◌^◌, ◌<◌};

use std::marker::Model;

/// Colours are below this.
const COLORS: u32 = 0x100_0000;

/// A colour: `65536 * red + 256 * green + blue` or, of 16 bits, `2048 * red + 32 * green + blue`.
#[derive(Clone, Copy, Debug)]
pub struct Color {
    number: u32,
}

impl Model for Color {
    ghost use Rattle.std.specs.Prelude.{ℕ, ◌<◌, ◌^◌};

    ghost Value = { ℕ };

    ghost view = { λ s. s.number };

    ghost invariant = { λ s. s.number < 2 ^ 24 };

    ghost inverse = { λ color. record { number = color } };
}

impl Color {
    /// The colour of these parts.
    #[inline(always)]
    pub fn new(red: u8, green: u8, blue: u8) -> Color
        ensures { result ≡ 65536 * red + (256 * green + blue) }
    {
        Color {
            number: 65_536 * u32::from(red) + (256 * u32::from(green) + u32::from(blue)),
        }
    }

    /// The colour in the lower three bytes of a number.
    #[inline(always)]
    pub fn low(number: u32) -> Color
        ensures { result ≡ number % 2 ^ 24 }
    {
        Color {
            number: number % COLORS,
        }
    }

    /// As a number.
    #[inline(always)]
    pub fn number(self) -> u32
        ensures value { result ≡ self }
        ensures bound { result < 2 ^ 24 }
    {
        self.number
    }
}
