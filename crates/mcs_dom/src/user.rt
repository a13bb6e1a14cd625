//! User channels (T.125, 7, UserId): a number from 1001 on, written as what it is above 1001, in two bytes.

ghost use Rattle.std.specs.Prelude.{◌≡◌, ◌/◌, ◌%◌};

/// The least user channel.
pub const FIRST_USER: u16 = 1001;
/// The greatest number that stands for a user channel in two bytes.
pub const MOST_ABOVE: u16 = 65_535 - FIRST_USER;

/// The high byte of a number of two.
pub fn high(n: u16) -> u8
    ensures { result ≡ n / 256 % 256 }
{
    (n / 256) as u8
}

/// The low byte of a number of two.
pub fn low(n: u16) -> u8
    ensures { result ≡ n % 256 }
{
    (n % 256) as u8
}
