ghost use Rattle.std.specs.Prelude.{◌≡◌, ◌==◌, ◌≤◌, ◌<◌, ◌-◌, length, take, drop, position, slice_range};
ghost use Rattle.edge_io.specs.Source.{FitsRoom, Takes, ReadCause};

use crate::{Got, Source};
use memchr::memchr;

/// Where a byte first stands in a text.
pub fn find_byte(text: &[u8], byte: u8) -> Option<usize>
    ensures { result ≡ position (λ b. b == byte) text.now }
{
    memchr(byte, text)
}

/// Moves a part of a buffer to its front.
pub fn move_to_front(buffer: &mut [u8], from: usize, to: usize)
    requires order { from ≤ to }
    requires inside { to ≤ length buffer.old }
    ensures { take (to - from) buffer.new ≡ slice_range buffer.old from to }
{
    buffer.copy_within(from..to, 0);
}

/// Reads bytes into the part of a buffer behind a place.
pub fn read_behind<S: Source>(input: &mut S, buffer: &mut [u8], to: usize) -> Got
    requires { to < length buffer.old }
    ensures count { FitsRoom result (length buffer.old - to) }
    ensures front { take to buffer.new ≡ take to buffer.old }
    ensures bytes { Takes (S.left input.old) (S.left input.new) result (drop to buffer.new) }
    ensures cause { ReadCause result (S.faults input.old) (S.faults input.new) }
{
    input.read(&mut buffer[to..])
}
