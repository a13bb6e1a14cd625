//! Parts of a body.

ghost use Rattle.std.specs.Prelude.{◌≡◌, ◌≤◌, drop, length};
ghost use Rattle.order_read.specs.Told.{part_of};

use wire_num::Range;

/// The bytes from an offset on; past the end there are none.
pub(crate) fn behind(body: &[u8], from: usize) -> &[u8]
    ensures value { result.now ≡ drop from body.now }
    ensures most { length result.now ≤ length body.now }
{
    &body[from.min(body.len())..]
}

/// A part of a body, as far as it lies there.
pub(crate) fn part(body: &[u8], at: Range) -> &[u8]
    ensures { result.now ≡ part_of body.now at }
{
    let rest = behind(body, at.from);
    let count = at.to.saturating_sub(at.from);
    &rest[..count.min(rest.len())]
}
