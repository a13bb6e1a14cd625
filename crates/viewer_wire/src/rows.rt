//! Rows of a table that have one value each.

ghost use Rattle.std.specs.Prelude.{map};
ghost use Rattle.wire_num.specs.Cursor.{ReadsRows};
ghost use Rattle.viewer_wire.specs.Reads.{rows_of};

use wire_num::{Cursor, Short};

/// Reads fields, each of just these bytes. A field that differs is refused at its first byte.
pub(crate) fn expect_each(cursor: &mut Cursor<'_>, fields: &[&[u8]]) -> Result<(), Short>
    ensures { ReadsRows (rows_of (map (λ f. f.now) fields.now)) result cursor.old cursor.new }
{
    match fields {
        [] => Ok(()),
        [first, rest @ ..] => {
            cursor.expect(first)?;
            expect_each(cursor, rest)
        }
    }
}
