//! Bytes in two parts, written at the end.

ghost use Rattle.std.specs.Prelude.{◌≡◌, ◌++◌, OnOk, OnErr};
ghost use Rattle.wire_num.specs.Written.{AppendsFront};

use crate::OutOfMemory;

/// Writes a head and what stands behind it at the end. An `Err` leaves a front of them there.
pub fn put_both(out: &mut Vec<u8>, head: &[u8], behind: &[u8]) -> Result<(), OutOfMemory>
    ensures ok { OnOk result (out.new.items ≡ out.old.items ++ (head.now ++ behind.now)) }
    ensures memory { OnErr result (AppendsFront out.old.items (head.now ++ behind.now) out.new.items) }
{
    out.extend_from_slice(head)?;
    out.extend_from_slice(behind)?;
    Ok(())
}
