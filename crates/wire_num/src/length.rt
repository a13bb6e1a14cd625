//! Writing lengths, each in its shortest form (X.691, 10.9; X.690, 8.1.3).

ghost use Rattle.std.specs.Prelude.{◌≡◌, ◌≤◌, ◌++◌, OnOk, OnErr};
ghost use Rattle.wire_num.specs.Length.{per_len_of, ber_len_of};
ghost use Rattle.wire_num.specs.Written.{AppendsFront};

use crate::OutOfMemory;
use byteorder::{BigEndian, ByteOrder};

/// The least length that takes more than one byte.
const LONG: u16 = 0x80;
/// The top bits of a packed length of two bytes (X.691, 10.9.3.7).
const PACKED_LONG: u16 = 0x8000;
/// Before a basic length of one more byte (X.690, 8.1.3.5).
const ONE_MORE: u8 = 0x81;
/// Before a basic length of two more bytes.
const TWO_MORE: u8 = 0x82;

/// Writes a length of the packed encoding rules at the end (X.691, 10.9). An `Err` leaves a front of it there.
pub fn put_per_len(out: &mut Vec<u8>, n: u16) -> Result<(), OutOfMemory>
    requires { n ≤ 16383 }
    ensures ok { OnOk result (out.new.items ≡ out.old.items ++ per_len_of n) }
    ensures memory { OnErr result (AppendsFront out.old.items (per_len_of n) out.new.items) }
{
    if n < LONG {
        out.push(n as u8)?;
    } else {
        let mut bytes = [0; 2];
        BigEndian::write_u16(&mut bytes, PACKED_LONG + n);
        out.extend_from_slice(&bytes)?;
    }
    Ok(())
}

/// Writes a length of the basic encoding rules at the end (X.690, 8.1.3). An `Err` leaves a front of it there.
pub fn put_ber_len(out: &mut Vec<u8>, n: u16) -> Result<(), OutOfMemory>
    ensures ok { OnOk result (out.new.items ≡ out.old.items ++ ber_len_of n) }
    ensures memory { OnErr result (AppendsFront out.old.items (ber_len_of n) out.new.items) }
{
    if n < LONG {
        out.push(n as u8)?;
    } else if n <= 0xFF {
        out.extend_from_slice(&[ONE_MORE, n as u8])?;
    } else {
        let mut bytes = [TWO_MORE, 0, 0];
        BigEndian::write_u16(&mut bytes[1..], n);
        out.extend_from_slice(&bytes)?;
    }
    Ok(())
}
