//! Writing numbers, the highest or the lowest byte first.

ghost use Rattle.std.specs.Prelude.{◌≡◌, ◌++◌, OnOk, OnErr};
ghost use Rattle.byteorder.specs.Endian.{big_bytes, little_bytes};
ghost use Rattle.wire_num.specs.Written.{AppendsFront};

use crate::OutOfMemory;
use byteorder::{BigEndian, ByteOrder, LittleEndian};

/// Writes two bytes at the end, the highest first. An `Err` leaves a front of them there.
pub fn put_u16_be(out: &mut Vec<u8>, n: u16) -> Result<(), OutOfMemory>
    ensures ok { OnOk result (out.new.items ≡ out.old.items ++ big_bytes 2 n) }
    ensures memory { OnErr result (AppendsFront out.old.items (big_bytes 2 n) out.new.items) }
{
    let mut bytes = [0; 2];
    BigEndian::write_u16(&mut bytes, n);
    out.extend_from_slice(&bytes)?;
    Ok(())
}

/// Writes two bytes at the end, the lowest first. An `Err` leaves a front of them there.
pub fn put_u16_le(out: &mut Vec<u8>, n: u16) -> Result<(), OutOfMemory>
    ensures ok { OnOk result (out.new.items ≡ out.old.items ++ little_bytes 2 n) }
    ensures memory { OnErr result (AppendsFront out.old.items (little_bytes 2 n) out.new.items) }
{
    let mut bytes = [0; 2];
    LittleEndian::write_u16(&mut bytes, n);
    out.extend_from_slice(&bytes)?;
    Ok(())
}

/// Writes four bytes at the end, the lowest first. An `Err` leaves a front of them there.
pub fn put_u32_le(out: &mut Vec<u8>, n: u32) -> Result<(), OutOfMemory>
    ensures ok { OnOk result (out.new.items ≡ out.old.items ++ little_bytes 4 n) }
    ensures memory { OnErr result (AppendsFront out.old.items (little_bytes 4 n) out.new.items) }
{
    let mut bytes = [0; 4];
    LittleEndian::write_u32(&mut bytes, n);
    out.extend_from_slice(&bytes)?;
    Ok(())
}
