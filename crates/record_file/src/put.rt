//! Fields that are gathered, and what is written at the end of a record.

ghost use Rattle.std.specs.Prelude.{◌≡◌, ◌+◌, ◌*◌, ◌++◌, ◌≤◌, ◌∷◌, [], length, OnOk, OnErr, IsTrue};
ghost use Rattle.byteorder.specs.Endian.{big_bytes};
ghost use Rattle.wire_num.specs.Number.{unsigned};
ghost use Rattle.wire_num.specs.Written.{AppendsFront};
ghost use Rattle.record_rules.specs.Fields.{field_bytes, fields_bytes, colors_bytes, pairs_bytes, is_in_place, are_in_place, is_i8, is_i16};

use crate::OutOfMemory;
use crate::gathered::Gathered;
use record_rules::Field;

/// The byte of a signed number.
fn signed_byte(z: i32) -> u8
    requires { IsTrue (is_i8 z) }
    ensures { result ≡ unsigned 1 z }
{
    let number = if z < 0 { z + 0x100 } else { z };
    number as u8
}

/// The two bytes of a signed number, as a number.
fn signed_short(z: i32) -> u16
    requires { IsTrue (is_i16 z) }
    ensures { result ≡ unsigned 2 z }
{
    let number = if z < 0 { z + 0x1_0000 } else { z };
    number as u16
}

/// The three bytes of a colour: red, green, blue.
fn color_bytes(color: u32) -> [u8; 3]
    ensures { result ≡ big_bytes 3 color }
{
    let [_, red, green, blue] = color.to_be_bytes();
    [red, green, blue]
}

/// Puts a field behind the others.
fn put_field(out: &mut Gathered, field: Field)
    requires place { IsTrue (is_in_place field) }
    requires room { length out.old ≤ 68 }
    ensures field { out.new ≡ out.old ++ field_bytes field }
    ensures size { length out.new ≤ length out.old + 4 }
{
    match field {
        Field::Byte(n) => out.put(&[n as u8]),
        Field::Short(n) => out.put(&(n as u16).to_le_bytes()),
        Field::Long(n) => out.put(&n.to_le_bytes()),
        Field::SignedByte(z) => out.put(&[signed_byte(z)]),
        Field::SignedShort(z) => out.put(&signed_short(z).to_le_bytes()),
        Field::Color(color) => out.put(&color_bytes(color)),
    }
}

/// Puts fields behind the others, one after the other.
pub fn put_fields(out: &mut Gathered, fields: &[Field])
    requires place { IsTrue (are_in_place fields.now) }
    requires room { length out.old + 4 * length fields.now ≤ 72 }
    ensures fields { out.new ≡ out.old ++ fields_bytes fields.now }
    ensures size { length out.new ≤ length out.old + 4 * length fields.now }
{
    for field in fields {
        put_field(out, *field);
    }
}

/// Writes a colour at the end. An `Err` leaves a front of it there.
fn put_color(out: &mut Vec<u8>, color: u32) -> Result<(), OutOfMemory>
    ensures ok { OnOk result (out.new.items ≡ out.old.items ++ big_bytes 3 color) }
    ensures memory { OnErr result (AppendsFront out.old.items (big_bytes 3 color) out.new.items) }
{
    out.extend_from_slice(&color_bytes(color))?;
    Ok(())
}

/// Writes colours at the end, one after the other. An `Err` leaves a front of them there.
pub fn put_colors(out: &mut Vec<u8>, colors: &[u32]) -> Result<(), OutOfMemory>
    ensures ok { OnOk result (out.new.items ≡ out.old.items ++ colors_bytes colors.now) }
    ensures memory { OnErr result (AppendsFront out.old.items (colors_bytes colors.now) out.new.items) }
{
    for color in colors {
        put_color(out, *color)?;
    }
    Ok(())
}

/// Writes a pair at the end: code, delta. An `Err` leaves a front of it there.
fn put_pair(out: &mut Vec<u8>, pair: (u8, u8)) -> Result<(), OutOfMemory>
    ensures ok { OnOk result (out.new.items ≡ out.old.items ++ pair.0 ∷ pair.1 ∷ []) }
    ensures memory { OnErr result (AppendsFront out.old.items (pair.0 ∷ pair.1 ∷ []) out.new.items) }
{
    out.extend_from_slice(&[pair.0, pair.1])?;
    Ok(())
}

/// Writes the pairs of a run at the end. An `Err` leaves a front of them there.
pub fn put_pairs(out: &mut Vec<u8>, pairs: &[(u8, u8)]) -> Result<(), OutOfMemory>
    ensures ok { OnOk result (out.new.items ≡ out.old.items ++ pairs_bytes pairs.now) }
    ensures memory { OnErr result (AppendsFront out.old.items (pairs_bytes pairs.now) out.new.items) }
{
    for pair in pairs {
        put_pair(out, *pair)?;
    }
    Ok(())
}

/// Writes bytes at the end as they are. An `Err` leaves a front of them there.
pub fn put_bytes(out: &mut Vec<u8>, bytes: &[u8]) -> Result<(), OutOfMemory>
    ensures ok { OnOk result (out.new.items ≡ out.old.items ++ bytes.now) }
    ensures memory { OnErr result (AppendsFront out.old.items bytes.now out.new.items) }
{
    out.extend_from_slice(bytes)?;
    Ok(())
}
