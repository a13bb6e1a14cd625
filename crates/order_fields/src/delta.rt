ghost use Rattle.std.specs.Prelude.{◌≡◌, ◌≤◌, ◌||◌, true, ◌-ℤ◌};
ghost use Rattle.std.specs.Ordering.{int_eq};
ghost use Rattle.order_fields.specs.OrderTable.{fits_coordinate};
ghost use Rattle.order_fields.specs.OrderDelta.{is_byte as byte_difference, flag as flag_of, shown as shown_of, same_list};

use crate::FieldKind;

/// Whether two values of two bytes differ by a signed byte.
pub fn is_byte_apart(last: i64, value: i64) -> bool
    requires last { fits_coordinate last ≡ true }
    requires value { fits_coordinate value ≡ true }
    ensures { result ≡ byte_difference (value -ℤ last) }
{
    (-128..=127).contains(&(value - last))
}

/// The flag of a field: 1 where its value differs from the last one.
pub fn changed_flag(last: i64, value: i64) -> u32
    ensures flag { result ≡ flag_of (int_eq last value) }
    ensures bit { result ≤ 1 }
{
    u32::from(last != value)
}

/// Whether one of two holds.
pub fn either(first: bool, second: bool) -> bool
    ensures { result ≡ (first || second) }
{
    first || second
}

/// What the fields of an order come to against their last values.
#[derive(Clone, Copy)]
pub struct Changes {
    /// The flags of the fields, the first the lowest, and above them that of the counted bytes.
    pub flags: u32,
    /// Whether the order is written in the delta form.
    pub delta: bool,
}

/// How many flag bytes stand there: all but the zero bytes at the end.
pub fn shown(flags: u32) -> u8
    ensures shown { result ≡ shown_of flags }
    ensures few { result ≤ 3 }
{
    match flags {
        0 => 0,
        0x1..=0xFF => 1,
        0x100..=0xFFFF => 2,
        _ => 3,
    }
}

/// Whether two runs of bytes are equal.
pub fn are_equal(last: &[u8], bytes: &[u8]) -> bool
    ensures { result ≡ same_list last.now bytes.now }
{
    last == bytes
}
