ghost use Rattle.std.specs.Prelude.{◌≡◌, true, ◌-ℤ◌};
ghost use Rattle.wire_num.specs.Number.{unsigned};
ghost use Rattle.order_fields.specs.OrderTable.{fits_coordinate};
ghost use Rattle.order_fields.specs.OrderDelta.{is_byte};

/// The byte that stands for a signed number.
fn signed_byte(number: i64) -> u64
    requires { is_byte number ≡ true }
    ensures { result ≡ unsigned 1 number }
{
    let unsigned = if number < 0 { number + 0x100 } else { number };
    unsigned as u64
}

/// The number of two bytes that stands for a signed one.
pub fn signed_two_bytes(number: i64) -> u64
    requires { fits_coordinate number ≡ true }
    ensures { result ≡ unsigned 2 number }
{
    let unsigned = if number < 0 {
        number + 0x1_0000
    } else {
        number
    };
    unsigned as u64
}

/// The byte that stands for the difference from the last value.
pub fn difference_byte(last: i64, value: i64) -> u64
    requires last { fits_coordinate last ≡ true }
    requires value { fits_coordinate value ≡ true }
    requires near { is_byte (value -ℤ last) ≡ true }
    ensures { result ≡ unsigned 1 (value -ℤ last) }
{
    signed_byte(value - last)
}
