ghost use Rattle.std.specs.Prelude.{◌≡◌, true};
ghost use Rattle.order_fields.specs.OrderTable.{fits_coordinate};
ghost use Rattle.order_fields.specs.OrderDelta.{change};

use crate::delta::is_byte_apart;

/// How an edge stands in bounds.
#[derive(Clone, Copy)]
pub enum Change {
    /// It is the last one, and is omitted.
    Same,
    /// It differs from the last one by -128 to 127, and is one byte.
    Moved,
    /// It is two bytes.
    Anew,
}

/// How an edge stands after another.
pub fn change_of(last: i64, value: i64) -> Change
    requires last { fits_coordinate last ≡ true }
    requires value { fits_coordinate value ≡ true }
    ensures { result ≡ change last value }
{
    if last == value {
        Change::Same
    } else if is_byte_apart(last, value) {
        Change::Moved
    } else {
        Change::Anew
    }
}
