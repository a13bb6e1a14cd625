ghost use Rattle.std.specs.Prelude.{◌≡◌, ◌<◌};
ghost use Rattle.order_fields.specs.OrderStream.{has_bit};

/// Whether the bit of that weight is set.
pub fn has_bit(byte: u8, weight: u8) -> bool
    requires { 0 < weight }
    ensures { result ≡ has_bit byte weight }
{
    byte / weight % 2 == 1
}
