//! Names of rows (profile): 1 to 64 ASCII letters, digits, `.`, `_` or `-`, and no `-` first.

ghost use Rattle.std.specs.Prelude.{◌≡◌};
ghost use Rattle.script_rules.specs.Script.{is_name, is_name_byte, all_bytes};

/// The most bytes of a name (profile).
pub const NAME_LIMIT: u8 = 64;

/// Whether these bytes are a name.
pub fn is_name(bytes: &[u8]) -> bool
    ensures { result ≡ is_name bytes.now }
{
    match bytes {
        [] | [b'-', ..] => false,
        _ => bytes.len() <= usize::from(NAME_LIMIT) && are_name_bytes(bytes),
    }
}

/// Whether each byte may stand in a name.
fn are_name_bytes(bytes: &[u8]) -> bool
    ensures { result ≡ all_bytes is_name_byte bytes.now }
{
    for byte in bytes {
        if !is_name_byte(*byte) {
            return false;
        }
    }
    true
}

/// Whether a byte may stand in a name.
fn is_name_byte(byte: u8) -> bool
    ensures { result ≡ is_name_byte byte }
{
    byte.is_ascii_alphanumeric() || matches!(byte, b'.' | b'_' | b'-')
}
