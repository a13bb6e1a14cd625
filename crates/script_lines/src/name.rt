//! Names, as rows and joins have them (profile): 1 to 64 ASCII letters, digits, `.`, `_` or `-`, and no `-` first.
ghost use Rattle.std.specs.Prelude.{◌≡◌};
ghost use Rattle.script_rules.specs.Script.{is_name, is_name_byte, all_bytes};

/// The most bytes of a name (profile).
const NAME_LIMIT: usize = 64;

/// Whether a word is a name.
pub fn is_name(word: &[u8]) -> bool
    ensures { result ≡ is_name word.now }
{
    match word {
        [] | [b'-', ..] => false,
        _ => word.len() <= NAME_LIMIT && are_name_bytes(word),
    }
}

/// Whether each byte may stand in a name.
fn are_name_bytes(word: &[u8]) -> bool
    ensures { result ≡ all_bytes is_name_byte word.now }
{
    for byte in word {
        if !is_name_byte(*byte) {
            return false;
        }
    }
    true
}

/// Whether a byte may stand in a name.
fn is_name_byte(byte: u8) -> bool
    ensures { result ≡ is_name_byte byte }
{
    byte.is_ascii_alphanumeric() || matches!(byte, b'.' | b'_' | b'-')
}
