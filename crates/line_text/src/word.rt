ghost use Rattle.std.specs.Prelude.{◌≡◌, ◌==◌, position};
ghost use Rattle.line_text.specs.Words.{is_same_word};

/// Whether two words are the same.
pub fn is_same_word(word: &[u8], other: &[u8]) -> bool
    ensures { result ≡ is_same_word word.now other.now }
{
    word == other
}

/// Where a byte first stands in a text.
pub fn find_byte(text: &[u8], byte: u8) -> Option<usize>
    ensures { result ≡ position (λ b. b == byte) text.now }
{
    text.iter().position(|b| *b == byte)
}
