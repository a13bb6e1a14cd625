//! The first words of the forms of steps.
ghost use Rattle.std.specs.Prelude.{◌≡◌, find};
ghost use Rattle.line_text.specs.Words.{is_same_word};
ghost use Rattle.script_lines.specs.Keywords.{text_of, keywords};

use line_text::is_same_word;

/// The first word of a step's form.
#[derive(Clone, Copy, Debug, PartialEq, Eq)]
pub(crate) enum Keyword {
    Leave,
    Take,
    Suppress,
    Allow,
    Refresh,
    Key,
    Char,
    Mouse,
    Fill,
    Dst,
    Pat,
    Copy,
    Blit,
    Blit3,
    Text,
    Line,
    Save,
    Restore,
    Image,
    Brush,
    Glyph,
}

/// All of them.
const KEYWORDS: [Keyword; 21] = [
    Keyword::Leave,
    Keyword::Take,
    Keyword::Suppress,
    Keyword::Allow,
    Keyword::Refresh,
    Keyword::Key,
    Keyword::Char,
    Keyword::Mouse,
    Keyword::Fill,
    Keyword::Dst,
    Keyword::Pat,
    Keyword::Copy,
    Keyword::Blit,
    Keyword::Blit3,
    Keyword::Text,
    Keyword::Line,
    Keyword::Save,
    Keyword::Restore,
    Keyword::Image,
    Keyword::Brush,
    Keyword::Glyph,
];

/// The one that is tried first, since most lines of a long script are fills.
const COMMON: Keyword = Keyword::Fill;

/// The keyword that a word is.
pub(crate) fn keyword_of(word: &[u8]) -> Option<Keyword>
    ensures { result ≡ find (λ k. is_same_word word.now (text_of k)) keywords }
{
    if is_same_word(word, text_of(COMMON)) {
        return Some(COMMON);
    }
    KEYWORDS
        .iter()
        .copied()
        .find(|keyword| is_same_word(word, text_of(*keyword)))
}

/// A keyword as it is written.
fn text_of(keyword: Keyword) -> &'static [u8]
    ensures { result.now ≡ text_of keyword }
{
    match keyword {
        Keyword::Leave => b"leave",
        Keyword::Take => b"take",
        Keyword::Suppress => b"suppress",
        Keyword::Allow => b"allow",
        Keyword::Refresh => b"refresh",
        Keyword::Key => b"key",
        Keyword::Char => b"char",
        Keyword::Mouse => b"mouse",
        Keyword::Fill => b"fill",
        Keyword::Dst => b"dst",
        Keyword::Pat => b"pat",
        Keyword::Copy => b"copy",
        Keyword::Blit => b"blit",
        Keyword::Blit3 => b"blit3",
        Keyword::Text => b"text",
        Keyword::Line => b"line",
        Keyword::Save => b"save",
        Keyword::Restore => b"restore",
        Keyword::Image => b"image",
        Keyword::Brush => b"brush",
        Keyword::Glyph => b"glyph",
    }
}
