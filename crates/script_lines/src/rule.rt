//! The rules of a script's lines, the least first (profile).
ghost use Rattle.std.specs.Prelude.{◌≡◌, ◌≤◌};
ghost use Rattle.script_lines.specs.Lines.{number_of_rule};

/// A rule that a line breaks. A line that breaks several is refused by the least.
#[derive(Clone, Copy, Debug, PartialEq, Eq)]
pub enum LineRule {
    /// The first line is a session's size.
    Size,
    /// A line has at most 32,768 bytes, is ASCII, is ended by a line feed, and lies within the script's first 268,435,456 bytes.
    Text,
    /// It is one of the forms.
    Form,
    /// No invite stands after a step.
    Order,
    /// A name keeps its rule and is invited once, by at most 64 rows.
    Name,
    /// Preset words are known.
    Preset,
    /// The viewer is present.
    Presence,
}

impl LineRule {
    /// The rule's number, from 1, as captures name it.
    pub fn number(self) -> u8
        ensures value { result ≡ number_of_rule self }
        ensures range { result ≤ 7 }
    {
        match self {
            LineRule::Size => 1,
            LineRule::Text => 2,
            LineRule::Form => 3,
            LineRule::Order => 4,
            LineRule::Name => 5,
            LineRule::Preset => 6,
            LineRule::Presence => 7,
        }
    }
}
