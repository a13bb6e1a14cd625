ghost use Rattle.std.specs.Prelude.{◌≡◌, ℕ, List, Option};
ghost use Rattle.edge_io.specs.Reading.{new_reading};
ghost use Rattle.script_run.specs.Reading.{Opens, OpensCause, first_of, moment};
ghost use Rattle.script_run.specs.Writing.{Writing, IsWriting};

use edge_io::{Found, LineReader, Source};
use px_core::Size;
use script_lines::{LineRule, size_of_line};

/// What a script's first line gives.
#[derive(Clone, Copy, Debug, PartialEq, Eq)]
pub(crate) enum FirstLine {
    /// A size, and lines may follow.
    Sized(Size),
    /// It breaks this rule.
    Breaks(LineRule),
    /// It couldn't be read.
    Failed,
}

/// Reads a script's first line.
pub(crate) fn first_line<S: Source>(reader: &mut LineReader, input: &mut S) -> FirstLine
    requires { reader.old ≡ new_reading }
    // Whatever is written of the lines.
    ensures opens { (w : Writing) (told : Option (List ℕ)) → IsWriting w
        → Opens w result (moment reader.old (S.left input.old) told) (moment reader.new (S.left input.new) told) }
    ensures cause { OpensCause result (S.faults input.old) (S.faults input.new) }
{
    match reader.next_line(input) {
        Found::Line { ended } => sized(size_of_line(reader.text()), ended),
        Found::PastLimits | Found::End => FirstLine::Breaks(LineRule::Size),
        Found::Failed => FirstLine::Failed,
    }
}

/// What a first line gives of which a size was read, or none.
fn sized(size: Option<Size>, ended: bool) -> FirstLine
    ensures { result ≡ first_of size ended }
{
    match size {
        None => FirstLine::Breaks(LineRule::Size),
        Some(_) if !ended => FirstLine::Breaks(LineRule::Text),
        Some(size) => FirstLine::Sized(size),
    }
}
