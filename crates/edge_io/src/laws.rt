//! Laws of lines that are handed out over several calls, each as the contract of a function that does nothing.

ghost use Rattle.std.specs.Prelude.{ℕ, ◌++◌, List};
ghost use Rattle.std.specs.Io.KnownBytes.{Keeps, IsAtEnd};
ghost use Rattle.std.specs.declared.option.Option.{Option};
ghost use Rattle.line_text.specs.Lines.{Line};
ghost use Rattle.edge_io.specs.Reading.{HandsOut, AreAllLines};

/// Lines that were handed out, and then more, are lines that were handed out.
pub fn lines_add_up()
    ensures { (before between now : Option (List ℕ)) (lines more : List Line) → HandsOut before between lines → HandsOut between now more
        → HandsOut before now (lines ++ more) }
{}

/// A call that hands out nothing keeps the lines that were handed out.
pub fn lines_stay()
    ensures { (before between now : Option (List ℕ)) (lines : List Line) → HandsOut before between lines → Keeps between now → HandsOut before now lines }
{}

/// Where nothing is left the lines that were handed out are all lines of the source's bytes.
pub fn lines_are_all()
    ensures { (before now : Option (List ℕ)) (lines : List Line) → HandsOut before now lines → IsAtEnd now → AreAllLines before lines }
{}
