ghost use Rattle.std.specs.Prelude.{◌≡◌};
ghost use Rattle.std.specs.declared.option.Option.TheVariants.{None};

use crate::{Sink, Wrote};
use std::io;
use std::io::{Printer, Write};

/// Standard output as a sink. It tells no content.
#[derive(Drop)]
pub struct FileOut<O: Write + Drop> {
    file: O,
    faults: u64,
}

impl<'a, R: Print> FileOut<Printer<'a, R>> {
    /// The runtime's standard output.
    pub fn new(rt: &'a R) -> FileOut<Printer<'a, R>>
        ensures { ⟦<FileOut<Printer<'a, R>> as Sink>⟧.faults result ≡ 0 }
    {
        FileOut {
            file: io::writer(rt),
            faults: 0,
        }
    }
}

impl<O: Write + Drop> Sink for FileOut<O> {
    ghost told = { λ _. None };

    ghost faults = { λ s. s.faults };

    fn write_all(&mut self, bytes: &[u8]) -> Wrote {
        match self.file.write_all(bytes) {
            Ok(()) => Wrote::All,
            Err(_) => {
                self.faults = self.faults.saturating_add(1);
                Wrote::Failed
            }
        }
    }
}
