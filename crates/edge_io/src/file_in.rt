ghost use Rattle.std.specs.Prelude.{◌≡◌, false};
ghost use Rattle.std.specs.declared.option.Option.TheVariants.{None};

use crate::{Got, Source};
use std::io::Read;

/// Standard input as a source. It tells no content.
#[derive(Drop)]
pub struct FileIn<I: Read + Drop> {
    file: I,
    faults: u64,
}

impl<I: Read + Drop> FileIn<I> {
    /// The runtime's standard input.
    pub fn new<R: Input<Reader = I>>(rt: &R) -> FileIn<I>
        ensures { ⟦<FileIn<I> as Source>⟧.faults result ≡ 0 }
    {
        FileIn {
            file: rt.reader(),
            faults: 0,
        }
    }
}

impl<I: Read + Drop> Source for FileIn<I> {
    ghost left = { λ _. None };

    ghost faults = { λ s. s.faults };

    ghost limited = { λ _. false };

    fn read(&mut self, buf: &mut [u8]) -> Got {
        match self.file.read(buf) {
            Ok(0) => Got::End,
            Ok(count) => Got::Bytes(count),
            Err(_) => {
                self.faults = self.faults.saturating_add(1);
                Got::Failed
            }
        }
    }

    fn lift_limit(&mut self) {}
}
