//! How the program ends.

ghost use Rattle.std.specs.Prelude.{◌≡◌, ℕ, Some, None, map, string_bytes, IfSome, IsNone};
ghost use Rattle.std.specs.Process.{exit_status};
ghost use Rattle.edge_io.specs.Outside.{output_of, outside_of};
ghost use Rattle.command_words.specs.LookWords.{viewer_of_words};
ghost use Rattle.look_program.specs.Look.{LooksAt, WritesUsage};

use crate::top::look_top;
use command_words::status::OUT_OF_MEMORY;
use edge_io::{Sink, Source};
use std::alloc::Global;
use std::io::Eprint;
use std::marker::Model;
use std::process::{ExitCode, Termination};
use std::sync::Wait;

/// How a run ended: its exit status. Only a run makes one, so `main`, which gives one back, has no other status to give.
#[derive(Drop)]
pub struct Ending {
    status: u8,
}

impl Model for Ending {
    ghost use Rattle.std.specs.Prelude.{ℕ};

    ghost Value = { ℕ };

    ghost view = { λ e. e.status };
}

impl Ending {
    /// Runs the whole program over its words, as `look_top` does; where memory was wanting for them there are none, and it does nothing more.
    pub fn of_run<R: Wait, S: Source, K: Sink>(
        rt: &R,
        alloc: Global,
        words: Option<Vec<String>>,
        input: &mut S,
        output: &mut K,
    ) -> Ending
        ensures look { IfSome words (λ ws. (viewer : ℕ) → viewer_of_words (map string_bytes ws.items) ≡ Some viewer → LooksAt result viewer
            (outside_of S.Source K.Sink input.old output.old)
            (outside_of S.Source K.Sink input.new output.new)) }
        ensures usage { IfSome words (λ ws. viewer_of_words (map string_bytes ws.items) ≡ None
            → WritesUsage result (output_of K.Sink output.old) (output_of K.Sink output.new)) }
        ensures memory { IsNone words → result ≡ 6 }
        ensures nothing { IsNone words → (input.new ≡ input.old) × (output.new ≡ output.old) }
    {
        match words {
            Some(words) => Ending {
                status: look_top(rt, alloc, &words, input, output),
            },
            None => Ending {
                status: OUT_OF_MEMORY,
            },
        }
    }
}

impl Termination for Ending {
    fn report<R: Eprint>(self, _rt: &R) -> ExitCode
        ensures { exit_status result ≡ self }
    {
        ExitCode::from(self.status)
    }
}
