//! How the program ends.

ghost use Rattle.std.specs.Prelude.{◌≡◌, ℕ, Some, None, map, string_bytes, IfSome, IsNone};
ghost use Rattle.std.specs.Process.{exit_status};
ghost use Rattle.command_words.specs.ViewWords.{ViewingOf, view_of_words};
ghost use Rattle.edge_io.specs.Outside.{output_of};
ghost use Rattle.look_net.specs.Views.{dial_state, Views, WritesUsage};

use command_words::status::OUT_OF_MEMORY;
use edge_io::{Dial, Sink};
use look_net::view_top;
use std::alloc::Global;
use std::io::Eprint;
use std::marker::Model;
use std::process::{ExitCode, Termination};
use std::sync::Wait;

/// How a run ended: its exit status. Only a run makes one, or want of memory before it, so `main`, which gives one back, has no other
/// status to give.
#[derive(Drop)]
pub(crate) struct Ending {
    status: u8,
}

impl Model for Ending {
    ghost use Rattle.std.specs.Prelude.{ℕ};

    ghost Value = { ℕ };

    ghost view = { λ e. e.status };
}

impl Ending {
    /// The end where memory was wanting before there was a run.
    pub(crate) fn out_of_memory() -> Ending
        ensures { result ≡ 6 }
    {
        Ending {
            status: OUT_OF_MEMORY,
        }
    }

    /// Runs the whole program over its words, as `view_top` does; where memory was wanting for them there are none, and it does nothing more.
    pub(crate) fn of_run<R: Wait, D: Dial, K: Sink>(
        rt: &R,
        alloc: Global,
        words: Option<Vec<String>>,
        dial: &mut D,
        output: &mut K,
    ) -> Ending
        ensures view { IfSome words (λ ws. (v : ViewingOf) → view_of_words (map string_bytes ws.items) ≡ Some v → Views result v
            (dial_state D.Dial D.Link.Link dial.old) (dial_state D.Dial D.Link.Link dial.new)
            (output_of K.Sink output.old) (output_of K.Sink output.new)) }
        ensures usage { IfSome words (λ ws. view_of_words (map string_bytes ws.items) ≡ None → WritesUsage result
            (output_of K.Sink output.old) (output_of K.Sink output.new)) }
        ensures memory { IsNone words → result ≡ 6 }
        ensures nothing { IsNone words → (dial.new ≡ dial.old) × (output.new ≡ output.old) }
        ensures dial { IfSome words (λ ws. view_of_words (map string_bytes ws.items) ≡ None → dial.new ≡ dial.old) }
    {
        match words {
            Some(words) => Ending {
                status: view_top(rt, alloc, &words, dial, output),
            },
            None => Ending::out_of_memory(),
        }
    }
}

impl Termination for Ending {
    fn report<R: Eprint>(self, _rt: &R) -> ExitCode
        ensures { exit_status result ≡ self }
    {
        ExitCode::from(self.status)
    }
}
