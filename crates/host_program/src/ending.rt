//! How the program ends.

ghost use Rattle.std.specs.Prelude.{◌≡◌, [], Some, None, false, map, string_bytes, IfSome, IsNone};
ghost use Rattle.std.specs.Process.{exit_status};
ghost use Rattle.edge_io.specs.Outside.{output_of, outside_of};
ghost use Rattle.gate_run.specs.Gates.{gate_state};
ghost use Rattle.host_program.specs.declared.mode.Mode.{Mode};
ghost use Rattle.host_program.specs.Mode.{mode_of, reads_if, opens_if};
ghost use Rattle.host_program.specs.Top.{RunsMode, WritesUsage};

use crate::host::top;
use command_words::status::OUT_OF_MEMORY;
use edge_io::{Gate, Sink, Source};
use std::alloc::Global;
use std::io::Eprint;
use std::marker::Model;
use std::process::{ExitCode, Termination};
use std::sync::Wait;
use std::thread::Threads;

/// How a run ended: its exit status. Only a run makes one, or want of memory before it, so `main`, which gives one back, has no other
/// status to give.
#[derive(Drop)]
pub struct Ending {
    status: u8,
}

impl Model for Ending {
    ghost use Rattle.std.specs.Prelude.{ℕ};

    ghost Value = { ℕ };

    ghost view = { λ e. e.status };
}

impl Ending {
    /// The end where memory was wanting before there was a run.
    pub fn out_of_memory() -> Ending
        ensures { result ≡ 6 }
    {
        Ending {
            status: OUT_OF_MEMORY,
        }
    }

    /// Runs the whole program over its words, as `top` does; where memory was wanting for them there are none, and it does nothing more.
    pub fn of_run<R: Threads + Wait + Sync, S: Source, K: Sink, G: Gate>(
        rt: &R,
        alloc: Global,
        words: Option<Vec<String>>,
        input: &mut S,
        output: &mut K,
        gate: &mut G,
    ) -> Ending
        requires unused { G.given gate.old ≡ [] }
        requires open { G.ended gate.old ≡ false }
        ensures mode { IfSome words (λ ws. (mode : Mode) → mode_of (map string_bytes ws.items) ≡ Some mode → RunsMode mode result
            (outside_of S.Source K.Sink input.old output.old) (outside_of S.Source K.Sink input.new output.new)
            (gate_state G.Gate G.Link.Link gate.old) (gate_state G.Gate G.Link.Link gate.new)) }
        ensures usage { IfSome words (λ ws. mode_of (map string_bytes ws.items) ≡ None
            → WritesUsage result (output_of K.Sink output.old) (output_of K.Sink output.new)) }
        ensures memory { IsNone words → result ≡ 6 }
        ensures nothing { IsNone words → (input.new ≡ input.old) × (output.new ≡ output.old) × (gate.new ≡ gate.old) }
        ensures input { IfSome words (λ ws. reads_if (mode_of (map string_bytes ws.items)) ≡ false → input.new ≡ input.old) }
        ensures gate { IfSome words (λ ws. opens_if (mode_of (map string_bytes ws.items)) ≡ false → gate.new ≡ gate.old) }
    {
        match words {
            Some(words) => Ending {
                status: top(rt, alloc, &words, input, output, gate),
            },
            None => Ending::out_of_memory(),
        }
    }
}

impl Termination for Ending {
    fn report<R: Eprint>(self, _rt: &R) -> ExitCode
        ensures { exit_status result ≡ self }
    {
        ExitCode::from(self.status)
    }
}
