//! What a row runs.

use crate::ending::{Ending, answer_ending, replay_ending, script_ending, show_ending};
use answer_run::run_answer;
use capture_show::show_capture;
use demo_run::run_demo;
use edge_io::{PlanSink, PlanSource};
use info_lic::Name;
use px_core::{Size, is_session_size};
use record_run::{record_script, replay_record};
use script_lines::is_name;
use script_run::run_script;
use std::alloc::Global;
use std::sync::Wait;

/// What a row runs.
#[derive(Clone, Copy, Drop)]
pub enum Job<'a> {
    /// A script.
    Script,
    /// The service of a client, in a session with a picture of this size and this owner.
    Stream { size: Size, owner: &'a str },
    /// The showing of a capture to a viewer.
    Look { viewer: u16 },
    /// The demonstration load.
    Demo { seed: u64, steps: u32 },
    /// The recording of a script.
    Record,
    /// The replay of a record, with the picture after so many entries.
    Replay { stop: u64 },
}

/// Does a job.
pub fn run<R: Wait>(
    rt: &R,
    alloc: Global,
    job: &Job<'_>,
    input: &mut PlanSource,
    output: &mut PlanSink,
) -> Ending {
    match *job {
        Job::Script => script_ending(run_script(alloc, input, output)),
        Job::Stream { size, owner } => serve(alloc, size, owner.as_bytes(), input, output),
        Job::Look { viewer } => show_ending(show_capture(rt, alloc, viewer, input, output)),
        Job::Demo { seed, steps } => script_ending(run_demo(alloc, seed, steps, output)),
        Job::Record => script_ending(record_script(alloc, input, output)),
        Job::Replay { stop } => replay_ending(replay_record(rt, alloc, stop, input, output)),
    }
}

/// Serves a client, where a session may have this size and this owner.
fn serve(
    alloc: Global,
    size: Size,
    owner: &[u8],
    input: &mut PlanSource,
    output: &mut PlanSink,
) -> Ending {
    if is_session_size(size.w, size.h) && is_name(owner) {
        let name = Name::new(owner);
        answer_ending(run_answer(alloc, size, &name, input, output))
    } else {
        Ending::NoSession
    }
}
