//! What a viewer is shown once more, for a second stored run: a capture in which no line joins the viewer, so that it ends with status 3.
#![tactic(auto)]

use look_program::{Ending, run_look};

fn main(rt: HostRuntime) -> Ending {
    run_look(&rt)
}
