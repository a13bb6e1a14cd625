//! The session host once more, for a second stored run: a script of which a line breaks a rule, so that it ends with status 3.
#![tactic(auto)]

use host_program::{Ending, run_host};

fn main(rt: HostRuntime) -> Ending {
    run_host(&rt)
}
