//! What a viewer is shown: `rdp_look V` reads a capture and writes the picture at viewer V's last mark, or why there is none.
#![tactic(auto)]

pub use look_program::look_top;
use look_program::{Ending, run_look};

fn main(rt: HostRuntime) -> Ending {
    run_look(&rt)
}
