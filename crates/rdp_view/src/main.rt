//! The network viewer: `rdp_view PORT NAME MARKS PRESET ..` joins the session of a host on this machine, watches it until there are so many
//! marks, leaves, and writes the picture at the last of them, or why there is none.
#![tactic(auto)]

mod ending;
mod entry;

use ending::Ending;
use entry::run_view;
pub use look_net::view_top;

fn main(rt: HostRuntime) -> Ending {
    run_view(&rt)
}
