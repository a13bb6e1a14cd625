//! The session host: `rdp_host script` reads a script and writes the capture of what each viewer is sent, `rdp_host answer W H OWNER`
//! serves one client, `rdp_host demo SEED STEPS` runs the demonstration load and writes the line of its counts,
//! `rdp_host serve PORT W H LINKS OWNER GUEST ..` serves the clients that connect to a port and writes the line of each,
//! `rdp_host record` reads a script and writes its session's journal as a record, and `rdp_host replay N` reads a record and writes the
//! picture after N of its entries.
#![tactic(auto)]

pub use host_program::top;
use host_program::{Ending, run_host};

#[cfg(test)]
mod viewing;

fn main(rt: HostRuntime) -> Ending {
    run_host(&rt)
}
