//! A viewer's half of a connection ([MS-RDPBCGR] 1.3.1.1): it answers a host's stream in any pieces, and shows what it is shown; and the
//! network viewer, which watches a host over a link that it dials, but for its `main`.
//!
//! What it answers, and where the stream is refused, stands in the definitions of `viewer_rules`.
#![tactic(auto)]

mod end;
mod host_turns;
mod look;
mod look_fault;
mod view;
mod watch;
mod watcher;

pub use look::Look;
pub use look_fault::LookFault;
pub use view::view_top;
pub use wire_num::OutOfMemory;
