//! The connection of a client as definitions ([MS-RDPBCGR] 1.3.1.1): what the host makes of each packet of its stream, and of the
//! stream in any pieces.
//!
//! docs/protocol.md tells it in sentences. The definitions stand in specs/.
#![tactic(auto)]

mod answer;
mod client;
mod conn_laws;
mod conn_step;
mod deed;
mod laws;
mod refusal;
mod stage;

pub use answer::{Answer, News, Reply};
pub use client::Client;
pub use conn_laws::{
    areas_lie_near, nothing_follows_the_end, once_ready_nothing_is_replied, steps_come_in_order,
    streams_are_sound,
};
pub use conn_step::ConnStep;
pub use deed::Deed;
pub use laws::streams_are_heard_in_any_pieces;
pub use refusal::Refusal;
pub use stage::{SharePhase, Stage};
