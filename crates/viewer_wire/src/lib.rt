//! A viewer's packets, written, and a host's, read ([MS-RDPBCGR] 1.3.1.1): each answer of the host by the table of its fields.
//!
//! What is answered to which packet, and where a packet is refused, stands in the definitions of `viewer_rules`.
#![tactic(auto)]

mod answer;
mod channels;
mod client_info;
mod connect_initial;
mod connecting;
mod data;
mod demand;
mod finals;
mod headers;
mod rows;
mod sets;
mod share;

pub use answer::{Answer, AnswerFault, answer_packet};
pub use channels::is_farewell;
pub use wire_num::OutOfMemory;
