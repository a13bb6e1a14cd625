//! A viewer's half of a connection as definitions ([MS-RDPBCGR] 1.3.1.1): what it sends, what it makes of each packet of the host, and what it is shown.
//!
//! Each answer of the host is a table of its fields, and the first field that differs is the place of the refusal. The laws say that the host's bytes may come
//! in any pieces, that the host's own answers are read, and that what a client reads behind the Font Map is shown.
#![tactic(auto)]

mod laws;
mod stage;

pub use laws::{
    client_is_answered, frames_are_shown, hosts_bytes_are_heard_in_any_pieces,
    preset_words_are_confirmable, what_is_confirmed_is_read,
};
pub use stage::{Channel, Stage};
