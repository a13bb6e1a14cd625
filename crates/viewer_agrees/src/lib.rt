//! Both halves of a connection agree: the host hears all that a viewer sends, by its name and what it confirms, and neither half waits for ever;
//! and what the viewer is shown of a session is its journal.
#![tactic(auto)]

mod laws;

pub use laws::{
    both_halves_take_turns, every_viewer_is_shown_the_journal, greeting_is_heard, name_is_read,
};
