//! The headline: whatever the interleaving, every viewer is sent bytes that are read whole, and each mark shows, cut to the viewer's depth, the picture after
//! the
//! entries that the take found, and the pointer after them; over steps, over captures and over scripts.
#![tactic(auto)]

pub mod capture_laws;
pub mod orders;
pub mod rule_laws;
pub mod script_laws;
pub mod step_laws;
