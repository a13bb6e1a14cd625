//! What a connection notes and reports.
use crate::{ConnEnd, Places};

/// What the read side has noted of the client's stream.
#[derive(Drop)]
pub struct Noted {
    /// The places of the connection's entries so far.
    pub places: Places,
    /// The client has left.
    pub bye: bool,
    /// The client has asked for the end.
    pub shutdown: bool,
    /// The client's last word on output is that it stops.
    pub quiet: bool,
}

/// What a connection came to.
#[derive(Drop)]
pub struct ConnReport {
    /// The viewer's number; 0 where none joined.
    pub viewer: u32,
    pub end: ConnEnd,
    /// The places of the entries that the connection appended.
    pub places: Places,
}
