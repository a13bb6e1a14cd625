use crate::Event;
use draw_ops::Drawing;

/// What a viewer may do.
#[derive(Clone, Copy, Debug, PartialEq, Eq)]
pub enum Role {
    /// May hold control, and may take it from whoever holds it.
    Owner,
    /// May hold control where it is given.
    Control,
    /// May only view.
    View,
}

/// One change of a session, as its journal keeps it. Viewers are numbered from 1.
#[derive(Debug, Drop)]
pub enum Entry {
    /// Viewer `v` came, with the role of a row.
    Join { v: u32, role: Role },
    /// Viewer `v` left.
    Leave { v: u32 },
    /// Control went to viewer `to`, by viewer `by`.
    Give { by: u32, to: u32 },
    /// The board reacted to an event of viewer `by`.
    Input { by: u32, event: Event },
    /// Viewer `by` drew.
    Draw { by: u32, d: Drawing },
}
