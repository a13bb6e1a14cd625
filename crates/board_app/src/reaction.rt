//! What the board makes of an event (profile).

use crate::board::Board;
use draw_ops::Drawing;

/// The board after an event, and the drawings that the event makes.
#[derive(Drop)]
pub struct Reacted {
    pub board: Board,
    pub drawings: Vec<Drawing>,
}
