//! What is kept of a board's reaction, so that its drawings can be made again.

ghost use Rattle.std.specs.Prelude.{◌≡◌};
ghost use Rattle.session_core.specs.Showing.{board_found, shown_found};

use crate::shown::Shown;
use board_app::BoardBefore;
use std::slice;

/// What of the board that an event found its drawings depend on, and what each of them shows. What one alone shows takes no memory of
/// its own.
#[derive(Drop)]
pub enum Found {
    Single {
        board: BoardBefore,
        shown: Shown,
    },
    Several {
        board: BoardBefore,
        shown: Vec<Shown>,
    },
}

impl Found {
    /// What is kept of a reaction whose drawings show this.
    pub fn new(board: BoardBefore, mut shown: Vec<Shown>) -> Found
        ensures board { board_found result ≡ board }
        ensures shown { shown_found result ≡ shown.items }
    {
        if shown.len() == 1 {
            let shown = shown.remove(0);
            Found::Single { board, shown }
        } else {
            Found::Several { board, shown }
        }
    }

    /// What the drawings depend on.
    pub fn board(&self) -> &BoardBefore
        ensures { result.now ≡ board_found self.now }
    {
        match self {
            Found::Single { board, .. } => board,
            Found::Several { board, .. } => board,
        }
    }

    /// What each shows, in the order of the drawings.
    pub fn shown(&self) -> &[Shown]
        ensures { result.now ≡ shown_found self.now }
    {
        match self {
            Found::Single { shown, .. } => slice::from_ref(shown),
            Found::Several { shown, .. } => shown.as_slice(),
        }
    }
}
