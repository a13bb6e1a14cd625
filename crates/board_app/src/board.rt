//! The board's state, and its reaction to an event (profile).

ghost use Rattle.std.specs.Prelude.{IsTrue};
ghost use Rattle.px_core.specs.Rectangle.{is_session_size};

use crate::OutOfMemory;
use crate::reaction::Reacted;
use crate::signs::Signs;
use draw_ops::Drawing;
use input_pdu::Event;
use px_core::Size;
use std::alloc::Global;

/// A pixel of the surface, by its column and its row.
#[derive(Clone, Copy, Debug, PartialEq, Eq)]
pub struct Point {
    pub x: u16,
    pub y: u16,
}

/// The state of the board of a session.
#[derive(Clone, Copy)]
pub struct Board {
    /// The sides of the session's picture, in pixels.
    pub(crate) size: Size,
    /// The ink, 0 to 3: white, red, green, blue.
    pub(crate) ink: u16,
    /// Where the pen stands while it is down.
    pub(crate) pen: Option<Point>,
    /// The last point of the mouse.
    pub(crate) last: Point,
    /// The upper left pixel of the popup while it is open.
    pub(crate) popup: Option<Point>,
    /// How many signs were written.
    pub(crate) signs: u32,
    pub(crate) is_brush_loaded: bool,
    pub(crate) is_image_loaded: bool,
    /// The signs that were loaded.
    pub(crate) loaded: Signs,
    ghost sized: { IsTrue (is_session_size size.w size.h) },
}

impl Board {
    ghost use Rattle.std.specs.Prelude.{◌≡◌, ◌<◌, ◌≤◌, ◌-◌, ◌^◌, length, IsTrue, IfOk, OnOk, OnErr};
    ghost use Rattle.px_core.specs.Rectangle.{is_session_size};
    ghost use Rattle.session_rules.specs.Board.{opening_board, board_reaction};
    ghost use Rattle.board_app.specs.Boards.{board_of, Makes};

    /// The board of a new session of this size.
    pub fn new(size: Size) -> Board
        requires { IsTrue (is_session_size size.w size.h) }
        ensures board { board_of result ≡ opening_board }
        ensures size { result.size ≡ size }
    {
        Board {
            size,
            ink: 0,
            pen: None,
            last: Point { x: 0, y: 0 },
            popup: None,
            signs: 0,
            is_brush_loaded: false,
            is_image_loaded: false,
            loaded: Signs::new(),
        }
    }

    /// How many signs were written.
    pub fn signs(&self) -> u32
        ensures { result ≡ (board_of self.now).signs }
    {
        self.signs
    }

    /// Does what the table says of an event, and gives its drawings. An `Err` leaves the board as it was.
    pub fn react(&mut self, alloc: Global, e: Event) -> Result<Vec<Drawing>, OutOfMemory>
        requires { (board_of self.old).signs < 2 ^ 32 - 1 }
        ensures drawings { IfOk result (λ drawings. drawings.items ≡ (board_reaction self.old.size (board_of self.old) e).drawings) }
        ensures board { OnOk result (board_of self.new ≡ (board_reaction self.old.size (board_of self.old) e).board) }
        ensures size { self.new.size ≡ self.old.size }
        ensures memory { OnErr result (self.new ≡ self.old) }
    {
        let reacted = self.reaction(alloc, e)?;
        *self = reacted.board;
        Ok(reacted.drawings)
    }

    /// The reaction to an event, by its kind.
    fn reaction(&self, alloc: Global, e: Event) -> Result<Reacted, OutOfMemory>
        requires { (board_of self.now).signs < 2 ^ 32 - 1 }
        ensures { IfOk result (λ r. Makes self.now.size r (board_reaction self.now.size (board_of self.now) e)) }
    {
        match e {
            Event::Scan { code, up: false } => self.key(alloc, code),
            Event::Unicode { code, up: false } => self.sign(alloc, code),
            Event::Mouse { flags, x, y } => self.mouse(alloc, flags, x, y),
            _ => Ok(self.idle(alloc)),
        }
    }
}
