//! What the drawings of an event depend on, kept so that they can be made again (profile).

ghost use Rattle.std.specs.Prelude.{◌≤◌};
ghost use Rattle.std.specs.Option.{ForSome};

use crate::OutOfMemory;
use crate::board::{Board, Point};
use crate::signs::Signs;
use crate::writing::LAST_SIGN;
use draw_ops::Drawing;
use input_pdu::Event;
use px_core::Size;
use std::alloc::Global;

/// What of a board the drawings of one event depend on beside the size: of the loaded signs only the one that the event writes.
#[derive(Clone, Copy)]
pub struct BoardBefore {
    signs: u32,
    ink: u16,
    pen: Option<Point>,
    last: Point,
    popup: Option<Point>,
    is_brush_loaded: bool,
    is_image_loaded: bool,
    /// The sign that the event writes, where it was loaded.
    sign: Option<u8>,
    ghost coded: { ForSome sign (λ code. code ≤ 126) },
}

impl Board {
    ghost use Rattle.std.specs.Prelude.{◌≡◌, ℕ, ◌≤◌, false, option_to_list};
    ghost use Rattle.std.specs.Option.{ForSome};
    ghost use Rattle.input_pdu.specs.declared.event.Event.TheVariants.{Unicode};
    ghost use Rattle.session_rules.specs.Board.{is_member};
    ghost use Rattle.board_app.specs.Loaded.{loaded_codes};
    ghost use Rattle.board_app.specs.Boards.{board_of};
    ghost use Rattle.board_app.specs.Before.{MakesAgain};

    /// What the drawings of an event depend on.
    pub fn before(&self, e: Event) -> BoardBefore
        ensures { MakesAgain self.now.size (board_of self.now) e result }
    {
        let sign = self.loaded_sign(e);
        BoardBefore {
            signs: self.signs,
            ink: self.ink,
            pen: self.pen,
            last: self.last,
            popup: self.popup,
            is_brush_loaded: self.is_brush_loaded,
            is_image_loaded: self.is_image_loaded,
            sign,
        }
    }

    /// The sign that an event writes, where it is loaded.
    fn loaded_sign(&self, e: Event) -> Option<u8>
        ensures coded { ForSome result (λ code. code ≤ 126) }
        ensures same { (code : ℕ) → e ≡ Unicode code false → code ≤ 126 → is_member code (option_to_list result) ≡ is_member code (loaded_codes self.now.loaded) }
    {
        match e {
            Event::Unicode { code, up: false } => self.loaded_code(code),
            _ => None,
        }
    }

    /// A code, where its sign is loaded.
    fn loaded_code(&self, code: u16) -> Option<u8>
        ensures coded { ForSome result (λ code. code ≤ 126) }
        ensures same { code ≤ 126 → is_member code (option_to_list result) ≡ is_member code (loaded_codes self.now.loaded) }
    {
        if code <= LAST_SIGN && self.loaded.has(code as u8) {
            Some(code as u8)
        } else {
            None
        }
    }
}

impl BoardBefore {
    ghost use Rattle.std.specs.Prelude.{◌≡◌, ◌<◌, ◌-◌, ◌^◌, IfOk, IsTrue, option_to_list};
    ghost use Rattle.px_core.specs.Rectangle.{is_session_size};
    ghost use Rattle.session_rules.specs.Board.{board_reaction};
    ghost use Rattle.board_app.specs.Loaded.{loaded_codes};
    ghost use Rattle.board_app.specs.Boards.{board_of};
    ghost use Rattle.board_app.specs.Before.{board_before};

    /// The drawings of the event that this is kept for, on a surface of the board's size.
    pub fn drawings(&self, alloc: Global, size: Size, e: Event) -> Result<Vec<Drawing>, OutOfMemory>
        requires size { IsTrue (is_session_size size.w size.h) }
        requires signs { self.now.signs < 2 ^ 32 - 1 }
        ensures { IfOk result (λ drawings. drawings.items ≡ (board_reaction size (board_before self.now) e).drawings) }
    {
        let mut board = self.board(size);
        board.react(alloc, e)
    }

    /// A board from which the event makes the same drawings.
    fn board(&self, size: Size) -> Board
        requires { IsTrue (is_session_size size.w size.h) }
        ensures board { board_of result ≡ board_before self.now }
        ensures size { result.size ≡ size }
    {
        let loaded = self.loaded();
        Board {
            size,
            ink: self.ink,
            pen: self.pen,
            last: self.last,
            popup: self.popup,
            signs: self.signs,
            is_brush_loaded: self.is_brush_loaded,
            is_image_loaded: self.is_image_loaded,
            loaded,
        }
    }

    /// The sign that was loaded, alone.
    fn loaded(&self) -> Signs
        ensures { loaded_codes result ≡ option_to_list self.now.sign }
    {
        match self.sign {
            Some(code) => Signs::new().with(code),
            None => Signs::new(),
        }
    }
}
