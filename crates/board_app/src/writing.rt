//! The row of the table for signs (profile).

ghost use Rattle.std.specs.Prelude.{◌≡◌, ◌<◌, ◌≤◌, ◌^◌, ◌-◌, ◌&&◌, nat_le, IfOk};
ghost use Rattle.session_rules.specs.Board.{writing_sign, sign_lines, sign_place, sign_text, first_fitting};
ghost use Rattle.board_app.specs.Boards.{board_of, Makes};

use crate::OutOfMemory;
use crate::board::Board;
use crate::patterns::sign;
use crate::reaction::Reacted;
use crate::shapes::{ink_color, unclipped};
use draw_ops::{Drawing, Run, Shape};
use px_core::Size;
use std::alloc::Global;

/// The signs that are written, `!` to `~`.
const FIRST_SIGN: u16 = 0x21;

pub const LAST_SIGN: u16 = 0x7E;
/// The side of a sign's cell.
const CELL_SIDE: u32 = 8;
/// The font of the signs.
const FONT: u8 = 3;

impl Board {
    /// The reaction to a key of a code that goes down.
    pub(crate) fn sign(&self, alloc: Global, code: u16) -> Result<Reacted, OutOfMemory>
        requires { (board_of self.now).signs < 2 ^ 32 - 1 }
        ensures { IfOk result (λ r. Makes self.now.size r (first_fitting (sign_lines self.now.size (board_of self.now) code) (board_of self.now))) }
    {
        if is_written(self.size, code) {
            self.writing(alloc, code as u8)
        } else {
            Ok(self.idle(alloc))
        }
    }

    /// A sign is written, and loaded before it is the first time.
    fn writing(&self, alloc: Global, code: u8) -> Result<Reacted, OutOfMemory>
        requires count { (board_of self.now).signs < 2 ^ 32 - 1 }
        requires code { code ≤ 126 }
        requires wide { 8 ≤ self.now.size.w }
        requires high { 8 ≤ self.now.size.h }
        ensures { IfOk result (λ r. Makes self.now.size r (writing_sign self.now.size (board_of self.now) code)) }
    {
        let text = self.sign_text(alloc, code)?;
        let drawings = if self.loaded.has(code) {
            Vec::from_array(alloc, [text])?
        } else {
            let load = unclipped(Shape::LoadGlyph {
                font: FONT,
                code,
                glyph: sign(alloc, code)?,
            });
            Vec::from_array(alloc, [load, text])?
        };
        let mut board = *self;
        board.signs = self.signs + 1;
        board.loaded = self.loaded.with(code);
        Ok(Reacted { board, drawings })
    }

    /// The drawing of a sign at the next cell.
    fn sign_text(&self, alloc: Global, code: u8) -> Result<Drawing, OutOfMemory>
        requires wide { 8 ≤ self.now.size.w }
        requires high { 8 ≤ self.now.size.h }
        ensures { IfOk result (λ d. d ≡ sign_text (board_of self.now) code (sign_place self.now.size self.now.signs)) }
    {
        let run = Run::new(alloc, &[(code, 0)])?;
        let columns = self.size.w / CELL_SIDE;
        let rows = self.size.h / CELL_SIDE;
        let x = CELL_SIDE * (self.signs % columns);
        let y = CELL_SIDE * (self.signs / columns % rows);
        Ok(unclipped(Shape::Text {
            x: x as i32,
            y: y as i32,
            color: ink_color(self.ink),
            font: FONT,
            run,
        }))
    }
}

/// Whether a code is a sign, and the surface has a cell.
fn is_written(size: Size, code: u16) -> bool
    ensures { result ≡ ((nat_le 0x21 code && nat_le code 0x7E) && (nat_le 8 size.w && nat_le 8 size.h)) }
{
    (FIRST_SIGN <= code && code <= LAST_SIGN) && (CELL_SIDE <= size.w && CELL_SIDE <= size.h)
}
