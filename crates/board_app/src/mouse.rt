//! The rows of the table for the mouse (profile; pointerFlags by [MS-RDPBCGR] 2.2.8.1.1.3.1.1.3).

ghost use Rattle.std.specs.Prelude.{◌≡◌, ◌<◌, ◌≤◌, ◌+◌, ◌-◌, ◌&&◌, nat_le, min, max, pos, IfOk, IsTrue, option_map, option_to_list};
ghost use Rattle.px_core.specs.Rectangle.{within};
ghost use Rattle.session_rules.specs.Board.{has_bit, is_down, is_button_1, is_button_2, is_move, point_on, idle, closing, dotting, lifting, opening};
ghost use Rattle.session_rules.specs.Board.{popup_place, stroke, stroking, chosen_ink, mouse_lines, first_fitting, mouse_reaction, popup_removal};
ghost use Rattle.board_app.specs.Boards.{board_of, point_of, Makes};

use crate::OutOfMemory;
use crate::board::{Board, Point};
use crate::reaction::Reacted;
use crate::shapes::{
    FIELD_SIDE, POPUP_HEIGHT, POPUP_WIDTH, ink_color, ink_field, popup_removal, popup_save,
    unclipped,
};
use draw_ops::{Drawing, Shape};
use px_core::{Rect, Size};
use std::alloc::Global;

/// The bits of pointerFlags: PTRFLAGS_DOWN, PTRFLAGS_BUTTON1, PTRFLAGS_BUTTON2, PTRFLAGS_MOVE.
const DOWN: u32 = 15;

const BUTTON_1: u32 = 12;

const BUTTON_2: u32 = 13;

const MOVE: u32 = 11;
/// How far a dot reaches from its point, and its side.
const DOT_REACH: i32 = 2;

const DOT_SIDE: u32 = 5;

impl Board {
    /// The reaction to the mouse, whose point becomes the last point.
    pub(crate) fn mouse(
        &self,
        alloc: Global,
        flags: u16,
        x: u16,
        y: u16,
    ) -> Result<Reacted, OutOfMemory>
        ensures { IfOk result (λ r. Makes self.now.size r (mouse_reaction self.now.size (board_of self.now) flags (point_on self.now.size x y))) }
    {
        let p = point_on(self.size, x, y);
        let mut board = *self;
        board.last = p;
        board.mouse_at(alloc, flags, p)
    }

    /// The first row that fits, at a point of the surface.
    fn mouse_at(&self, alloc: Global, flags: u16, p: Point) -> Result<Reacted, OutOfMemory>
        ensures { IfOk result (λ r. Makes self.now.size r (first_fitting (mouse_lines self.now.size (board_of self.now) flags (point_of p)) (board_of self.now))) }
    {
        if is_click(flags) {
            match self.popup {
                Some(at) => self.closing(alloc, p, at),
                None => self.dotting(alloc, p),
            }
        } else if has_bit(flags, BUTTON_1) {
            Ok(self.lifting(alloc))
        } else if opens_popup(self.size, flags) {
            self.opening(alloc, popup_place(self.size, p))
        } else if has_bit(flags, MOVE) {
            match self.pen {
                Some(pen) => self.stroking(alloc, p, pen),
                None => Ok(self.idle(alloc)),
            }
        } else {
            Ok(self.idle(alloc))
        }
    }

    /// Nothing is drawn.
    pub(crate) fn idle(&self, alloc: Global) -> Reacted
        ensures { Makes self.now.size result (idle (board_of self.now)) }
    {
        Reacted {
            board: *self,
            drawings: Vec::new(alloc),
        }
    }

    /// The popup closes, and a point in it chooses the ink.
    fn closing(&self, alloc: Global, p: Point, at: Point) -> Result<Reacted, OutOfMemory>
        ensures { IfOk result (λ r. Makes self.now.size r (closing (board_of self.now) (point_of p) (point_of at))) }
    {
        let drawings = Vec::from_array(alloc, [popup_removal(at)])?;
        let mut board = *self;
        board.popup = None;
        board.ink = chosen_ink(at, p, self.ink);
        Ok(Reacted { board, drawings })
    }

    /// A dot is drawn, and the pen is set.
    fn dotting(&self, alloc: Global, p: Point) -> Result<Reacted, OutOfMemory>
        ensures { IfOk result (λ r. Makes self.now.size r (dotting (board_of self.now) (point_of p))) }
    {
        let rect = Rect {
            x: i32::from(p.x) - DOT_REACH,
            y: i32::from(p.y) - DOT_REACH,
            w: DOT_SIDE,
            h: DOT_SIDE,
        };
        let color = ink_color(self.ink);
        let drawings = Vec::from_array(alloc, [unclipped(Shape::Fill { rect, color })])?;
        let mut board = *self;
        board.pen = Some(p);
        Ok(Reacted { board, drawings })
    }

    /// The pen is lifted.
    fn lifting(&self, alloc: Global) -> Reacted
        ensures { Makes self.now.size result (lifting (board_of self.now)) }
    {
        let mut board = *self;
        board.pen = None;
        Reacted {
            board,
            drawings: Vec::new(alloc),
        }
    }

    /// The popup opens: what it covers is saved, and the four inks are shown.
    fn opening(&self, alloc: Global, at: Point) -> Result<Reacted, OutOfMemory>
        ensures { IfOk result (λ r. Makes self.now.size r (opening (board_of self.now) (point_of at))) }
    {
        let drawings = match self.popup {
            Some(old) => Vec::from_array(
                alloc,
                [
                    popup_removal(old),
                    popup_save(at),
                    ink_field(at, 0),
                    ink_field(at, 1),
                    ink_field(at, 2),
                    ink_field(at, 3),
                ],
            )?,
            None => Vec::from_array(
                alloc,
                [
                    popup_save(at),
                    ink_field(at, 0),
                    ink_field(at, 1),
                    ink_field(at, 2),
                    ink_field(at, 3),
                ],
            )?,
        };
        let mut board = *self;
        board.popup = Some(at);
        board.pen = None;
        Ok(Reacted { board, drawings })
    }

    /// A stroke is drawn from the pen, which follows.
    fn stroking(&self, alloc: Global, p: Point, pen: Point) -> Result<Reacted, OutOfMemory>
        ensures { IfOk result (λ r. Makes self.now.size r (stroking (board_of self.now) (point_of p) (point_of pen))) }
    {
        let drawings = stroke(alloc, ink_color(self.ink), pen, p)?;
        let mut board = *self;
        board.pen = Some(p);
        Ok(Reacted { board, drawings })
    }
}

/// Whether a bit of pointerFlags is set.
#[tactic(auto, using(std::proofs::lemmas::Nat::Bits::shr_and_one))]
fn has_bit(flags: u16, bit: u32) -> bool
    requires { bit < 16 }
    ensures { result ≡ has_bit flags bit }
{
    (flags >> bit) & 1 == 1
}

/// Whether the first button goes down.
fn is_click(flags: u16) -> bool
    ensures { result ≡ (is_down flags && is_button_1 flags) }
{
    has_bit(flags, DOWN) && has_bit(flags, BUTTON_1)
}

/// Whether the second button goes down where the popup has room.
fn opens_popup(size: Size, flags: u16) -> bool
    ensures { result ≡ ((is_down flags && is_button_2 flags) && (nat_le 64 size.w && nat_le 16 size.h)) }
{
    (has_bit(flags, DOWN) && has_bit(flags, BUTTON_2))
        && (u32::from(POPUP_WIDTH) <= size.w && u32::from(POPUP_HEIGHT) <= size.h)
}

/// A point brought into the surface.
fn point_on(size: Size, x: u16, y: u16) -> Point
    requires wide { 1 ≤ size.w }
    requires high { 1 ≤ size.h }
    ensures { point_of result ≡ point_on size x y }
{
    Point {
        x: u32::from(x).min(size.w - 1) as u16,
        y: u32::from(y).min(size.h - 1) as u16,
    }
}

/// The popup's place for a point, so that it lies on the surface.
fn popup_place(size: Size, p: Point) -> Point
    requires wide { 64 ≤ size.w }
    requires high { 16 ≤ size.h }
    ensures { point_of result ≡ popup_place size (point_of p) }
{
    Point {
        x: u32::from(p.x).min(size.w - u32::from(POPUP_WIDTH)) as u16,
        y: u32::from(p.y).min(size.h - u32::from(POPUP_HEIGHT)) as u16,
    }
}

/// The ink that a point chooses where the popup is open.
fn chosen_ink(at: Point, p: Point, ink: u16) -> u16
    ensures { result ≡ chosen_ink (point_of at) (point_of p) ink }
{
    if in_stretch(at.x, POPUP_WIDTH, p.x) && in_stretch(at.y, POPUP_HEIGHT, p.y) {
        (p.x - at.x) / FIELD_SIDE
    } else {
        ink
    }
}

/// The drawings of a stroke from one point to another.
fn stroke(alloc: Global, color: u32, a: Point, b: Point) -> Result<Vec<Drawing>, OutOfMemory>
    ensures { IfOk result (λ drawings. drawings.items ≡ stroke color (point_of a) (point_of b)) }
{
    if a.x == b.x {
        if a.y == b.y {
            Ok(Vec::new(alloc))
        } else {
            let rect = Rect {
                x: i32::from(a.x),
                y: i32::from(a.y.min(b.y)),
                w: 1,
                h: stretch(a.y, b.y),
            };
            Ok(Vec::from_array(alloc, [unclipped(Shape::Fill { rect, color })])?)
        }
    } else if a.y == b.y {
        let rect = Rect {
            x: i32::from(a.x.min(b.x)),
            y: i32::from(a.y),
            w: stretch(a.x, b.x),
            h: 1,
        };
        Ok(Vec::from_array(alloc, [unclipped(Shape::Fill { rect, color })])?)
    } else {
        let line = Shape::Line {
            x0: i32::from(a.x),
            y0: i32::from(a.y),
            x1: i32::from(b.x),
            y1: i32::from(b.y),
            color,
        };
        Ok(Vec::from_array(alloc, [unclipped(line)])?)
    }
}

/// How many pixels a straight stretch has, with both its ends.
fn stretch(a: u16, b: u16) -> u32
    ensures { result ≡ max a b - min a b + 1 }
{
    u32::from(a.max(b) - a.min(b)) + 1
}

/// Whether a number is one of so many from a number on.
fn in_stretch(from: u16, count: u16, n: u16) -> bool
    ensures within { result ≡ within (pos from) count (pos n) }
    ensures above { IsTrue result → from ≤ n }
{
    from <= n && n - from < count
}
