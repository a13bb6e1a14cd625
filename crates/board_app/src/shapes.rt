//! The drawings that the board makes (profile).

ghost use Rattle.std.specs.Prelude.{◌≡◌, ◌≤◌};
ghost use Rattle.px_core.specs.Rectangle.{boxed};
ghost use Rattle.session_rules.specs.Board.{unclipped, ink_color, popup_rect, popup_removal, ink_field};
ghost use Rattle.board_app.specs.Boards.{point_of};

use crate::board::Point;
use draw_ops::{Drawing, Shape};
use px_core::Rect;

/// The slot of the pixels that the popup covers.
const POPUP_SLOT: u8 = 15;
/// The sides of the popup, and of the field of an ink in it.
pub const POPUP_WIDTH: u16 = 64;

pub const POPUP_HEIGHT: u16 = 16;

pub const FIELD_SIDE: u16 = 16;
/// The inks.
const WHITE: u32 = 0xFFFFFF;

const RED: u32 = 0xFF0000;

const GREEN: u32 = 0x00FF00;

const BLUE: u32 = 0x0000FF;

/// A drawing without a clip.
pub fn unclipped(shape: Shape) -> Drawing
    ensures { result ≡ unclipped shape }
{
    Drawing { shape, clip: None }
}

/// The colour of an ink.
pub fn ink_color(ink: u16) -> u32
    ensures { result ≡ ink_color ink }
{
    match ink {
        0 => WHITE,
        1 => RED,
        2 => GREEN,
        3 => BLUE,
        _ => 0,
    }
}

/// The popup's pixels.
pub fn popup_rect(at: Point) -> Rect
    ensures { result ≡ popup_rect (point_of at) }
{
    Rect {
        x: i32::from(at.x),
        y: i32::from(at.y),
        w: u32::from(POPUP_WIDTH),
        h: u32::from(POPUP_HEIGHT),
    }
}

/// The drawing that takes the popup off the picture.
pub fn popup_removal(at: Point) -> Drawing
    ensures { result ≡ popup_removal (point_of at) }
{
    unclipped(Shape::Restore {
        slot: POPUP_SLOT,
        x: i32::from(at.x),
        y: i32::from(at.y),
    })
}

/// The drawing that keeps what the popup will cover.
pub fn popup_save(at: Point) -> Drawing
    ensures { result ≡ unclipped (Shape.Save 15 (popup_rect (point_of at))) }
{
    unclipped(Shape::Save {
        slot: POPUP_SLOT,
        rect: popup_rect(at),
    })
}

/// The drawing of an ink in the popup.
pub fn ink_field(at: Point, ink: u16) -> Drawing
    requires { ink ≤ 3 }
    ensures { result ≡ ink_field (point_of at) ink }
{
    let x = u32::from(at.x) + u32::from(FIELD_SIDE) * u32::from(ink);
    let rect = Rect {
        x: x as i32,
        y: i32::from(at.y),
        w: u32::from(FIELD_SIDE),
        h: u32::from(FIELD_SIDE),
    };
    let color = ink_color(ink);
    unclipped(Shape::Fill { rect, color })
}
