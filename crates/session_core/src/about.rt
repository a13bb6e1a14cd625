//! What a drawing names, read off its shape once, before it is entered.

ghost use Rattle.std.specs.Prelude.{◌≡◌, true, None};
ghost use Rattle.px_core.specs.Colors.{are_colors};
ghost use Rattle.draw_ops.specs.Ranges.{HasColors, colors_of, is_rect_in_range, is_shape_in_range, is_drawing_in_range};
ghost use Rattle.session_core.specs.Showing.{no_rect};
ghost use Rattle.session_core.specs.About.{about_of};

use crate::ranges::{
    byte_is_in_range, glyph_is_in_range, pairs_are_in_range, point_is_in_range, recall_rect_range,
    recall_side_range,
};
use crate::shown::{NO_RECT, line_box};
use draw_ops::{Drawing, Shape};
use px_core::Rect;

/// The slots of the board (profile).
const BOARD_IMAGE: u8 = 255;

const BOARD_BRUSH: u8 = 63;

const BOARD_FONT: u8 = 3;

const BOARD_BLOCK: u8 = 15;

/// What a shape names.
#[derive(Clone, Copy)]
pub struct About {
    /// The rectangle that it names, of a line the box of its ends.
    pub rect: Rect,
    /// The slot of the image that it draws.
    pub image: Option<u8>,
    /// The slot of the brush that it draws with.
    pub brush: Option<u8>,
    /// The slot of saved blocks that it saves into.
    pub saves: Option<u8>,
    /// The pixels of an image that it loads.
    pub pixels: u64,
    /// Whether it names one of the board's own slots.
    pub is_boards: bool,
}

/// What a drawing names. The numbers of a drawing of colours are in range.
pub fn about_drawing(d: &Drawing) -> About
    ensures value { result ≡ about_of d.now.shape }
    ensures range { HasColors d.now → is_drawing_in_range d.now ≡ true }
{
    if let Some(clip) = d.clip {
        recall_rect_range(clip);
    }
    about_shape(&d.shape)
}

/// What a shape names.
fn about_shape(shape: &Shape) -> About
    ensures value { result ≡ about_of shape.now }
    ensures range { are_colors (colors_of shape.now) ≡ true → is_shape_in_range shape.now ≡ true }
{
    match shape {
        Shape::Fill { rect, .. } => about_rect(*rect, None, None, false),
        Shape::Dst { rect, rop } => {
            byte_is_in_range(*rop);
            about_rect(*rect, None, None, false)
        }
        Shape::Pat { rect, rop, brush } => {
            byte_is_in_range(*rop);
            byte_is_in_range(*brush);
            about_rect(*rect, None, Some(*brush), *brush == BOARD_BRUSH)
        }
        Shape::Copy { rect, rop, sx, sy } => {
            byte_is_in_range(*rop);
            point_is_in_range(*sx, *sy);
            about_rect(*rect, None, None, false)
        }
        Shape::Blit {
            rect,
            rop,
            image,
            sx,
            sy,
        } => {
            byte_is_in_range(*rop);
            byte_is_in_range(*image);
            point_is_in_range(*sx, *sy);
            about_rect(*rect, Some(*image), None, *image == BOARD_IMAGE)
        }
        Shape::Blit3 {
            rect,
            rop,
            image,
            sx,
            sy,
            brush,
        } => {
            byte_is_in_range(*rop);
            byte_is_in_range(*image);
            point_is_in_range(*sx, *sy);
            byte_is_in_range(*brush);
            let is_boards = *image == BOARD_IMAGE || *brush == BOARD_BRUSH;
            about_rect(*rect, Some(*image), Some(*brush), is_boards)
        }
        Shape::Text {
            x,
            y,
            font,
            run,
            ..
        } => {
            point_is_in_range(*x, *y);
            byte_is_in_range(*font);
            pairs_are_in_range(run.pairs());
            about_slot(*font == BOARD_FONT, 0)
        }
        Shape::Line { x0, y0, x1, y1, .. } => {
            point_is_in_range(*x0, *y0);
            point_is_in_range(*x1, *y1);
            let rect = line_box(*x0, *y0, *x1, *y1);
            About {
                rect,
                ..about_slot(false, 0)
            }
        }
        Shape::Save { slot, rect } => {
            byte_is_in_range(*slot);
            let named = about_rect(*rect, None, None, *slot == BOARD_BLOCK);
            About {
                saves: Some(*slot),
                ..named
            }
        }
        Shape::Restore { slot, x, y } => {
            byte_is_in_range(*slot);
            point_is_in_range(*x, *y);
            about_slot(*slot == BOARD_BLOCK, 0)
        }
        Shape::LoadImage { slot, image } => {
            byte_is_in_range(*slot);
            recall_side_range(image.w());
            recall_side_range(image.h());
            about_slot(*slot == BOARD_IMAGE, image.pixels().len() as u64)
        }
        Shape::LoadBrush { slot, brush } => {
            byte_is_in_range(*slot);
            let _pixels = brush.brush().pixels();
            about_slot(*slot == BOARD_BRUSH, 0)
        }
        Shape::LoadGlyph { font, code, glyph } => {
            byte_is_in_range(*font);
            byte_is_in_range(*code);
            glyph_is_in_range(glyph);
            about_slot(*font == BOARD_FONT, 0)
        }
    }
}

/// What a shape names that names a rectangle, whose numbers are in range.
fn about_rect(rect: Rect, image: Option<u8>, brush: Option<u8>, is_boards: bool) -> About
    ensures value { result ≡ record { rect = rect; image = image; brush = brush; saves = None; pixels = 0; is_boards = is_boards } }
    ensures range { is_rect_in_range rect ≡ true }
{
    recall_rect_range(rect);
    About {
        rect,
        image,
        brush,
        saves: None,
        pixels: 0,
        is_boards,
    }
}

/// What a shape names that names no rectangle.
fn about_slot(is_boards: bool, pixels: u64) -> About
    ensures { result ≡ record { rect = no_rect; image = None; brush = None; saves = None; pixels = pixels; is_boards = is_boards } }
{
    About {
        rect: NO_RECT,
        image: None,
        brush: None,
        saves: None,
        pixels,
        is_boards,
    }
}
