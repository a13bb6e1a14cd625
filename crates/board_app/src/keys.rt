//! The rows of the table for keys (profile; scan codes of the first set).

ghost use Rattle.std.specs.Prelude.{◌≡◌, ◌<◌, IfOk};
ghost use Rattle.px_core.specs.Rectangle.{whole};
ghost use Rattle.session_rules.specs.Board.{clearing, inverting, scrolling, patterning, stamping, key_lines, first_fitting};
ghost use Rattle.board_app.specs.Boards.{board_of, Makes};

use crate::OutOfMemory;
use crate::board::Board;
use crate::patterns::{checkered, shaded};
use crate::reaction::Reacted;
use crate::shapes::unclipped;
use draw_ops::{Brush, Image, Shape};
use px_core::{Rect, whole};
use std::alloc::Global;

/// The scan codes of F1 to F5.
const F1: u16 = 0x3B;

const F2: u16 = 0x3C;

const F3: u16 = 0x3D;

const F4: u16 = 0x3E;

const F5: u16 = 0x3F;
/// How many rows a scroll goes up.
const SCROLL_ROWS: u32 = 16;
/// The slots of the brush and of the image, and the image's side.
const BRUSH_SLOT: u8 = 63;

const IMAGE_SLOT: u8 = 255;

const IMAGE_SIDE: u16 = 16;
/// Raster operations: the picture inverted, with the pattern, with the source; and the source alone.
const INVERT: u8 = 0x55;

const PATTERN_INVERT: u8 = 0x5A;

const SOURCE_INVERT: u8 = 0x66;

const SOURCE_COPY: u8 = 0xCC;

impl Board {
    /// The reaction to a key that goes down.
    pub(crate) fn key(&self, alloc: Global, code: u16) -> Result<Reacted, OutOfMemory>
        ensures { IfOk result (λ r. Makes self.now.size r (first_fitting (key_lines self.now.size (board_of self.now) code) (board_of self.now))) }
    {
        match code {
            F1 => self.clearing(alloc),
            F2 => self.inverting(alloc),
            F3 => self.scrolling_if_high(alloc),
            F4 => self.patterning(alloc),
            F5 => self.stamping(alloc),
            _ => Ok(self.idle(alloc)),
        }
    }

    /// All is black.
    fn clearing(&self, alloc: Global) -> Result<Reacted, OutOfMemory>
        ensures { IfOk result (λ r. Makes self.now.size r (clearing self.now.size (board_of self.now))) }
    {
        let rect = whole(self.size);
        let drawings = Vec::from_array(alloc, [unclipped(Shape::Fill { rect, color: 0 })])?;
        Ok(Reacted {
            board: *self,
            drawings,
        })
    }

    /// All is inverted.
    fn inverting(&self, alloc: Global) -> Result<Reacted, OutOfMemory>
        ensures { IfOk result (λ r. Makes self.now.size r (inverting self.now.size (board_of self.now))) }
    {
        let rect = whole(self.size);
        let drawings = Vec::from_array(alloc, [unclipped(Shape::Dst { rect, rop: INVERT })])?;
        Ok(Reacted {
            board: *self,
            drawings,
        })
    }

    /// The row for F3, which holds only where there are more rows than go up.
    fn scrolling_if_high(&self, alloc: Global) -> Result<Reacted, OutOfMemory>
        ensures { IfOk result (λ r. Makes self.now.size r (first_fitting (key_lines self.now.size (board_of self.now) 0x3D) (board_of self.now))) }
    {
        if SCROLL_ROWS < self.size.h {
            self.scrolling(alloc)
        } else {
            Ok(self.idle(alloc))
        }
    }

    /// All goes up.
    fn scrolling(&self, alloc: Global) -> Result<Reacted, OutOfMemory>
        requires { 16 < self.now.size.h }
        ensures { IfOk result (λ r. Makes self.now.size r (scrolling self.now.size (board_of self.now))) }
    {
        let kept = self.size.h - SCROLL_ROWS;
        let up = Shape::Copy {
            rect: Rect {
                x: 0,
                y: 0,
                w: self.size.w,
                h: kept,
            },
            rop: SOURCE_COPY,
            sx: 0,
            sy: SCROLL_ROWS as i32,
        };
        let rect = Rect {
            x: 0,
            y: kept as i32,
            w: self.size.w,
            h: SCROLL_ROWS,
        };
        let drawings = Vec::from_array(
            alloc,
            [unclipped(up), unclipped(Shape::Fill { rect, color: 0 })],
        )?;
        Ok(Reacted {
            board: *self,
            drawings,
        })
    }

    /// All is inverted in a checkered pattern.
    fn patterning(&self, alloc: Global) -> Result<Reacted, OutOfMemory>
        ensures { IfOk result (λ r. Makes self.now.size r (patterning self.now.size (board_of self.now))) }
    {
        let pattern = unclipped(Shape::Pat {
            rect: whole(self.size),
            rop: PATTERN_INVERT,
            brush: BRUSH_SLOT,
        });
        let drawings = if self.is_brush_loaded {
            Vec::from_array(alloc, [pattern])?
        } else {
            let load = unclipped(Shape::LoadBrush {
                slot: BRUSH_SLOT,
                brush: checkered(alloc)?,
            });
            Vec::from_array(alloc, [load, pattern])?
        };
        let mut board = *self;
        board.is_brush_loaded = true;
        Ok(Reacted { board, drawings })
    }

    /// The shaded image is mixed in at the last point.
    fn stamping(&self, alloc: Global) -> Result<Reacted, OutOfMemory>
        ensures { IfOk result (λ r. Makes self.now.size r (stamping (board_of self.now))) }
    {
        let stamp = unclipped(Shape::Blit {
            rect: Rect {
                x: i32::from(self.last.x),
                y: i32::from(self.last.y),
                w: u32::from(IMAGE_SIDE),
                h: u32::from(IMAGE_SIDE),
            },
            rop: SOURCE_INVERT,
            image: IMAGE_SLOT,
            sx: 0,
            sy: 0,
        });
        let drawings = if self.is_image_loaded {
            Vec::from_array(alloc, [stamp])?
        } else {
            let load = unclipped(Shape::LoadImage {
                slot: IMAGE_SLOT,
                image: shaded(alloc)?,
            });
            Vec::from_array(alloc, [load, stamp])?
        };
        let mut board = *self;
        board.is_image_loaded = true;
        Ok(Reacted { board, drawings })
    }
}
