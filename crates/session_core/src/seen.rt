//! The drawings of an entry where they lie, each with what its slots held at its place.

ghost use Rattle.std.specs.Prelude.{◌≡◌, ◌<◌, ◌≤◌, [], ◌∷◌, length, Some, IfOk, IsTrue, option_copied, slice_get};
ghost use Rattle.px_core.specs.Rectangle.{is_session_size};
ghost use Rattle.session_core.specs.Showing.{all_shown, shown_list};
ghost use Rattle.session_core.specs.Seeing.{drawings_seen};
ghost use Rattle.session_core.specs.Putting.{drawings_made, IsBoardReady};

use crate::OutOfMemory;
use crate::pending::{Pending, shared};
use crate::row::ShownRow;
use crate::shown::{Shown, ShownList};
use draw_ops::Drawing;
use input_pdu::Event;
use px_core::{Rect, Size};
use std::alloc::Global;
use std::marker::Model;
use std::slice;
use surface_parts::{LoadedGlyph, LoadedImage};

/// A drawing where it lies, the rectangle that it touches, and what its slots held.
#[derive(Drop)]
pub struct SeenDrawing<'a> {
    drawing: &'a Drawing,
    rect: Rect,
    shown: &'a Shown,
}

impl<'a> Model for SeenDrawing<'a> {
    ghost use Rattle.session_rules.specs.Pending.{Pending as PendingOf};
    ghost use Rattle.session_core.specs.Seeing.{pending_with};

    ghost Value = { PendingOf };

    ghost view = { λ s. pending_with s.drawing.now s.rect s.shown.now };
}

impl<'a> SeenDrawing<'a> {
    /// The drawing.
    pub fn drawing(&self) -> &Drawing
        ensures { result.now ≡ self.now.drawing }
    {
        self.drawing
    }

    /// The rectangle that it touches.
    pub fn rect(&self) -> Rect
        ensures { result ≡ self.now.rect }
    {
        self.rect
    }

    /// The image that it draws.
    pub fn image(&self) -> Option<&LoadedImage>
        ensures { option_copied result ≡ self.now.image }
    {
        self.shown.image()
    }

    /// The glyphs of its run, in the run's order.
    pub fn glyphs(&self) -> &[LoadedGlyph]
        ensures { result.now ≡ self.now.glyphs }
    {
        self.shown.glyphs()
    }

    /// The same with another drawing over another rectangle.
    pub fn with_drawing<'b>(&'b self, drawing: &'b Drawing, rect: Rect) -> SeenDrawing<'b>
        ensures { result ≡ record self.now { drawing = drawing.now; rect = rect } }
    {
        SeenDrawing {
            drawing,
            rect,
            shown: self.shown,
        }
    }

    /// One more handle of it, which outlives the journal's: pixels and bits are shared, not copied.
    pub fn share(&self, alloc: Global) -> Result<Pending, OutOfMemory>
        ensures { IfOk result (λ p. p ≡ self.now) }
    {
        shared(alloc, self.drawing, self.rect, self.shown)
    }
}

/// The drawings of an entry where they lie, each with what its slots held. Those of a reaction aren't kept: they are made again.
#[derive(Drop)]
pub struct SeenDrawings<'a> {
    kept: &'a [Drawing],
    made: Option<Vec<Drawing>>,
    shown: ShownRow<'a>,
}

impl<'a> Model for SeenDrawings<'a> {
    ghost use Rattle.std.specs.Prelude.{◌≤◌, List, length};
    ghost use Rattle.session_rules.specs.Pending.{Pending as PendingOf};
    ghost use Rattle.session_core.specs.Showing.{all_shown, row_of};
    ghost use Rattle.session_core.specs.Seeing.{drawings_seen};

    ghost Value = { List PendingOf };

    ghost view = { λ s. all_shown (drawings_seen s.made s.kept.now) (row_of s.shown) };

    ghost invariant = { λ s. length (drawings_seen s.made s.kept.now) ≤ length (row_of s.shown) };
}

impl<'a> SeenDrawings<'a> {
    /// No drawings.
    pub fn none() -> SeenDrawings<'a>
        ensures { result ≡ [] }
    {
        SeenDrawings {
            kept: &[],
            made: None,
            shown: ShownRow::Kept(&[]),
        }
    }

    /// A drawing with what it shows.
    pub fn drawn(d: &'a Drawing, list: &'a ShownList) -> SeenDrawings<'a>
        requires { 1 ≤ length (shown_list list.now) }
        ensures { result ≡ all_shown (d.now ∷ []) (shown_list list.now) }
    {
        SeenDrawings {
            kept: slice::from_ref(d),
            made: None,
            shown: list.list(),
        }
    }

    /// The drawings of the board's reaction to an event on a surface of this size, which are made again, with what they show.
    pub fn reaction(
        alloc: Global,
        size: Size,
        list: &'a ShownList,
        e: Event,
    ) -> Result<SeenDrawings<'a>, OutOfMemory>
        requires size { IsTrue (is_session_size size.w size.h) }
        requires ready { IsBoardReady list.now }
        requires each { length (drawings_made size list.now e) ≤ length (shown_list list.now) }
        ensures { IfOk result (λ seen. seen ≡ all_shown (drawings_made size list.now e) (shown_list list.now)) }
    {
        match list {
            ShownList::Plain(board) => {
                let made = board.drawings(alloc, size, e)?;
                Ok(SeenDrawings {
                    kept: &[],
                    made: Some(made),
                    shown: list.list(),
                })
            }
            ShownList::Reaction(found) => {
                let made = found.board().drawings(alloc, size, e)?;
                Ok(SeenDrawings {
                    kept: &[],
                    made: Some(made),
                    shown: ShownRow::Kept(found.shown()),
                })
            }
            _ => Ok(SeenDrawings::none()),
        }
    }

    /// How many there are.
    pub fn len(&self) -> usize
        ensures { result ≡ length self.now }
    {
        listed(&self.made, self.kept).len()
    }

    /// The one behind the first i.
    pub fn get(&self, i: usize) -> SeenDrawing<'_>
        requires { i < length self.now }
        ensures { slice_get self.now i ≡ Some result }
    {
        seen_at(listed(&self.made, self.kept), self.shown.slice(), i)
    }
}

/// The drawing behind the first i, with what is kept of it.
fn seen_at<'b>(drawings: &'b [Drawing], shown: &'b [Shown], i: usize) -> SeenDrawing<'b>
    requires there { i < length drawings.now }
    requires each { length drawings.now ≤ length shown.now }
    ensures { slice_get (all_shown drawings.now shown.now) i ≡ Some result }
{
    let drawing = &drawings[i];
    let shown = &shown[i];
    SeenDrawing {
        drawing,
        rect: shown.rect(drawing),
        shown,
    }
}

/// The drawings that were made again, or else those that are kept.
fn listed<'b>(made: &'b Option<Vec<Drawing>>, kept: &'b [Drawing]) -> &'b [Drawing]
    ensures { result.now ≡ drawings_seen made.now kept.now }
{
    match made {
        Some(made) => made.as_slice(),
        None => kept,
    }
}
