//! A drawing of the journal with what its slots held at its place.

ghost use Rattle.std.specs.Prelude.{◌≡◌, IfOk, option_copied};
ghost use Rattle.session_core.specs.Seeing.{pending_with};

use crate::OutOfMemory;
use crate::sharing::share_drawing;
use crate::shown::Shown;
use draw_ops::Drawing;
use px_core::Rect;
use std::alloc::Global;
use std::marker::Model;
use surface_parts::{LoadedBrush, LoadedGlyph, LoadedImage};

/// A drawing, the rectangle that it touches, and the image, the brush and the glyphs that it draws, as its slots held them.
#[derive(Drop)]
pub struct Pending {
    drawing: Drawing,
    rect: Rect,
    shown: Shown,
}

impl Model for Pending {
    ghost use Rattle.session_rules.specs.Pending.{Pending as PendingOf};
    ghost use Rattle.session_core.specs.Seeing.{pending_with};

    ghost Value = { PendingOf };

    ghost view = { λ p. pending_with p.drawing p.rect p.shown };
}

impl Pending {
    /// The drawing.
    pub fn drawing(&self) -> &Drawing
        ensures { result.now ≡ self.now.drawing }
    {
        &self.drawing
    }

    /// The rectangle that it touches.
    pub fn rect(&self) -> Rect
        ensures { result ≡ self.now.rect }
    {
        self.rect
    }

    /// The image that it draws.
    pub fn image(&self) -> Option<&LoadedImage>
        ensures { option_copied result ≡ self.now.image }
    {
        self.shown.image()
    }

    /// The brush that it draws with.
    pub fn brush(&self) -> Option<&LoadedBrush>
        ensures { option_copied result ≡ self.now.brush }
    {
        self.shown.brush()
    }

    /// The glyphs of its run, in the run's order.
    pub fn glyphs(&self) -> &[LoadedGlyph]
        ensures { result.now ≡ self.now.glyphs }
    {
        self.shown.glyphs()
    }
}

/// One more handle of a drawing with what it shows: its pixels and bits are shared, not copied.
pub fn shared(alloc: Global, d: &Drawing, rect: Rect, shown: &Shown) -> Result<Pending, OutOfMemory>
    ensures { IfOk result (λ p. p ≡ pending_with d.now rect shown.now) }
{
    let drawing = share_drawing(alloc, d)?;
    let shown = shown.share()?;
    Ok(Pending {
        drawing,
        rect,
        shown,
    })
}
