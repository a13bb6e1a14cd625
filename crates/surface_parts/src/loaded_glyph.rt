ghost use Rattle.std.specs.Prelude.{◌≡◌, IfOk};

use crate::OutOfMemory;
use draw_ops::Glyph;
use std::alloc::Global;
use std::marker::Model;
use std::sync::Arc;

/// A glyph in its slot, with the number of the drawing that loaded it.
///
/// Several handles may share both; a handle is as small as a pointer, since a text keeps one for each of its signs.
#[derive(Debug, Drop)]
pub struct LoadedGlyph {
    loaded: Arc<NumberedGlyph>,
}

impl Model for LoadedGlyph {
    ghost use Rattle.std.specs.Arc.{arc_value};
    ghost use Rattle.draw_ops.specs.Content.{GlyphOf};
    ghost use Rattle.draw_ops.specs.Slots.{Loaded};

    ghost Value = { Loaded GlyphOf };

    ghost view = { λ s. arc_value s.loaded };
}

/// What the handles share.
#[derive(Debug, Drop)]
struct NumberedGlyph {
    number: u64,
    content: Glyph,
}

impl Model for NumberedGlyph {
    ghost use Rattle.draw_ops.specs.Content.{GlyphOf};
    ghost use Rattle.draw_ops.specs.Slots.{Loaded};

    ghost Value = { Loaded GlyphOf };

    ghost view = { λ s. record { number = s.number; content = s.content } };
}

impl LoadedGlyph {
    /// What a drawing of this number loads.
    pub fn new(alloc: Global, number: u64, content: Glyph) -> Result<LoadedGlyph, OutOfMemory>
        ensures { IfOk result (λ glyph. glyph ≡ record { number = number; content = content }) }
    {
        let loaded = Arc::new(alloc, NumberedGlyph { number, content })?;
        Ok(LoadedGlyph { loaded })
    }

    /// The number of the drawing that loaded it, counted from 1.
    pub fn number(&self) -> u64
        ensures { result ≡ self.now.number }
    {
        self.loaded.number
    }

    /// One more handle of it; no bit is copied.
    pub fn share(&self) -> Result<LoadedGlyph, OutOfMemory>
        ensures { IfOk result (λ glyph. glyph ≡ self.now) }
    {
        let loaded = Arc::try_clone(&self.loaded)?;
        Ok(LoadedGlyph { loaded })
    }

    /// The glyph.
    pub fn content(&self) -> &Glyph
        ensures { result.now ≡ self.now.content }
    {
        &self.loaded.content
    }
}
