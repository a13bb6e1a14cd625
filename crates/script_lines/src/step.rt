//! What a viewer's line asks for: a row for each first word.
ghost use Rattle.std.specs.Prelude.{◌≡◌, ◌∷◌, Ok, IfOk, IfSome};
ghost use Rattle.std.specs.Option.{option_map, option_and_then};
ghost use Rattle.script_lines.specs.Keywords.{step_read, step_in_words, alone_of, alone_read, step_alone, plain_drawing, stored_drawing};
ghost use Rattle.script_lines.specs.Lines.{IsStepInRange};

use crate::OutOfMemory;
use crate::area::last_rect;
use crate::event::{read_char, read_key, read_mouse};
use crate::keyword::{Keyword, keyword_of};
use crate::load::{read_brush, read_glyph, read_image};
use crate::raster::{read_blit, read_blit3, read_copy, read_dst, read_fill, read_line, read_pat};
use crate::slot::{read_restore, read_save};
use crate::text::read_text;
use draw_ops::Drawing;
use line_text::Parts;
use px_core::Rect;
use session_rules::Event;
use std::alloc::Global;

/// What a viewer asks for.
#[derive(Debug, Drop)]
pub enum ViewerStep {
    /// To leave.
    Leave,
    /// A frame.
    Take,
    /// That no frames come, or that they come again.
    Suppress { stop: bool },
    /// The tiles of a rectangle.
    Refresh { rect: Rect },
    /// An input event.
    Input { event: Event },
    /// A drawing.
    Draw { drawing: Drawing },
}

/// The step that a word and the words behind it ask for, where they are one of the forms.
pub(crate) fn read_step(
    alloc: Global,
    word: &[u8],
    words: &mut Parts<'_>,
) -> Result<Option<ViewerStep>, OutOfMemory>
    ensures step { IfOk result (λ step. step ≡ step_in_words (word.now ∷ words.old)) }
    ensures range { IfOk result (λ step. IfSome step IsStepInRange) }
{
    match keyword_of(word) {
        Some(keyword) => read_rest(alloc, keyword, words),
        None => Ok(None),
    }
}

/// The step that the words after a keyword ask for. Each arm hands on what its form makes, so that only the one that is taken needs room
/// for a step. It is compiled into its one caller, since else the step is copied once more.
#[inline(always)]
fn read_rest(
    alloc: Global,
    keyword: Keyword,
    words: &mut Parts<'_>,
) -> Result<Option<ViewerStep>, OutOfMemory>
    ensures { IfOk result (λ step. step ≡ step_read keyword words.old) }
{
    match keyword {
        Keyword::Leave | Keyword::Take | Keyword::Suppress | Keyword::Allow => {
            alone_step(keyword, words)
        }
        Keyword::Refresh => refresh(last_rect(words)),
        Keyword::Key => input(read_key(words)),
        Keyword::Char => input(read_char(words)),
        Keyword::Mouse => input(read_mouse(words)),
        Keyword::Text | Keyword::Image | Keyword::Brush | Keyword::Glyph => {
            stored_step(alloc, keyword, words)
        }
        Keyword::Fill
        | Keyword::Dst
        | Keyword::Pat
        | Keyword::Copy
        | Keyword::Blit
        | Keyword::Blit3
        | Keyword::Line
        | Keyword::Save
        | Keyword::Restore => plain_step(keyword, words),
    }
}

/// The step of a keyword that stands alone.
fn alone_step(keyword: Keyword, words: &mut Parts<'_>) -> Result<Option<ViewerStep>, OutOfMemory>
    ensures { result ≡ Ok (alone_read keyword words.old) }
{
    match step_alone(keyword) {
        Some(step) => Ok(alone(step, words)),
        None => Ok(None),
    }
}

/// What a keyword asks for that stands alone, where it may.
fn step_alone(keyword: Keyword) -> Option<ViewerStep>
    ensures { result ≡ step_alone keyword }
{
    match keyword {
        Keyword::Leave => Some(ViewerStep::Leave),
        Keyword::Take => Some(ViewerStep::Take),
        Keyword::Suppress => Some(ViewerStep::Suppress { stop: true }),
        Keyword::Allow => Some(ViewerStep::Suppress { stop: false }),
        _ => None,
    }
}

/// A step whose word stands alone.
fn alone(step: ViewerStep, words: &mut Parts<'_>) -> Option<ViewerStep>
    ensures { result ≡ alone_of step words.old }
{
    match words.next_part() {
        Some(_) => None,
        None => Some(step),
    }
}

/// A refresh of a rectangle.
fn refresh(rect: Option<Rect>) -> Result<Option<ViewerStep>, OutOfMemory>
    ensures { result ≡ Ok (option_map (λ r. ViewerStep.Refresh r) rect) }
{
    match rect {
        Some(rect) => Ok(Some(ViewerStep::Refresh { rect })),
        None => Ok(None),
    }
}

/// An input event.
fn input(event: Option<Event>) -> Result<Option<ViewerStep>, OutOfMemory>
    ensures { result ≡ Ok (option_map (λ e. ViewerStep.Input e) event) }
{
    match event {
        Some(event) => Ok(Some(ViewerStep::Input { event })),
        None => Ok(None),
    }
}

/// A drawing whose form has no glyphs, pixels or rows.
fn plain_step(keyword: Keyword, words: &mut Parts<'_>) -> Result<Option<ViewerStep>, OutOfMemory>
    ensures { result ≡ Ok (option_map (λ d. ViewerStep.Draw d) (plain_drawing keyword words.old)) }
{
    draw(read_plain(keyword, words))
}

/// The drawing that the words after a keyword ask for, where its form has no glyphs, pixels or rows.
fn read_plain(keyword: Keyword, words: &mut Parts<'_>) -> Option<Drawing>
    ensures { result ≡ plain_drawing keyword words.old }
{
    match keyword {
        Keyword::Fill => read_fill(words),
        Keyword::Dst => read_dst(words),
        Keyword::Pat => read_pat(words),
        Keyword::Copy => read_copy(words),
        Keyword::Blit => read_blit(words),
        Keyword::Blit3 => read_blit3(words),
        Keyword::Line => read_line(words),
        Keyword::Save => read_save(words),
        Keyword::Restore => read_restore(words),
        _ => None,
    }
}

/// A drawing whose form has glyphs, pixels or rows.
fn stored_step(
    alloc: Global,
    keyword: Keyword,
    words: &mut Parts<'_>,
) -> Result<Option<ViewerStep>, OutOfMemory>
    ensures { IfOk result (λ step. step ≡ option_map (λ d. ViewerStep.Draw d) (stored_drawing keyword words.old)) }
{
    draw(read_stored(alloc, keyword, words)?)
}

/// The drawing that the words after a keyword ask for, where its form has glyphs, pixels or rows.
fn read_stored(
    alloc: Global,
    keyword: Keyword,
    words: &mut Parts<'_>,
) -> Result<Option<Drawing>, OutOfMemory>
    ensures { IfOk result (λ d. d ≡ stored_drawing keyword words.old) }
{
    match keyword {
        Keyword::Text => read_text(alloc, words),
        Keyword::Image => read_image(alloc, words),
        Keyword::Brush => read_brush(alloc, words),
        Keyword::Glyph => read_glyph(alloc, words),
        _ => Ok(None),
    }
}

/// A drawing.
fn draw(drawing: Option<Drawing>) -> Result<Option<ViewerStep>, OutOfMemory>
    ensures { result ≡ Ok (option_map (λ d. ViewerStep.Draw d) drawing) }
{
    match drawing {
        Some(drawing) => Ok(Some(ViewerStep::Draw { drawing })),
        None => Ok(None),
    }
}
