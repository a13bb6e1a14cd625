//! Which drawings are refused on a surface, and by which rule (profile).
ghost use Rattle.std.specs.Prelude.{◌≡◌, IfOk, IfErr, Some, None};
ghost use Rattle.draw_ops.specs.Fits.{broken_rule};

use crate::fault::BadDrawing;
use crate::rules::{
    clip_rule, code_rule, codes_rule, copied_rule, first_broken, glyph_rule, image_rule,
    limit_rule, line_rule, no_clip_rule, place_rule, rect_rule, run_rule, saved_rule,
};
use crate::shape::{Drawing, Shape};
use px_core::Size;

/// The last slot of an image.
const LAST_IMAGE: u8 = 255;

/// The last slot of a brush.
const LAST_BRUSH: u8 = 63;

/// The last slot of a saved block.
const LAST_BLOCK: u8 = 15;

/// The last font.
const LAST_FONT: u8 = 3;

/// The last code of a glyph.
const LAST_CODE: u8 = 255;

/// Whether a drawing keeps all rules on a surface of a size; else the least rule that it breaks. It takes no memory.
pub fn valid(d: &Drawing, s: Size) -> Result<(), BadDrawing>
    ensures ok { IfOk result (λ u. broken_rule s d.now ≡ None) }
    ensures refused { IfErr result (λ bad. broken_rule s d.now ≡ Some bad.rule) }
{
    match broken_rule(d, s) {
        None => Ok(()),
        Some(rule) => Err(BadDrawing { rule }),
    }
}

/// The least rule that a drawing breaks on a surface of a size.
fn broken_rule(d: &Drawing, s: Size) -> Option<u8>
    ensures { result ≡ broken_rule s d.now }
{
    let clip = d.clip;
    match &d.shape {
        Shape::Fill { rect, .. } => first_broken(&[rect_rule(*rect), clip_rule(s, clip)]),
        Shape::Dst { rect, rop } => first_broken(&[
            rect_rule(*rect),
            clip_rule(s, clip),
            code_rule(false, false, *rop),
        ]),
        Shape::Pat { rect, rop, brush } => first_broken(&[
            rect_rule(*rect),
            clip_rule(s, clip),
            code_rule(true, false, *rop),
            limit_rule(LAST_BRUSH, *brush),
        ]),
        Shape::Copy { rect, rop, sx, sy } => first_broken(&[
            rect_rule(*rect),
            clip_rule(s, clip),
            code_rule(false, true, *rop),
            copied_rule(s, *rect, *sx, *sy),
        ]),
        Shape::Blit {
            rect,
            rop,
            image,
            ..
        } => first_broken(&[
            rect_rule(*rect),
            clip_rule(s, clip),
            code_rule(false, true, *rop),
            limit_rule(LAST_IMAGE, *image),
        ]),
        Shape::Blit3 {
            rect,
            rop,
            image,
            brush,
            ..
        } => first_broken(&[
            rect_rule(*rect),
            clip_rule(s, clip),
            code_rule(true, true, *rop),
            limit_rule(LAST_IMAGE, *image),
            limit_rule(LAST_BRUSH, *brush),
        ]),
        Shape::Text {
            x,
            y,
            font,
            run,
            ..
        } => first_broken(&[
            place_rule(*x, *y),
            clip_rule(s, clip),
            limit_rule(LAST_FONT, *font),
            codes_rule(run.pairs()),
            run_rule(run.pairs()),
        ]),
        Shape::Line { x0, y0, x1, y1, .. } => {
            first_broken(&[clip_rule(s, clip), line_rule(*x0, *y0, *x1, *y1)])
        }
        Shape::Save { slot, rect } => first_broken(&[
            rect_rule(*rect),
            no_clip_rule(clip),
            limit_rule(LAST_BLOCK, *slot),
            saved_rule(s, *rect),
        ]),
        Shape::Restore { slot, x, y } => first_broken(&[
            place_rule(*x, *y),
            no_clip_rule(clip),
            limit_rule(LAST_BLOCK, *slot),
        ]),
        Shape::LoadImage { slot, image } => first_broken(&[
            no_clip_rule(clip),
            limit_rule(LAST_IMAGE, *slot),
            image_rule(image),
        ]),
        Shape::LoadBrush { slot, .. } => {
            first_broken(&[no_clip_rule(clip), limit_rule(LAST_BRUSH, *slot)])
        }
        Shape::LoadGlyph { font, code, glyph } => first_broken(&[
            no_clip_rule(clip),
            limit_rule(LAST_FONT, *font),
            limit_rule(LAST_CODE, *code),
            glyph_rule(glyph),
        ]),
    }
}
