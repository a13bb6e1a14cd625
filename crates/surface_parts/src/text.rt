//! Texts, one glyph after another.
ghost use Rattle.std.specs.Prelude.{◌≡◌, ℕ, ◌≤◌, None, length};
ghost use Rattle.px_core.specs.Rectangle.{in_clip};
ghost use Rattle.draw_ops.specs.Drawing.{writing};
ghost use Rattle.draw_ops.specs.Fits.{clip_rule, glyph_rule};
ghost use Rattle.draw_ops.specs.Formulas.{glyph_area, picture_after, solid};
ghost use Rattle.px_core.specs.Picture.{both, painted};
ghost use Rattle.rop3_core.specs.Palette.{session_colors};
ghost use Rattle.surface_parts.specs.Bits.{IsPenNear};
ghost use Rattle.surface_parts.specs.Parts.{IsCanvas};
ghost use Rattle.surface_parts.specs.Surfaces.{AllInSlots};
ghost use Rattle.surface_parts.specs.Pens.{IsPenAtStart};
ghost use Rattle.surface_parts.specs.Texts.{glyphs_held};

use crate::glyphs::draw_glyph;
use crate::slots::Slots;
use crate::window::Window;

/// The font, the colour and the pen's first place of a text.
#[derive(Clone, Copy)]
pub struct Script {
    pub font: u8,
    pub color: u32,
    pub x: i32,
    pub y: i32,
}

/// Draws a run of glyphs; each one's delta moves the pen to the right before it.
pub fn write_run(
    pixels: &mut [u32],
    window: Window,
    slots: &Slots,
    script: Script,
    run: &[(u8, u8)],
)
    requires canvas { IsCanvas window.size pixels.old }
    requires clip { clip_rule window.size window.clip ≡ None }
    requires glyphs { AllInSlots (λ glyph. glyph_rule glyph.content ≡ None) slots.now.glyphs }
    requires pen { IsPenAtStart script.x script.y }
    requires short { length run.now ≤ 64 }
    ensures { pixels.new ≡ picture_after window.size (in_clip window.clip)
        (writing (glyphs_held slots.now script.font) script.x script.y script.color run.now) pixels.old }
{
    let mut moved = 0;
    for pair in run {
        moved += u32::from(pair.1);
        let pen = Script {
            x: script.x + moved as i32,
            ..script
        };
        draw_code(pixels, window, slots, pen, pair.0);
    }
}

/// Draws the glyph of a code where the pen stands; there is nothing to draw where the font has none.
fn draw_code(pixels: &mut [u32], window: Window, slots: &Slots, pen: Script, code: u8)
    requires canvas { IsCanvas window.size pixels.old }
    requires clip { clip_rule window.size window.clip ≡ None }
    requires glyphs { AllInSlots (λ glyph. glyph_rule glyph.content ≡ None) slots.now.glyphs }
    requires pen { IsPenNear pen.x pen.y }
    ensures { pixels.new ≡ painted window.size (both (in_clip window.clip) (glyph_area (glyphs_held slots.now pen.font code) pen.x pen.y))
        (solid session_colors pen.color) pixels.old }
{
    match slots.glyph(pen.font, code) {
        None => {}
        Some(glyph) => draw_glyph(pixels, window, glyph.content(), pen),
    }
}
