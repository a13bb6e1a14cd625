//! Saved rectangles, which have no clip: `save SLOT X Y W H` and `restore SLOT X Y`.
ghost use Rattle.std.specs.Prelude.{◌≡◌};
ghost use Rattle.script_rules.specs.Fields.{without_clip, save_by, restore_by};
ghost use Rattle.script_lines.specs.Reading.{drawing_of, save_fields, restore_fields};

use crate::area::{next_point, next_rect, unclipped};
use crate::field::next_small;
use draw_ops::{Drawing, Shape};
use line_text::Parts;

/// `save SLOT X Y W H`.
pub(crate) fn read_save(words: &mut Parts<'_>) -> Option<Drawing>
    ensures { result ≡ drawing_of without_clip save_fields save_by words.old }
{
    let slot = next_small(words)?;
    let rect = next_rect(words)?;
    unclipped(Shape::Save { slot, rect }, words)
}

/// `restore SLOT X Y`.
pub(crate) fn read_restore(words: &mut Parts<'_>) -> Option<Drawing>
    ensures { result ≡ drawing_of without_clip restore_fields restore_by words.old }
{
    let slot = next_small(words)?;
    let corner = next_point(words)?;
    unclipped(
        Shape::Restore {
            slot,
            x: corner.x,
            y: corner.y,
        },
        words,
    )
}
