//! Which drawings of viewers are accepted.

ghost use Rattle.std.specs.Prelude.{◌≡◌, ℕ, ◌≤◌, ◌+◌, ◌&&◌, true, not, nat_lt, nat_le};
ghost use Rattle.draw_ops.specs.Ranges.{is_drawing_in_range};
ghost use Rattle.draw_ops.specs.Fits.{broken_rule};
ghost use Rattle.session_rules.specs.declared.entry.Entry.TheVariants.{Draw};
ghost use Rattle.session_rules.specs.Journal.{Head, refusal_of};
ghost use Rattle.session_core.specs.About.{about_of};
ghost use Rattle.session_core.specs.Refusing.{IsRefused, KeepsRules};
ghost use Rattle.session_core.specs.Standing.{reached_of};

use crate::about::About;
use crate::faults::DrawRefusal;
use crate::fit::fit;
use crate::standing::{MOST_ENTRIES, Standing};
use draw_ops::{Drawing, valid};

/// The pixels of the images that drawings of viewers may load (profile).
const MOST_IMAGE_PIXELS: u64 = 67_108_864;

/// The rule that a drawing in a slot of the board breaks.
const SLOT_RULE: u8 = 5;

/// Whether a viewer may draw; else the first refusal.
pub fn may_draw(standing: &Standing, v: u32, d: &Drawing, about: About) -> Result<(), DrawRefusal>
    requires about { about ≡ about_of d.now.shape }
    requires range { is_drawing_in_range d.now ≡ true }
    requires few { standing.now.image_pixels ≤ 67108864 }
    ensures { (head : Head) (n : ℕ) → head.size ≡ standing.now.surface.size → IsRefused result (refusal_of head (reached_of standing.now n) (Draw v d.now)) }
{
    if !standing.holds(v) {
        let holder = standing.holder;
        return Err(DrawRefusal::NotHolder { holder });
    }
    keeps_rules(standing, d, about.is_boards)?;
    fit(&standing.surface, d)?;
    if is_full(standing, about.pixels) {
        return Err(DrawRefusal::JournalFull);
    }
    Ok(())
}

/// Whether a drawing keeps all rules, and names no slot of the board.
fn keeps_rules(standing: &Standing, d: &Drawing, is_boards: bool) -> Result<(), DrawRefusal>
    ensures { KeepsRules result (broken_rule standing.now.surface.size d.now) is_boards }
{
    if let Err(bad) = valid(d, standing.surface.size()) {
        return Err(DrawRefusal::BadDrawing { rule: bad.rule });
    }
    if is_boards {
        return Err(DrawRefusal::BadDrawing { rule: SLOT_RULE });
    }
    Ok(())
}

/// Whether the journal has no room for one more drawing, which loads an image of so many pixels.
fn is_full(standing: &Standing, pixels: u64) -> bool
    requires { standing.now.image_pixels ≤ 67108864 }
    ensures { result ≡ not (nat_lt standing.now.limited 1048576 && nat_le (standing.now.image_pixels + pixels) 67108864) }
{
    let left = MOST_IMAGE_PIXELS - u64::from(standing.image_pixels);
    !(standing.limited < MOST_ENTRIES && pixels <= left)
}
