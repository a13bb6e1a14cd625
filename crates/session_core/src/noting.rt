//! What an entry's drawings touch and save into, as it is noted by the entry's number.

ghost use Rattle.std.specs.Prelude.{◌≡◌, ◌≤◌, None, length, All, IsTrue};
ghost use Rattle.px_core.specs.Rectangle.{clipped, is_session_size};
ghost use Rattle.px_core.specs.Tiles.{tiles_of};
ghost use Rattle.draw_ops.specs.Fits.{broken_rule};
ghost use Rattle.session_core.specs.About.{about_of};
ghost use Rattle.session_core.specs.Showing.{all_shown, rect_shown, shown_list};
ghost use Rattle.session_core.specs.Marking.{marks_in, noted, AreNoted};
ghost use Rattle.session_core.specs.Touching.{saves_into};

use crate::about::{About, about_drawing};
use crate::{Marks, Shown, ShownList};
use draw_ops::Drawing;
use px_core::{Size, clipped};

/// Notes what drawings touch and save into, each over the rectangle that it shows.
pub fn note_all(marks: &mut Marks, ds: &[Drawing], shown: &[Shown], size: Size, number: u64)
    requires size { IsTrue (is_session_size size.w size.h) }
    requires each { length ds.now ≤ length shown.now }
    requires rules { All (λ d. broken_rule size d ≡ None) ds.now }
    ensures { AreNoted size (all_shown ds.now shown.now) number marks.old marks.new }
{
    for i in 0..ds.len() {
        let d = &ds[i];
        note_one(marks, d, about_drawing(d), &shown[i], size, number);
    }
}

/// Notes what a drawing touches and saves into, over the rectangle that it shows.
pub fn note_one(
    marks: &mut Marks,
    d: &Drawing,
    about: About,
    shown: &Shown,
    size: Size,
    number: u64,
)
    requires size { IsTrue (is_session_size size.w size.h) }
    requires rules { broken_rule size d.now ≡ None }
    requires about { about ≡ about_of d.now.shape }
    ensures tiles { marks_in marks.new.tiles ≡ noted (tiles_of size (clipped (rect_shown d.now.shape shown.now) d.now.clip)) number (marks_in marks.old.tiles) }
    ensures slots { marks_in marks.new.slots ≡ noted (saves_into d.now.shape) number (marks_in marks.old.slots) }
{
    let rect = clipped(shown.rect_over(about.rect), d.clip);
    marks.note(rect, about.saves, size, number);
}

/// Notes what the drawings of a reaction touch and save into.
pub fn note_reaction(marks: &mut Marks, ds: &[Drawing], list: &ShownList, size: Size, number: u64)
    requires size { IsTrue (is_session_size size.w size.h) }
    requires each { length ds.now ≤ length (shown_list list.now) }
    requires rules { All (λ d. broken_rule size d ≡ None) ds.now }
    ensures { AreNoted size (all_shown ds.now (shown_list list.now)) number marks.old marks.new }
{
    let row = list.list();
    note_all(marks, ds, row.slice(), size, number);
}
