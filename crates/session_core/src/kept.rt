//! An entry of the journal with what a take needs of it beside the entry itself.

ghost use Rattle.std.specs.Prelude.{◌≡◌, ◌+◌, ◌≤◌};
ghost use Rattle.std.specs.Bool.{OnTrue};
ghost use Rattle.std.specs.Vec.{vec_len, vec_capacity};

use crate::ShownList;
use session_rules::Entry;

/// An entry, the number of the drawings before it, and what each of the entry's drawings shows, with the board that an input found.
#[derive(Drop)]
pub struct Kept {
    pub entry: Entry,
    pub first: u64,
    pub shown: ShownList,
}

/// Makes room for so many more entries; whether there was memory for it.
pub fn make_room(kept: &mut Vec<Kept>, more: usize) -> bool
    ensures items { kept.new.items ≡ kept.old.items }
    ensures length { vec_len kept.new ≡ vec_len kept.old }
    ensures room { OnTrue result (vec_len kept.new + more ≤ vec_capacity kept.new) }
    ensures capacity { vec_capacity kept.old ≤ vec_capacity kept.new }
{
    kept.reserve(more).is_ok()
}
