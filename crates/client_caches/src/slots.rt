//! Slots by their numbers.

ghost use Rattle.std.specs.Prelude.{◌≡◌, IfOk, option_copied};
ghost use Rattle.draw_ops.specs.Slots.{empty_slots, filled_slot, lookup};

use std::alloc::Global;
use wire_num::OutOfMemory;

/// So many empty slots.
pub fn no_slots<T: Drop>(alloc: Global, count: usize) -> Result<Vec<Option<T>>, OutOfMemory>
    ensures { IfOk result (λ slots. slots.items ≡ empty_slots count) }
{
    let mut slots = Vec::with_capacity(alloc, count)?;
    for _ in 0..count {
        slots.push(None)?;
    }
    Ok(slots)
}

/// Fills a slot; there is none past the last.
pub fn set_slot<T: Drop>(slots: &mut Vec<Option<T>>, slot: usize, content: T)
    ensures { slots.new.items ≡ filled_slot slot content slots.old.items }
{
    if slot < slots.len() {
        slots[slot] = Some(content);
    }
}
