//! The desks of viewers with a pointer cache and of those without, which have none and are told nothing.

ghost use Rattle.std.specs.Prelude.{◌≡◌, ℕ, List, [], length, IfOk, OnOk, OnErr};
ghost use Rattle.frame_rules.specs.Told.{told_after, key_at, pointer_bytes};
ghost use Rattle.pointer_share.specs.Desk.{IsDeskOf, IsNoted, noted_with, bytes_of};

use crate::desk::PointerDesk;
use crate::fault::DeskFault;
use caps_sets::Confirmed;
use session_core::Session;
use std::alloc::Global;
use wire_num::OutOfMemory;

/// The desk of a viewer that confirmed this and was told nothing; none where it has no pointer cells.
pub fn desk_for(alloc: Global, confirmed: &Confirmed) -> Result<Option<PointerDesk>, OutOfMemory>
    ensures { IfOk result (λ desk. IsDeskOf confirmed.now [] desk) }
{
    let cells = confirmed.pointer_cells();
    let desk = if confirmed.cautious {
        PointerDesk::cautious(alloc, cells)
    } else {
        PointerDesk::new(alloc, cells)
    };
    match desk {
        Ok(desk) => Ok(Some(desk)),
        Err(DeskFault::NoCache) => Ok(None),
        Err(DeskFault::OutOfMemory) => Err(OutOfMemory),
    }
}

/// Notes the pointer of a session's whole journal, where there is a desk. It takes no memory.
pub fn note(desk: &mut Option<PointerDesk>, session: &Session)
    ensures { desk.new ≡ noted_with (key_at session.now.head.size session.now.journal (length session.now.journal)) desk.old }
{
    if let Some(desk) = desk {
        desk.note(session);
    }
}

/// The packet that goes before a frame: it tells the viewer the pointer that was noted, where that isn't the one last told. After an `Err`
/// the desk is as before.
pub fn told_bytes(desk: &mut Option<PointerDesk>) -> Result<Option<Vec<u8>>, OutOfMemory>
    ensures told { (c : Confirmed) (told : List ℕ) (key : ℕ) → IsDeskOf c told desk.old → IsNoted desk.old key
        → IfOk result (λ packet. bytes_of packet ≡ pointer_bytes c told key) }
    ensures after { OnOk result ((c : Confirmed) (told : List ℕ) (key : ℕ) → IsDeskOf c told desk.old → IsNoted desk.old key → IsDeskOf c (told_after told key) desk.new) }
    ensures unchanged { OnErr result (desk.new ≡ desk.old) }
{
    match desk {
        None => Ok(None),
        Some(desk) => desk.packet(),
    }
}
