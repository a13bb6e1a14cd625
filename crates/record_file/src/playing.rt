//! A session that is replayed entry by entry.

ghost use Rattle.std.specs.Prelude.{◌≡◌, ◌≤◌, ◌<◌, ◌^◌, IfOk, OnOk, IsTrue};
ghost use Rattle.px_core.specs.Rectangle.{is_session_size};
ghost use Rattle.session_core.specs.Heads.{rows_of};
ghost use Rattle.session_core.specs.SessionModel.{AreInvited};
ghost use Rattle.record_file.specs.Reads.{IsColored, head_of};
ghost use Rattle.record_file.specs.Told.{IsFirstTold};
ghost use Rattle.record_file.specs.Standing.{IsSound, IsKept, HasBegun, ReplaysOne};

use crate::play::play;
use crate::read_head::RecordHead;
use crate::told::{Told, count};
use crate::{Entry, Invite, OutOfMemory, ReplayFault};
use session_core::Session;
use std::alloc::Global;

/// A session that is replayed, up to a place of its record.
#[derive(Drop)]
pub struct Playing {
    pub session: Session,
    /// The session's rows.
    pub rows: Vec<Invite>,
    /// How many bytes the head and the replayed entries have.
    pub place: u64,
}

/// A session of a head that has so many bytes.
pub fn begin(
    alloc: Global,
    told: &mut Told,
    head: RecordHead,
    place: usize,
) -> Result<Playing, OutOfMemory>
    requires size { IsTrue (is_session_size head.size.w head.size.h) }
    requires rows { AreInvited (rows_of head.rows.items) }
    requires place { place < 2 ^ 63 }
    ensures sound { IfOk result IsSound }
    ensures stop { told.new.stop ≡ told.old.stop }
    ensures begun { IfOk result (HasBegun (head_of head) place) }
    ensures kept { IsFirstTold told.old → IfOk result (λ playing. IsKept playing told.new) }
{
    let session = Session::new(alloc, head.size, &head.rows)?;
    session.recall_legal();
    told.size = Some(head.size);
    count(told, &session)?;
    Ok(Playing {
        session,
        rows: head.rows,
        place: place as u64,
    })
}

/// Replays an entry that has so many bytes. Where it isn't legal, what is told stays.
pub fn replay_entry(
    playing: &mut Playing,
    told: &mut Told,
    entry: Entry,
    used: usize,
) -> Result<(), ReplayFault>
    requires sound { IsSound playing.old }
    requires colors { IsColored entry }
    requires used { used ≤ 65537 }
    ensures sound { OnOk result (IsSound playing.new) }
    ensures stop { told.new.stop ≡ told.old.stop }
    ensures replayed { IsKept playing.old told.old → ReplaysOne result entry used playing.old told.old playing.new told.new }
{
    if !play(&mut playing.session, &playing.rows, entry)? {
        return Err(ReplayFault::Illegal { k: told.length });
    }
    playing.session.recall_legal();
    playing.place += used as u64;
    count(told, &playing.session)?;
    Ok(())
}
