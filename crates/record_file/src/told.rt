//! What a replay tells of the entries that it has replayed.

ghost use Rattle.std.specs.Prelude.{◌≡◌, length, IfOk, OnOk};
ghost use Rattle.session_rules.specs.Journal.{picture_after_entries};
ghost use Rattle.record_file.specs.Told.{HasCounted};

use crate::OutOfMemory;
use px_core::{Rect, Size};
use session_core::Session;

/// What a replay tells: it stays where an entry isn't legal, whatever the session then is.
#[derive(Drop)]
pub struct Told {
    /// After how many entries the picture is kept.
    pub stop: u64,
    /// The session's size in pixels, once the head is whole.
    pub size: Option<Size>,
    /// How many entries were replayed.
    pub length: u64,
    /// The pixels after `stop` entries, row by row from the top, once as many were replayed.
    pub picture: Option<Vec<u32>>,
}

/// Counts the entries of a session's journal, and keeps the picture where it is to be kept after as many.
pub fn count(told: &mut Told, session: &Session) -> Result<(), OutOfMemory>
    ensures stop { told.new.stop ≡ told.old.stop }
    ensures counted { OnOk result (HasCounted session.now told.old told.new) }
{
    told.length = session.length();
    if told.length != told.stop {
        return Ok(());
    }
    let pixels = pixels_of(session)?;
    told.picture = Some(pixels);
    Ok(())
}

/// The pixels of a session's surface, row by row from the top.
fn pixels_of(session: &Session) -> Result<Vec<u32>, OutOfMemory>
    ensures { IfOk result (λ all. all.items ≡ picture_after_entries session.now.head.size session.now.journal (length session.now.journal)) }
{
    session.recall_legal();
    let size = session.size();
    session.look().pixels_of(Rect {
        x: 0,
        y: 0,
        w: size.w,
        h: size.h,
    })
}
