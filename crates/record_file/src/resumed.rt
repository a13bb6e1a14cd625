//! A session that goes on where its record ends.

ghost use Rattle.std.specs.Prelude.{◌≡◌, ℕ, List};
ghost use Rattle.record_file.specs.declared.told.Told.{Told};
ghost use Rattle.record_file.specs.Standing.{IsReading};
ghost use Rattle.record_file.specs.Resuming.{IsResumed};

use crate::course::Course;
use crate::playing::Playing;
use session_core::Session;

/// A session that goes on where the whole entries of its record end.
#[derive(Drop)]
pub struct Resumed {
    pub session: Session,
    /// How many bytes the head and these entries have.
    pub place: u64,
    /// Whether bytes stand behind them, which are less than a whole entry.
    pub more: bool,
}

/// The session of a reading in which no fault was found, where the head is whole.
pub fn session_of(course: Course) -> Option<Resumed>
    ensures { (stream : List ℕ) (told : Told) → IsReading stream course told → IsResumed result stream }
{
    let Course {
        part,
        missing: _,
        playing,
    } = course;
    let more = !part.is_empty();
    match playing {
        Some(playing) => Some(with_more(playing, more)),
        None => None,
    }
}

/// The session of a replay, and whether bytes stand behind its entries.
fn with_more(playing: Playing, more: bool) -> Resumed
    ensures session { result.session ≡ playing.session }
    ensures place { result.place ≡ playing.place }
    ensures more { result.more ≡ more }
{
    let Playing {
        session,
        rows: _,
        place,
    } = playing;
    Resumed {
        session,
        place,
        more,
    }
}
