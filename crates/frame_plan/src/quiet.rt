//! Entries that drew nothing.
ghost use Rattle.std.specs.Prelude.{◌≡◌, ◌+◌, ◌<◌, ◌≤◌, [], length};
ghost use Rattle.session_rules.specs.Pending.{pending_between};

use session_core::Session;

/// The end of the entries from a number on that drew nothing: the first one that drew, or the journal's end. It is found by halves: in some
/// twenty looks, however many they are.
pub(crate) fn quiet_end(session: &Session, from: u64) -> u64
    requires { from ≤ length session.now.journal }
    ensures above { from ≤ result }
    ensures within { result ≤ length session.now.journal }
    ensures quiet { pending_between session.now.head.size session.now.journal from result ≡ [] }
    ensures drew { result < length session.now.journal → 1 ≤ length (pending_between session.now.head.size session.now.journal result (result + 1)) }
{
    let count = session.drawings_before(from);
    let mut quiet = from;
    let mut end = session.length();
    while quiet < end {
        let middle = end - (end - quiet) / 2;
        if session.drawings_before(middle) == count {
            quiet = middle;
        } else {
            end = middle - 1;
        }
    }
    quiet
}
