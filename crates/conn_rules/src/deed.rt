//! What a share PDU asks for.

use caps_sets::Confirmed;
use share_pdu::Final;

/// What a share PDU asks for, where it is expected.
#[derive(Clone, Copy, PartialEq, Eq)]
pub enum Deed {
    /// Nothing: it is dropped.
    Nothing,
    /// That what the client confirms is taken.
    Confirm(Confirmed),
    /// This answer of the finalisation, to a client that confirmed this.
    Answer { confirmed: Confirmed, which: Final },
    /// That the events or the areas found in it are told.
    Tell,
    /// That output stops, or goes on.
    Suppress(bool),
    /// The end.
    Shutdown,
}
