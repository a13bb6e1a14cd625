//! What a client's stream says.

use caps_sets::Confirmed;
use info_lic::Name;
use input_pdu::Event;
use px_core::Rect;

/// What a client's stream says, one thing after the other.
#[derive(Clone, Copy, PartialEq, Eq)]
pub enum ConnStep {
    /// The user's name, by the Client Info PDU.
    Named(Name),
    /// The client may be sent frames, by what it confirmed: its Font List was answered.
    Ready(Confirmed),
    /// An input event.
    Event(Event),
    /// An area that is to be sent again.
    Refresh(Rect),
    /// Whether output stops.
    Suppress(bool),
    /// The client asks for the end.
    Shutdown,
    /// The client has left.
    Bye,
    /// A packet that follows Ready has ended.
    Packet,
}
