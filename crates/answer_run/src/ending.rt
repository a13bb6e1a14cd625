//! How a client's service ends.

/// How a client's service ends.
#[derive(Clone, Copy, Debug, PartialEq, Eq)]
pub enum Ending {
    /// The client left, or sent no more, between packets once it was ready.
    Left,
    /// It asked for the end.
    AskedForEnd,
    /// Its stream is refused, by the refusal's number and the place of the first byte of the field that breaks its rule.
    Refused { k: u8, at: u64 },
    /// Its stream ended within a packet, or before it was ready.
    Truncated,
    /// No row has its name.
    NotInvited,
}
