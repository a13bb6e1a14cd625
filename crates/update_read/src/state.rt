use crate::BodyForm;
use wire_num::Range;

/// An update of a whole packet: how it came, the part of the packet that is its body, and the offset of what is yet to be looked at.
#[derive(Clone, Copy, Debug, PartialEq, Eq)]
pub struct Found {
    pub form: BodyForm,
    pub body: Range,
    pub behind: usize,
}

/// How far a packet has come.
#[derive(Clone, Copy, Debug, PartialEq, Eq)]
pub enum State {
    /// It goes on, or hasn't begun.
    Open,
    /// It is whole, and this update of it is told.
    Update(Found),
    /// It is whole, and all its updates were told.
    Ended,
    /// It is refused at that place of the stream.
    Refused(u64),
}
