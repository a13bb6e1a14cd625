//! How a connection ends, and how one of its sides does.

/// How a connection ended.
#[derive(Clone, Copy, Debug, PartialEq, Eq)]
pub enum ConnEnd {
    /// The client left, asked for the end, or sent no more between packets once it was ready.
    Left,
    /// Its stream is refused, by the refusal's number and the place of the first byte of the field that breaks its rule.
    Refused { k: u8, at: u64 },
    /// Its stream ended within a packet, or before it was ready.
    Truncated,
    /// No row has its name.
    NotInvited,
    /// As many viewers were present as may be.
    RoomFull,
    /// As many viewers had joined as may.
    JoinsSpent,
    /// A read failed.
    ReadFault,
    /// A write failed.
    WriteFault,
    /// What a frame shows couldn't be kept.
    NotStored,
    /// No memory was left.
    OutOfMemory,
}

/// How a side ended.
#[derive(Clone, Copy, Debug, PartialEq, Eq)]
pub enum SideEnd {
    /// It met the connection's end.
    Done { end: ConnEnd },
    /// It looked, and the other side had ended.
    Stopped,
}
