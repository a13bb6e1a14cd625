/// How watching a host ended.
#[derive(Clone, Copy, Debug, PartialEq, Eq)]
pub(crate) enum End {
    /// There were as many marks as were asked for.
    Marks,
    /// The host ended the connection before that.
    Farewell,
    /// The host's bytes ended before that.
    Closed,
    /// They are refused at this place.
    Refused { at: u64 },
    /// They couldn't be read further.
    ReadFault,
    /// What is due couldn't be written.
    WriteFault,
    /// No memory was left.
    OutOfMemory,
}
