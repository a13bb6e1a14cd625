//! Why bytes aren't heard.

/// Why bytes aren't heard.
#[derive(Clone, Copy, Debug, PartialEq, Eq)]
pub enum ConnFault {
    /// The stream is refused, by the refusal's number and the place in the stream of the first byte of the field that breaks its rule;
    /// the place stays at 2^64 - 1 once it has come there.
    Refused { k: u8, at: u64 },
    /// No memory was left for what had to be appended.
    OutOfMemory,
}
