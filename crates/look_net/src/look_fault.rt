/// Why a host's bytes are refused, or no more of them are read.
#[derive(Clone, Copy, Debug, PartialEq, Eq)]
pub enum LookFault {
    /// A field isn't the one that is awaited, or what is shown is refused: its place in bytes from the stream's first one, at most 2^64 - 1.
    Refused { at: u64 },
    /// No memory was left.
    OutOfMemory,
}
