/// Why a take isn't encoded.
#[derive(Clone, Copy, Debug, PartialEq, Eq)]
pub enum SendFault {
    /// An earlier frame wasn't finished, so what the client keeps isn't known.
    Spent,
    /// No memory was left.
    OutOfMemory,
}
