//! How long a connection waits for its other side: a gate's for its client, and one that was dialled for its host.

/// How long a link waits for its other side, in milliseconds. One that takes longer is a fault of that link alone.
#[derive(Clone, Copy)]
pub struct Limits {
    /// For the first bytes.
    pub first_read: u64,
    /// From these until the reader is told to lift its limit, however many bytes come in between; where there is none, and
    /// afterwards, the other side may say nothing for as long as it likes.
    pub sequence: Option<u64>,
    /// For one that takes nothing of what is written to it.
    pub write: u64,
}

/// The limits of a gate, and of a dial, that isn't given others (profile).
pub const LIMITS: Limits = Limits {
    first_read: 30_000,
    sequence: Some(60_000),
    write: 60_000,
};
