//! Why a cache isn't made, or isn't used.

/// Why a cache isn't made.
#[derive(Clone, Copy, Debug, PartialEq, Eq)]
pub enum CacheFault {
    /// The cache would have no entries.
    Unusable,
    /// No memory was left.
    OutOfMemory,
}
