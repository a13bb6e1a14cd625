/// Where a store in memory crashes: within a call of `append`, of whose bytes a front is kept.
#[derive(Clone, Copy, Debug, PartialEq, Eq)]
pub struct Crash {
    /// Which call it is, counted from 1 over those that aren't listed to fail and want no memory.
    pub append: u64,
    /// How many of its bytes are kept, if it has so many.
    pub bytes: usize,
}
