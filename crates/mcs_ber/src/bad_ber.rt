//! The refusal of a Connect-Initial.

/// A Connect-Initial breaks its rule.
///
/// `at` is the offset in bytes of the first field that breaks its rule, from the slice's start.
#[derive(Clone, Copy, Debug, PartialEq, Eq)]
pub struct BadBer {
    pub at: usize,
}
