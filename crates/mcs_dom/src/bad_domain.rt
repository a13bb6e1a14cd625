//! The refusal of a domain PDU.

/// A domain PDU of the client breaks its rule.
///
/// `at` is the offset in bytes of the first field that breaks its rule, from the slice's start.
#[derive(Clone, Copy, Debug, PartialEq, Eq)]
pub struct BadDomain {
    pub at: usize,
}
