//! The refusal of an X.224 header.

/// The X.224 header breaks its rule.
///
/// `at` is the offset in bytes of the first field that breaks its rule, from the packet's start.
#[derive(Clone, Copy, Debug, PartialEq, Eq)]
pub struct BadTpdu {
    pub at: usize,
}
