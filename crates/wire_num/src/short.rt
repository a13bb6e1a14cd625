//! The refusal of a field.

/// A field doesn't fit in what is left, or breaks its rule.
///
/// `at` is the offset in bytes of the field's first byte, from the start of the slice that is read.
#[derive(Clone, Copy, Debug, PartialEq, Eq)]
pub struct Short {
    pub at: usize,
}
