//! The refusal of a Confirm Active PDU.

/// Why a Confirm Active PDU is refused.
///
/// `at` is the offset in bytes of the first field that breaks its rule, from the slice's start.
#[derive(Clone, Copy, Debug, PartialEq, Eq)]
pub enum CapsFault {
    /// A field doesn't fit, or the set that begins there has a length that is too short for its kind or goes past the end.
    BadCaps { at: usize },
}
