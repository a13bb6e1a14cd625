//! The refusal of a Client Info PDU.

/// Why a Client Info PDU is refused.
///
/// `at` is the offset in bytes of the first field that breaks its rule, from the slice's start.
#[derive(Clone, Copy, Debug, PartialEq, Eq)]
pub enum InfoFault {
    /// A field breaks its rule or doesn't fit.
    BadInfo { at: usize },
}
