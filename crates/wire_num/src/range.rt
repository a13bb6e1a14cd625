//! A part of a slice.

/// The part of a slice from offset `from` to offset `to`, in bytes, `to` not included.
#[derive(Clone, Copy, Debug, PartialEq, Eq)]
pub struct Range {
    pub from: usize,
    pub to: usize,
}
