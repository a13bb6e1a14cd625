//! The refusal of a packet.

/// Why a packet is refused: the refusal's number, 3 to 14, and the offset in bytes of the first field that breaks its rule, from
/// the packet's start.
#[derive(Clone, Copy, Debug, PartialEq, Eq)]
pub struct Refusal {
    pub k: u8,
    pub at: usize,
}
