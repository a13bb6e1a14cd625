//! What the capability sets of a Confirm Active PDU come to, one after the other ([MS-RDPBCGR] 2.2.7).
#![tactic(auto)]

use crate::Confirmed;

/// The sets that were read so far. Whether brushes are taken goes by two sets, and is known only once all are read.
#[derive(Clone, Copy, PartialEq, Eq)]
pub struct SetsSoFar {
    /// What they confirm, but for brushes.
    pub confirmed: Confirmed,
    /// brushSupportLevel of the last Brush set, 0 before the first ([MS-RDPBCGR] 2.2.7.1.7).
    pub brush_level: u32,
}
