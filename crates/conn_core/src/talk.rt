//! Where a connection stands between two packets.

use conn_rules::Stage;
use px_core::Size;

/// Where a connection stands between two packets: the session's size, what the client is to send next, and where the next packet
/// begins in its stream.
#[derive(Clone, Copy, PartialEq, Eq)]
pub struct Talk {
    pub size: Size,
    pub stage: Stage,
    pub place: u64,
}
