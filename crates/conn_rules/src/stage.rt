//! Where a client is in its connection sequence ([MS-RDPBCGR] 1.3.1.1).

use crate::Client;
use caps_sets::Confirmed;
use px_core::Depth;
use share_pdu::Final;

/// What the client is to send next, or how its stream has ended. A client with so many static virtual channels has the user
/// channel 1004 and so many more.
#[derive(Clone, Copy, PartialEq, Eq)]
pub enum Stage {
    /// X.224 Connection Request.
    Request,
    /// MCS Connect-Initial, after a request for these protocols.
    Initial {
        asked: u32,
    },
    /// MCS Erect Domain Request.
    Erect {
        client: Client,
    },
    /// MCS Attach User Request.
    Attach {
        client: Client,
    },
    /// MCS Channel Join Requests, and the Client Info PDU once the user channel and the I/O channel are joined.
    Joins {
        client: Client,
        user: bool,
        io: bool,
    },
    /// Share PDUs on the I/O channel.
    Shares {
        channels: u8,
        phase: SharePhase,
    },
    /// Nothing: the client has left, or asked for the end.
    Over,
    /// Nothing: its stream was refused by this number at this place.
    Refused {
        k: u8,
        at: u64,
    },
}

/// Which share PDU is next.
#[derive(Clone, Copy, PartialEq, Eq)]
pub enum SharePhase {
    /// Confirm Active, from a client that is shown so many bits of a pixel.
    Confirm { depth: Depth },
    /// The PDU of the finalisation that this answer is due to, from a client that confirmed this.
    Finish { confirmed: Confirmed, next: Final },
    /// Any: the Font List was answered.
    Ready,
}
