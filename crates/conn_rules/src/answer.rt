//! What the host makes of a packet.

use crate::{Client, ConnStep, Stage};
use share_pdu::Final;
use tpkt_x224::Request;

/// What a packet is answered with, what it tells, and what the client is to send next.
#[derive(Clone, Copy, PartialEq, Eq)]
pub struct Answer {
    pub reply: Reply,
    pub news: News,
    pub next: Stage,
}

/// What a packet is answered with.
#[derive(Clone, Copy, Debug, PartialEq, Eq)]
pub enum Reply {
    Nothing,
    /// X.224 Connection Confirm.
    Confirm(Request),
    /// MCS Connect-Response, to a client with so many static virtual channels that asked for these protocols.
    Response { channels: u8, asked: u32 },
    /// MCS Attach User Confirm.
    Attached { user: u16 },
    /// MCS Channel Join Confirm.
    Joined { user: u16, channel: u16 },
    /// The licence, and Demand Active, to this client.
    Welcome(Client),
    /// A PDU of the finalisation.
    Final { which: Final, user: u16 },
}

/// What a packet tells.
#[derive(Clone, Copy, PartialEq, Eq)]
pub enum News {
    Nothing,
    Step(ConnStep),
    /// The events or the areas that were found in it.
    Pdu,
}
