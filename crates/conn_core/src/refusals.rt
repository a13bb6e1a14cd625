//! The numbers of refusals.

/// A packet's first byte is neither 3 nor, from the place of the Confirm Active on, that of the fast path.
pub const NOT_TPKT: u8 = 1;
/// A packet's length is below 7, or that of the fast path below the bytes of its header and length.
pub const BAD_LENGTH: u8 = 2;
/// The X.224 header breaks its rule.
pub const BAD_TPDU: u8 = 3;
/// The Connect-Initial breaks its rule.
pub const BAD_BER: u8 = 4;
/// An MCS domain PDU breaks its rule, or isn't expected now.
pub const BAD_DOMAIN: u8 = 5;
/// A join or data name a channel that isn't the client's, or another initiator, or data come before the joins.
pub const WRONG_CHANNEL: u8 = 6;
/// The client data break their rule.
pub const BAD_GCC: u8 = 7;
/// Neither 24 nor 16 bits for each pixel are offered.
pub const DEPTH_NOT_OFFERED: u8 = 8;
/// There are more than 31 static virtual channels.
pub const TOO_MANY_CHANNELS: u8 = 9;
/// The Client Info breaks its rule.
pub const BAD_INFO: u8 = 10;
/// A capability set breaks its rule.
pub const BAD_CAPS: u8 = 11;
/// A share PDU breaks its rule, or isn't expected now.
pub const BAD_SHARE: u8 = 12;
/// A share PDU is compressed.
pub const COMPRESSED: u8 = 13;
/// The events don't fit in the Input PDU, or the fast-path packet; a flag bit of such a packet is set; one of its events has another
/// code.
pub const BAD_INPUT: u8 = 14;
