//! What the packets of a frame are: Send Data Indications, or packets of the fast path ([MS-RDPBCGR] 2.2.9.1.1.3 and 2.2.9.1.2).
//!
//! Before the orders there is room for what goes before them in the user data of a Send Data Indication:
//!
//! | offset | size | field | value |
//! |---|---|---|---|
//! | 0 | 18 | the headers of a share data PDU | |
//! | 18 | 2 | updateType | `00 00`, orders |
//! | 20 | 2 | pad2Octets | `00 00` |
//! | 22 | 2 | numberOrders | the lowest byte first |
//! | 24 | 2 | pad2Octets | `00 00` |
//! | 26 | | the orders | to the end |
//!
//! A packet of the fast path has the data from 24 on, with numberOrders there.

ghost use Rattle.std.specs.Prelude.{◌≡◌, ◌≤◌, ◌++◌, true, false, length, drop, OnOk};
ghost use Rattle.fast_path.specs.Written.{fast_headers};
ghost use Rattle.share_pdu.specs.Share.{data_headers, share_bytes};
ghost use Rattle.share_pdu.specs.Packet.{update_packet};
ghost use Rattle.order_means.specs.UpdateBodies.{orders_head, orders_body, orders_data, orders_packet, synchronize_packet};
ghost use Rattle.viewer_sender.specs.Gathering.{tile_headers, most_room};
ghost use Rattle.viewer_sender.specs.Framings.{is_fast};

use crate::OutOfMemory;
use fast_path::{put_fast_headers, write_fast};
use mcs_dom::write_indication;
use share_pdu::{data_headers, put_packet_headers};

/// How many bytes of room stand before the orders of an update.
pub(crate) const BEFORE_ORDERS: usize = 26;

/// How many of them stand before its body, which a Send Data Indication has.
const BEFORE_BODY: usize = 18;

/// How many of them stand before its data, which a packet of the fast path has.
const BEFORE_DATA: usize = 24;

/// The most bytes of room and orders in one Send Data Indication, whose user data they are (profile).
const MOST_SLOW: usize = 16_383;

/// The same in one packet of the fast path, which has 18 bytes fewer: at most 16,383 (profile).
const MOST_FAST: usize = 16_401;

/// PDUTYPE2_UPDATE, the pduType2 of an update.
const UPDATE: u8 = 2;

/// FASTPATH_UPDATETYPE_ORDERS, the updateCode of an Orders update.
const FAST_ORDERS: u8 = 0;

/// FASTPATH_UPDATETYPE_BITMAP, the updateCode of a Bitmap update.
const FAST_BITMAP: u8 = 1;

/// SYNCHRONIZE and FASTPATH_UPDATETYPE_SYNCHRONIZE, the updateType and the updateCode of an update that is only a mark.
const SYNCHRONIZE: u8 = 3;

/// Which packets a frame goes in.
#[derive(Clone, Copy)]
pub(crate) enum Framing {
    /// Send Data Indications.
    Indications,
    /// Packets of the fast path.
    FastPath,
}

impl Framing {
    /// The packets of a viewer that confirmed the fast path or not.
    pub fn of(fast: bool) -> Framing
        ensures { is_fast result ≡ fast }
    {
        if fast {
            Framing::FastPath
        } else {
            Framing::Indications
        }
    }

    /// The most bytes of room and orders in one packet.
    pub fn most_room(self) -> usize
        ensures { result ≡ most_room (is_fast self) }
    {
        match self {
            Framing::Indications => MOST_SLOW,
            Framing::FastPath => MOST_FAST,
        }
    }

    /// Writes what stands before so many bytes of a Bitmap update at the end.
    pub fn put_tile_headers(self, packets: &mut Vec<u8>, size: u16) -> Result<(), OutOfMemory>
        requires { size ≤ 12310 }
        ensures { OnOk result (packets.new.items ≡ packets.old.items ++ tile_headers (is_fast self) size) }
    {
        match self {
            Framing::Indications => put_packet_headers(packets, UPDATE, size),
            Framing::FastPath => put_fast_headers(packets, FAST_BITMAP, size),
        }
    }

    /// Writes the packet of an Orders update at the end, of room and so many orders.
    pub fn write_orders(
        self,
        packets: &mut Vec<u8>,
        user: &mut [u8],
        count: u16,
    ) -> Result<(), OutOfMemory>
        requires room { 26 ≤ length user.old }
        requires few { length user.old ≤ most_room (is_fast self) }
        ensures { OnOk result (packets.new.items ≡ packets.old.items ++ orders_packet (is_fast self) count (drop 26 user.old)) }
    {
        match self {
            Framing::Indications => write_update(packets, user, count),
            Framing::FastPath => write_fast_update(packets, user, count),
        }
    }

    /// Writes the packet of a Synchronize update at the end.
    pub fn write_synchronize(self, packets: &mut Vec<u8>) -> Result<(), OutOfMemory>
        ensures { OnOk result (packets.new.items ≡ packets.old.items ++ synchronize_packet (is_fast self)) }
    {
        match self {
            Framing::Indications => write_mark(packets),
            Framing::FastPath => write_fast_mark(packets),
        }
    }
}

/// Writes a Synchronize update in a packet of the fast path at the end.
#[tactic(auto, unfolding(fast_path::specs::Written::fast_headers))]
fn write_fast_mark(packets: &mut Vec<u8>) -> Result<(), OutOfMemory>
    ensures { OnOk result (packets.new.items ≡ packets.old.items ++ synchronize_packet true) }
{
    write_fast(packets, SYNCHRONIZE, &[])
}

/// Writes a Synchronize update in a Send Data Indication at the end.
fn write_mark(packets: &mut Vec<u8>) -> Result<(), OutOfMemory>
    ensures { OnOk result (packets.new.items ≡ packets.old.items ++ synchronize_packet false) }
{
    let mut user = [0; 22];
    user[BEFORE_BODY] = SYNCHRONIZE;
    write_user_data(packets, &mut user)
}

/// What stands before so many orders of an update.
fn orders_head(count: u16) -> [u8; 8]
    ensures { result ≡ orders_head count }
{
    let [low, high] = count.to_le_bytes();
    [0, 0, 0, 0, low, high, 0, 0]
}

/// Fills the room before the body of an update's user data.
fn put_headers(user: &mut [u8])
    requires room { 18 ≤ length user.old }
    requires few { length user.old ≤ 16383 }
    ensures { user.new ≡ share_bytes 2 (drop 18 user.old) }
{
    let headers = data_headers(UPDATE, (user.len() - BEFORE_BODY) as u16);
    user[..BEFORE_BODY].copy_from_slice(&headers);
}

/// Writes the packet of an update at the end, of user data whose body stands behind the room for what goes before it.
fn write_user_data(packets: &mut Vec<u8>, user: &mut [u8]) -> Result<(), OutOfMemory>
    requires room { 18 ≤ length user.old }
    requires few { length user.old ≤ 16383 }
    ensures { OnOk result (packets.new.items ≡ packets.old.items ++ update_packet (drop 18 user.old)) }
{
    put_headers(user);
    write_indication(packets, user)
}

/// Fills the room before the orders of an Orders update's user data, which are so many.
fn put_orders_head(user: &mut [u8], count: u16)
    requires room { 26 ≤ length user.old }
    requires few { length user.old ≤ 16383 }
    ensures { user.new ≡ share_bytes 2 (orders_body count (drop 26 user.old)) }
{
    let head = orders_head(count);
    user[BEFORE_BODY..BEFORE_ORDERS].copy_from_slice(&head);
    put_headers(user);
}

/// Writes an Orders update in a Send Data Indication at the end, of room and so many orders.
fn write_update(packets: &mut Vec<u8>, user: &mut [u8], count: u16) -> Result<(), OutOfMemory>
    requires room { 26 ≤ length user.old }
    requires few { length user.old ≤ 16383 }
    ensures { OnOk result (packets.new.items ≡ packets.old.items ++ orders_packet false count (drop 26 user.old)) }
{
    put_orders_head(user, count);
    write_indication(packets, user)
}

/// Fills the room before the orders of an update's data, which are so many.
fn put_orders_count(user: &mut [u8], count: u16)
    requires room { 26 ≤ length user.old }
    ensures data { drop 24 user.new ≡ orders_data count (drop 26 user.old) }
    ensures same { length user.new ≡ length user.old }
{
    let counted = count.to_le_bytes();
    user[BEFORE_DATA..BEFORE_ORDERS].copy_from_slice(&counted);
}

/// Writes an Orders update in a packet of the fast path at the end, of room and so many orders.
fn write_fast_update(packets: &mut Vec<u8>, user: &mut [u8], count: u16) -> Result<(), OutOfMemory>
    requires room { 26 ≤ length user.old }
    requires few { length user.old ≤ 16401 }
    ensures { OnOk result (packets.new.items ≡ packets.old.items ++ orders_packet true count (drop 26 user.old)) }
{
    put_orders_count(user, count);
    write_fast(packets, FAST_ORDERS, &user[BEFORE_DATA..])
}
