//! What stands in a packet behind its kind, pduType2: a whole packet ([RFC 1006] 6) whose fields up to there are those of an update's, but
//! for the kind.

ghost use Rattle.std.specs.Prelude.{◌≡◌, length};
ghost use Rattle.wire_num.specs.Cursor.{rest};
ghost use Rattle.tpkt_x224.specs.Tpkt.{packet_at};
ghost use Rattle.order_means.specs.PointerPackets.{indicated_at, is_all};
ghost use Rattle.update_read.specs.PacketParts.{packet_content, FindsContent};

use crate::judge::HEADER_SIZE;
use crate::packet::read_front;
use crate::share::read_content;
use tpkt_x224::{Packet, next_packet};
use wire_num::{Cursor, Short};

/// Whether all bytes are one packet.
fn is_packet(bytes: &[u8]) -> bool
    ensures { result ≡ is_all (packet_at bytes.now) (length bytes.now) }
{
    match next_packet(bytes) {
        Packet::Whole(size) => size == bytes.len(),
        Packet::Part | Packet::NotTpkt | Packet::BadLength => false,
    }
}

/// Reads a packet of this kind behind its four header bytes.
#[tactic(auto, using(crate::proofs::Headers::kind_behind_front))]
fn read_indicated<'a>(kind: u8, cursor: &mut Cursor<'a>) -> Result<Cursor<'a>, Short>
    ensures { FindsContent cursor.old.bytes (indicated_at kind (rest cursor.old)) result }
{
    read_front(cursor)?;
    read_content(kind, cursor)
}

/// What stands in a packet of this pduType2 behind it, to the end of the PDU's total; refused, no matter where, where the bytes are no whole
/// packet of that kind.
pub fn find_content<'a>(kind: u8, packet: &'a [u8]) -> Result<Cursor<'a>, Short>
    ensures { FindsContent packet.now (packet_content kind packet.now) result }
{
    if is_packet(packet) {
        let mut cursor = Cursor::new(packet);
        cursor.go_to(HEADER_SIZE);
        return read_indicated(kind, &mut cursor);
    }
    Err(Short { at: 0 })
}
