//! What stands before a body in the packet of a share data PDU ([MS-RDPBCGR] 2.2.8.1.1.1): the headers of a Send Data Indication on channel
//! 1003, as `mcs_dom` has them, and those of the PDU, as `headers` has them. A body that is written behind them is copied nowhere.

ghost use Rattle.std.specs.Prelude.{◌≡◌, ◌≤◌, ◌++◌, OnOk, OnErr};
ghost use Rattle.wire_num.specs.Written.{AppendsFront};
ghost use Rattle.share_pdu.specs.Packet.{packet_headers};

use crate::headers::{HEADERS, data_headers};
use mcs_dom::put_indication_headers;
use wire_num::OutOfMemory;

/// Writes what stands before a body of so many bytes in the packet of a PDU of this pduType2 at the end. An `Err` leaves a front of it
/// there.
pub fn put_packet_headers(out: &mut Vec<u8>, kind: u8, size: u16) -> Result<(), OutOfMemory>
    requires { size ≤ 16365 }
    ensures ok { OnOk result (out.new.items ≡ out.old.items ++ packet_headers kind size) }
    ensures memory { OnErr result (AppendsFront out.old.items (packet_headers kind size) out.new.items) }
{
    put_indication_headers(out, HEADERS + size)?;
    out.extend_from_slice(&data_headers(kind, size))?;
    Ok(())
}
