//! A share data PDU of the host ([MS-RDPBCGR] 2.2.8.1.1.1): its headers, as `headers` has them, and its body.

ghost use Rattle.std.specs.Prelude.{◌≡◌, ◌≤◌, ◌++◌, length, OnOk, OnErr};
ghost use Rattle.wire_num.specs.Written.{AppendsFront};
ghost use Rattle.share_pdu.specs.Share.{share_bytes};

use crate::headers::data_headers;
use wire_num::OutOfMemory;

/// Writes a share data PDU of this pduType2 with this body at the end. An `Err` leaves a front of it there.
pub fn write_data(out: &mut Vec<u8>, kind: u8, body: &[u8]) -> Result<(), OutOfMemory>
    requires { length body.now ≤ 16365 }
    ensures ok { OnOk result (out.new.items ≡ out.old.items ++ share_bytes kind body.now) }
    ensures memory { OnErr result (AppendsFront out.old.items (share_bytes kind body.now) out.new.items) }
{
    out.extend_from_slice(&data_headers(kind, body.len() as u16))?;
    out.extend_from_slice(body)?;
    Ok(())
}
