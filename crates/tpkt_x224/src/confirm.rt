//! The X.224 Connection Confirm (X.224, 13.4; MS-RDPBCGR, 2.2.1.2).
//!
//! | offset | size | field | value |
//! |---|---|---|---|
//! | 0 | 4 | TPKT header | `03 00`, length 19 or 11 |
//! | 4 | 1 | length indicator | 14 or 6 |
//! | 5 | 1 | code and credit | `D0` |
//! | 6 | 2 | destination reference | the request's source reference, big-endian |
//! | 8 | 2 | source reference | `12 34` (profile) |
//! | 10 | 1 | class and options | 0 |
//! | 11 | 8 | negotiation response, where the request had one | `02 00 08 00 00 00 00 00` |

ghost use Rattle.std.specs.Prelude.{◌≡◌, ◌++◌, OnOk, OnErr};
ghost use Rattle.wire_num.specs.Written.{AppendsFront};
ghost use Rattle.tpkt_x224.specs.Confirm.{confirm_of};

use crate::Request;
use byteorder::{BigEndian, ByteOrder};
use wire_num::OutOfMemory;

/// The offset of the destination reference.
const REFERENCE: usize = 6;
/// A confirm without a negotiation response; its reference is filled in.
const CONFIRM: [u8; 11] = [3, 0, 0, 11, 6, 0xD0, 0, 0, 0x12, 0x34, 0];
/// A confirm with a negotiation response, which chooses standard RDP security (MS-RDPBCGR, 2.2.1.2.1).
const NEGOTIATED_CONFIRM: [u8; 19] = [
    3, 0, 0, 19, 14, 0xD0, 0, 0, 0x12, 0x34, 0, 2, 0, 8, 0, 0, 0, 0, 0,
];

/// Writes the answer to a request at the end, as a whole packet (X.224, 13.4). An `Err` leaves a front of it there.
pub fn write_confirm(out: &mut Vec<u8>, request: Request) -> Result<(), OutOfMemory>
    ensures ok { OnOk result (out.new.items ≡ out.old.items ++ confirm_of request) }
    ensures memory { OnErr result (AppendsFront out.old.items (confirm_of request) out.new.items) }
{
    match request.asked {
        Some(_) => {
            let mut packet = NEGOTIATED_CONFIRM;
            BigEndian::write_u16(&mut packet[REFERENCE..], request.reference);
            out.extend_from_slice(&packet)?;
        }
        None => {
            let mut packet = CONFIRM;
            BigEndian::write_u16(&mut packet[REFERENCE..], request.reference);
            out.extend_from_slice(&packet)?;
        }
    }
    Ok(())
}
