//! The X.224 Data header (X.224, 13.7; MS-RDPBCGR, 2.2.1.3 and later).
//!
//! | offset | size | field | value |
//! |---|---|---|---|
//! | 0 | 4 | TPKT header | not read |
//! | 4 | 3 | length indicator, code, end of the unit | `02 F0 80` |

ghost use Rattle.std.specs.Prelude.{◌≡◌, ◌↔◌, length, take, drop, IsOk, IfErr};
ghost use Rattle.tpkt_x224.specs.Data.{data_header};

use crate::BadTpdu;

/// The bytes of a TPKT header, and the place of the X.224 header.
const HEADER: usize = 4;
/// The X.224 Data header: length indicator, code, end of the unit.
const DATA: [u8; 3] = [2, 0xF0, 0x80];

/// Whether the packet carries MCS data: it has the Data header (X.224, 13.7).
pub fn data_header(packet: &[u8]) -> Result<(), BadTpdu>
    ensures ok { IsOk result ↔ (take 3 (drop 4 packet.now) ≡ data_header) }
    ensures place { IfErr result (λ fault. fault.at ≡ 4) }
{
    if packet.len() < HEADER || !packet[HEADER..].starts_with(&DATA) {
        return Err(BadTpdu { at: HEADER });
    }
    Ok(())
}
