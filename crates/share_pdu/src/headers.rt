//! The headers of a share data PDU ([MS-RDPBCGR] 2.2.8.1.1.1), among them those of an update (2.2.9.1.1).
//!
//! | offset | size | field | value |
//! |---|---|---|---|
//! | 0 | 2 | totalLength | of the whole PDU, the lowest byte first |
//! | 2 | 2 | pduType | `17 00`, a data PDU |
//! | 4 | 2 | pduSource | `EA 03`, the host's 1002 |
//! | 6 | 4 | shareId | `EA 03 01 00` |
//! | 10 | 2 | pad1, streamId | `00 01` |
//! | 12 | 2 | uncompressedLength | of what stands from pduType2 on |
//! | 14 | 1 | pduType2 | what the PDU is; `02` an update |
//! | 15 | 3 | compressedType, compressedLength | `00 00 00`, not compressed |
//! | 18 | | the body | to the end |

ghost use Rattle.std.specs.Prelude.{◌≡◌, ◌≤◌};
ghost use Rattle.share_pdu.specs.Share.{data_headers};

/// How many bytes stand before the body.
pub const HEADERS: u16 = 18;

/// How many of them stand from pduType2 on.
const FROM_TYPE: u16 = 4;

/// The headers before a body of so many bytes, of a PDU of this pduType2.
pub fn data_headers(kind: u8, length: u16) -> [u8; 18]
    requires { length ≤ 65517 }
    ensures { result ≡ data_headers kind length }
{
    let [total, total_high] = (HEADERS + length).to_le_bytes();
    let [part, part_high] = (FROM_TYPE + length).to_le_bytes();
    [
        total, total_high, 0x17, 0, 0xEA, 3, 0xEA, 3, 1, 0, 0, 1, part, part_high, kind, 0, 0, 0,
    ]
}
