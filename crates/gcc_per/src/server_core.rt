//! Server Core Data, SC_CORE (MS-RDPBCGR, 2.2.1.4.2).
//!
//! | offset | size | field | value |
//! |---|---|---|---|
//! | 0 | 4 | header | type `01 0C`, length 12 |
//! | 4 | 4 | version | `04 00 08 00` |
//! | 8 | 4 | clientRequestedProtocols | of the client's negotiation request, little-endian |

ghost use Rattle.std.specs.Prelude.{◌≡◌, ◌++◌, OnOk, OnErr};
ghost use Rattle.wire_num.specs.Written.{AppendsFront};
ghost use Rattle.gcc_per.specs.ServerBlocks.{server_core};

use byteorder::{ByteOrder, LittleEndian};
use wire_num::OutOfMemory;

/// The block; the protocols are filled in.
const SC_CORE: [u8; 12] = [1, 0x0C, 12, 0, 4, 0, 8, 0, 0, 0, 0, 0];
/// The place of the protocols in it.
const REQUESTED_PROTOCOLS: usize = 8;

/// Writes an SC_CORE at the end. An `Err` leaves a front of it there.
pub fn put_server_core(out: &mut Vec<u8>, asked: u32) -> Result<(), OutOfMemory>
    ensures ok { OnOk result (out.new.items ≡ out.old.items ++ server_core asked) }
    ensures memory { OnErr result (AppendsFront out.old.items (server_core asked) out.new.items) }
{
    let mut block = SC_CORE;
    LittleEndian::write_u32(&mut block[REQUESTED_PROTOCOLS..], asked);
    out.extend_from_slice(&block)?;
    Ok(())
}
