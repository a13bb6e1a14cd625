//! Server Security Data, SC_SECURITY (MS-RDPBCGR, 2.2.1.4.3).
//!
//! | offset | size | field | value |
//! |---|---|---|---|
//! | 0 | 4 | header | type `02 0C`, length 12 |
//! | 4 | 4 | encryptionMethod | 0, none |
//! | 8 | 4 | encryptionLevel | 0, none |

ghost use Rattle.std.specs.Prelude.{◌≡◌, ◌++◌, OnOk, OnErr};
ghost use Rattle.wire_num.specs.Written.{AppendsFront};
ghost use Rattle.gcc_per.specs.ServerBlocks.{server_security};

use wire_num::OutOfMemory;

/// The block.
const SC_SECURITY: [u8; 12] = [2, 0x0C, 12, 0, 0, 0, 0, 0, 0, 0, 0, 0];

/// Writes an SC_SECURITY at the end. An `Err` leaves a front of it there.
pub fn put_server_security(out: &mut Vec<u8>) -> Result<(), OutOfMemory>
    ensures ok { OnOk result (out.new.items ≡ out.old.items ++ server_security) }
    ensures memory { OnErr result (AppendsFront out.old.items server_security out.new.items) }
{
    out.extend_from_slice(&SC_SECURITY)?;
    Ok(())
}
