//! The GCC Conference Create Response (T.124, 8.7; X.691; MS-RDPBCGR, 2.2.1.4).
//!
//! | size | field | value |
//! |---|---|---|
//! | 7 | key | `00 05 00 14 7C 00 01`, T.124 |
//! | 1 | length of connectPDU | packed, of all that follows |
//! | 9 | conferenceCreateResponse | `14 76 0A 01 01 00 01 C0 00`: node 31219, tag 1, success, one set of user data |
//! | 4 | h221NonStandard | `4D 63 44 6E`, "McDn" |
//! | 1 | length of the user data | packed |
//! | | user data | SC_CORE, SC_NET, SC_SECURITY |

ghost use Rattle.std.specs.Prelude.{◌≡◌, ◌≤◌, ◌+◌, ◌++◌, length, OnOk, OnErr};
ghost use Rattle.wire_num.specs.Written.{AppendsFront};
ghost use Rattle.gcc_per.specs.ServerBlocks.{server_blocks};
ghost use Rattle.gcc_per.specs.ServerData.{create_response, response_headers};

use crate::server_core::put_server_core;
use crate::server_network::{network_size, put_server_network};
use crate::server_security::put_server_security;
use wire_num::OutOfMemory;

/// The key, and all fields to the length of the user data; both lengths are filled in.
const HEADERS: [u8; 22] = [
    0, 5, 0, 0x14, 0x7C, 0, 1, 0, 0x14, 0x76, 0x0A, 1, 1, 0, 1, 0xC0, 0, 0x4D, 0x63, 0x44, 0x6E, 0,
];
/// The places of both lengths in them.
const LENGTH: usize = 7;

const USER_LENGTH: usize = 21;
/// The bytes that the first length counts before the user data.
const FIELDS_SIZE: u8 = 14;
/// The bytes of an SC_CORE and of an SC_SECURITY.
const BLOCK_SIZE: u16 = 12;

/// Writes a GCC Conference Create Response at the end, for a client with so many static virtual channels that asked for these
/// protocols: the user data of a Connect-Response (T.124, 8.7; MS-RDPBCGR, 2.2.1.4), at most 118 bytes. An `Err` leaves a
/// front of them there.
pub fn write_server(out: &mut Vec<u8>, channels: u16, asked: u32) -> Result<(), OutOfMemory>
    requires { channels ≤ 31 }
    ensures ok { OnOk result (out.new.items ≡ out.old.items ++ create_response channels asked) }
    ensures size { OnOk result (length out.new.items ≤ length out.old.items + 118) }
    ensures memory { OnErr result (AppendsFront out.old.items (create_response channels asked) out.new.items) }
{
    put_headers(out, BLOCK_SIZE + network_size(channels) + BLOCK_SIZE)?;
    put_server_blocks(out, channels, asked)?;
    Ok(())
}

/// Writes what stands before server blocks of so many bytes.
#[tactic(auto, unfolding(crate::specs::ServerData::response_headers))]
fn put_headers(out: &mut Vec<u8>, size: u16) -> Result<(), OutOfMemory>
    requires { size ≤ 100 }
    ensures ok { OnOk result (out.new.items ≡ out.old.items ++ response_headers size) }
    ensures memory { OnErr result (AppendsFront out.old.items (response_headers size) out.new.items) }
{
    let mut headers = HEADERS;
    headers[LENGTH] = FIELDS_SIZE + size as u8;
    headers[USER_LENGTH] = size as u8;
    out.extend_from_slice(&headers)?;
    Ok(())
}

/// Writes the server's data blocks.
fn put_server_blocks(out: &mut Vec<u8>, channels: u16, asked: u32) -> Result<(), OutOfMemory>
    requires { channels ≤ 31 }
    ensures ok { OnOk result (out.new.items ≡ out.old.items ++ server_blocks channels asked) }
    ensures memory { OnErr result (AppendsFront out.old.items (server_blocks channels asked) out.new.items) }
{
    put_server_core(out, asked)?;
    put_server_network(out, channels)?;
    put_server_security(out)?;
    Ok(())
}
