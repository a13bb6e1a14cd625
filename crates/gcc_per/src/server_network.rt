//! Server Network Data, SC_NET (MS-RDPBCGR, 2.2.1.4.4).
//!
//! | offset | size | field | value |
//! |---|---|---|---|
//! | 0 | 4 | header | type `03 0C`, length |
//! | 4 | 2 | MCSChannelId | 1003, the I/O channel |
//! | 6 | 2 | channelCount | as the client asked, at most 31 |
//! | 8 | 2 for each channel | channelIdArray | from 1004 on |
//! | | 0 or 2 | Pad | `00 00` after an odd number of channels |

ghost use Rattle.std.specs.Prelude.{◌≡◌, ◌≤◌, ◌++◌, OnOk, OnErr};
ghost use Rattle.wire_num.specs.Written.{AppendsFront};
ghost use Rattle.gcc_per.specs.ServerBlocks.{channel_ids, padding, network_headers, network_length, server_network};

use byteorder::{ByteOrder, LittleEndian};
use wire_num::{OutOfMemory, put_u16_le};

/// Header, MCSChannelId and channelCount; the length and the count are filled in.
const HEADERS: [u8; 8] = [3, 0x0C, 0, 0, 0xEB, 3, 0, 0];
/// The bytes of these headers.
const HEADERS_SIZE: u16 = 8;
/// The places of the length and the count in them.
const LENGTH: usize = 2;

const COUNT: usize = 6;
/// The first static virtual channel.
const FIRST_CHANNEL: u16 = 1004;
/// The bytes of a channel's id.
const ID_SIZE: u16 = 2;
/// What follows an odd number of channels.
const PAD: [u8; 2] = [0, 0];

/// Writes an SC_NET of so many channels at the end. An `Err` leaves a front of it there.
pub fn put_server_network(out: &mut Vec<u8>, channels: u16) -> Result<(), OutOfMemory>
    requires { channels ≤ 31 }
    ensures ok { OnOk result (out.new.items ≡ out.old.items ++ server_network channels) }
    ensures memory { OnErr result (AppendsFront out.old.items (server_network channels) out.new.items) }
{
    put_headers(out, channels)?;
    put_channel_ids(out, channels)?;
    put_padding(out, channels)?;
    Ok(())
}

/// How many bytes an SC_NET of so many channels has.
pub fn network_size(channels: u16) -> u16
    requires { channels ≤ 31 }
    ensures { result ≡ network_length channels }
{
    HEADERS_SIZE + ID_SIZE * (channels + channels % 2)
}

/// Writes what stands before the ids.
fn put_headers(out: &mut Vec<u8>, channels: u16) -> Result<(), OutOfMemory>
    requires { channels ≤ 31 }
    ensures ok { OnOk result (out.new.items ≡ out.old.items ++ network_headers channels) }
    ensures memory { OnErr result (AppendsFront out.old.items (network_headers channels) out.new.items) }
{
    let mut headers = HEADERS;
    LittleEndian::write_u16(&mut headers[LENGTH..], network_size(channels));
    LittleEndian::write_u16(&mut headers[COUNT..], channels);
    out.extend_from_slice(&headers)?;
    Ok(())
}

/// Writes the ids.
fn put_channel_ids(out: &mut Vec<u8>, channels: u16) -> Result<(), OutOfMemory>
    requires { channels ≤ 31 }
    ensures ok { OnOk result (out.new.items ≡ out.old.items ++ channel_ids 1004 channels) }
    ensures memory { OnErr result (AppendsFront out.old.items (channel_ids 1004 channels) out.new.items) }
{
    for channel in 0..channels {
        put_u16_le(out, FIRST_CHANNEL + channel)?;
    }
    Ok(())
}

/// Writes what follows the ids.
fn put_padding(out: &mut Vec<u8>, channels: u16) -> Result<(), OutOfMemory>
    ensures ok { OnOk result (out.new.items ≡ out.old.items ++ padding channels) }
    ensures memory { OnErr result (AppendsFront out.old.items (padding channels) out.new.items) }
{
    if channels % 2 == 1 {
        out.extend_from_slice(&PAD)?;
    }
    Ok(())
}
