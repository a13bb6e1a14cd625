//! The GCC Conference Create Request (T.124, 8.7; X.691; MS-RDPBCGR, 2.2.1.3).
//!
//! | size | field | value |
//! |---|---|---|
//! | 7 | key | `00 05 00 14 7C 00 01`, T.124 |
//! | 1 or 2 | length of connectPDU | packed, not compared |
//! | 8 | conferenceCreateRequest | `00 08 00 10 00 01 C0 00`: conference "1", one set of user data |
//! | 4 | h221NonStandard | `44 75 63 61`, "Duca" |
//! | 1 or 2, n | user data | packed length, client blocks to the end |

ghost use Rattle.std.specs.Prelude.{◌≡◌, ◌≤◌, ◌↔◌, ℕ, List, [], ◌∷◌, Ok, Err, IfOk};
ghost use Rattle.wire_num.specs.Layout.{fields_at};
ghost use Rattle.wire_num.specs.Cursor.{rest, ReadsFieldsAs, ReadsCaused};
ghost use Rattle.gcc_per.specs.ClientData.{create_request, client_blocks_at, user_data_at, client_data_at, client_data_of, channels_of};
ghost use Rattle.gcc_per.specs.Grammar.{IsRequest};
ghost use Rattle.gcc_per.specs.Refusals.{CoreWithoutDepth, CrowdedNetwork};
ghost use Rattle.gcc_per.specs.Faults.{IsFirstFault};
ghost use Rattle.gcc_per.specs.declared.gcc_fault.GccFault.TheVariants.{DepthNotOffered, TooManyChannels};

use crate::GccFault;
use crate::client_blocks::read_blocks;
use crate::gcc_fault::{Cause, fault_of};
use px_core::Depth;
use wire_num::{Cursor, Short};

/// The key that chooses T.124: object 0.0.20.124.0.1.
const T124_KEY: [u8; 7] = [0, 5, 0, 0x14, 0x7C, 0, 1];
/// A conferenceCreateRequest with its conference name "1" and one set of user data under a key of four bytes.
const CREATE_REQUEST: [u8; 8] = [0, 8, 0, 0x10, 0, 1, 0xC0, 0];
/// The key of a client's user data, "Duca".
const CLIENT_KEY: [u8; 4] = [0x44, 0x75, 0x63, 0x61];

/// What a client says of itself before it has joined a channel.
#[derive(Clone, Copy, Debug, PartialEq, Eq)]
pub struct ClientData {
    /// How many static virtual channels it has, 0 to 31.
    pub channels: u16,
    /// The width of the desktop that it asks for, in pixels.
    pub asked_width: u16,
    /// The height of that desktop, in pixels.
    pub asked_height: u16,
    /// Its build number, clientBuild (MS-RDPBCGR, 2.2.1.3.2).
    pub build: u32,
    /// The bits of a pixel that it is shown, by the depths that it offers.
    pub depth: Depth,
}

/// Reads a GCC Conference Create Request, which is all of the slice: the user data of a Connect-Initial (T.124, 8.7;
/// MS-RDPBCGR, 2.2.1.3).
pub fn read_client(bytes: &[u8]) -> Result<ClientData, GccFault>
    ensures exact { result ≡ client_data_of bytes.now }
    ensures few { IfOk result (λ client. client.channels ≤ 31) }
{
    let mut cursor = Cursor::new(bytes);
    match read_client_data(&mut cursor) {
        Ok(data) => Ok(data),
        Err(cause) => Err(fault_of(cause, cursor.at())),
    }
}

/// The law of client data: they are read exactly where a request with them stands there, and refused exactly for the first
/// fault there, at its place: all before it is the front of a request without a fault. So where they are refused for a depth
/// or for too many channels, it is a CS_CORE without that depth or a CS_NET with so many that stands there.
pub fn requests_are_read_exactly()
    ensures exact { (bytes : List ℕ) (client : ClientData) → (client_data_of bytes ≡ Ok client) ↔ IsRequest bytes client }
    ensures refused { (bytes : List ℕ) (fault : GccFault) → (client_data_of bytes ≡ Err fault) ↔ IsFirstFault bytes fault }
    ensures no_depth { (bytes : List ℕ) (at : ℕ) → client_data_of bytes ≡ Err (DepthNotOffered at) → CoreWithoutDepth bytes at }
    ensures crowded { (bytes : List ℕ) (at : ℕ) → client_data_of bytes ≡ Err (TooManyChannels at) → CrowdedNetwork bytes at }
{}

/// Reads all fields.
#[tactic(auto, unfolding(crate::specs::ClientData::client_data_at))]
fn read_client_data(cursor: &mut Cursor<'_>) -> Result<ClientData, Cause>
    ensures { ReadsCaused client_data_at result cursor.old cursor.new }
{
    read_create_request(cursor)?;
    read_user_data(cursor)
}

/// Reads what stands before the user data.
#[tactic(auto, unfolding(crate::specs::ClientData::create_request))]
fn read_create_request(cursor: &mut Cursor<'_>) -> Result<(), Short>
    ensures { ReadsFieldsAs (λ _. []) (fields_at create_request) result cursor.old cursor.new }
{
    cursor.expect(&T124_KEY)?;
    cursor.per_len()?;
    cursor.expect(&CREATE_REQUEST)?;
    cursor.expect(&CLIENT_KEY)?;
    Ok(())
}

/// Reads the user data, and nothing after them.
#[tactic(auto, unfolding(crate::specs::ClientData::user_data_at))]
fn read_user_data(cursor: &mut Cursor<'_>) -> Result<ClientData, Cause>
    ensures { ReadsCaused user_data_at result cursor.old cursor.new }
{
    let size = cursor.per_len()?;
    let mut content = cursor.within(size as usize)?;
    match read_client_blocks(&mut content) {
        Ok(data) => {
            cursor.end()?;
            Ok(data)
        }
        Err(cause) => {
            cursor.go_to(content.at());
            Err(cause)
        }
    }
}

/// Reads the client's data blocks, which are all that is left.
#[tactic(auto, unfolding(crate::specs::ClientData::client_blocks_at))]
fn read_client_blocks(cursor: &mut Cursor<'_>) -> Result<ClientData, Cause>
    ensures { ReadsCaused client_blocks_at result cursor.old cursor.new }
{
    let found = read_blocks(cursor)?;
    match found.desktop {
        Some(desktop) => Ok(ClientData {
            channels: channels_of(found.channels),
            asked_width: desktop.width,
            asked_height: desktop.height,
            build: desktop.build,
            depth: desktop.depth,
        }),
        None => Err(Cause::Broken),
    }
}

/// How many channels there are, none without a CS_NET.
fn channels_of(channels: Option<u16>) -> u16
    ensures { result ≡ channels_of channels }
{
    match channels {
        Some(channels) => channels,
        None => 0,
    }
}
